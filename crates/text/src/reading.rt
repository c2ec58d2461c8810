// Decimal numbers at a place of a text.
ghost use Rattle.std.specs.Prelude.{cond, ◌≡◌, ◌-◌, ◌≤◌, eqb};
ghost use Rattle.text.specs.Bytes.{byte_at};
ghost use Rattle.text.specs.Numbers.{is_digit, number, word};

use super::byte_at;

// 01, The chart text: "A number is 1 to 7 decimal digits".
pub const NUMBER_DIGITS: u32 = 7;
// 01, Rig log: "1 to 10 digits", "at most 4,294,967,295".
pub const WORD_DIGITS: u32 = 10;

// A number of 1 to 7 digits at a place, and the place after it.
pub fn number_at(s: &[u8], at: usize) -> Option<(u32, usize)>
    ensures { result ≡ number 7 (byte_at s.now) at }
{
    let (value, end) = numeral_at(s, at, NUMBER_DIGITS)?;
    Some((value as u32, end))
}

// A number of 1 to 10 digits at a place, where it fits a 32-bit word, and the place after it.
pub fn word_at(s: &[u8], at: usize) -> Option<(u32, usize)>
    ensures { result ≡ word (byte_at s.now) at }
{
    let (value, end) = numeral_at(s, at, WORD_DIGITS)?;
    Some((u32::try_from(value).ok()?, end))
}

// A number of 1 to `most` digits at a place, and the place after it. Each byte is looked at once: a byte that is no digit ends the number, and a digit too many
// makes it none. With a `while let` over a digit's Option, which is tested twice, and a test for 32 bits, a chart's check took 23.2 instructions a byte, and takes 19.2 so.
fn numeral_at(s: &[u8], at: usize, most: u32) -> Option<(u64, usize)>
    requires { (1 ≤ most) × (most ≤ 10) }
    ensures { result ≡ number most (byte_at s.now) at }
{
    let first = byte_at(s, at);
    if !is_digit(first) {
        return None;
    }
    let mut value = u64::from(first - b'0');
    let mut end = at + 1;
    let mut left = most_after(value, most);
    loop {
        let b = byte_at(s, end);
        if !is_digit(b) {
            return Some((value, end));
        }
        if left == 0 {
            return None;
        }
        value = value * 10 + u64::from(b - b'0');
        end += 1;
        left -= 1;
    }
}

// How many digits a number may have after its first: a 0 stands alone.
fn most_after(first: u64, most: u32) -> u32
    requires { 1 ≤ most }
    ensures { result ≡ cond (eqb first 0) 0 (most - 1) }
{
    if first == 0 { 0 } else { most - 1 }
}

pub fn is_digit(b: u8) -> bool
    ensures { result ≡ is_digit b }
{
    b.is_ascii_digit()
}
