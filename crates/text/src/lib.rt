// What every layer reads texts and words with (the byte at a place, a decimal number at a place, a key, the lines of a text, a bit of a word) and writes texts with.
// No caller that reads owes anything: a place past the end reads as 0, and a word has no bit 32 or higher.
#![tactic(auto)]

mod keys;
mod lines;
mod reading;
mod writing;

ghost use Rattle.std.specs.Prelude.{◌≡◌};
ghost use Rattle.text.specs.Bytes.{byte_at};
ghost use Rattle.text.specs.Words.{bit_at, has};

pub use keys::begins;
pub use lines::{Reader, Taken, line_from};
pub use reading::{NUMBER_DIGITS, WORD_DIGITS, is_digit, number_at, word_at};
pub use writing::{put_byte, put_bytes, put_decimal, put_line};

// The byte at a place, and 0 past the end.
pub fn byte_at(s: &[u8], at: usize) -> u8
    ensures { result ≡ byte_at s.now at }
{
    s.get(at).copied().unwrap_or(0)
}

// Whether the word has a bit: it has none at 32 or higher.
pub fn has_item(w: u32, j: u32) -> bool
    ensures { result ≡ has w j }
{
    (j < 32) && (w >> j) % 2 == 1
}

// The word of one item: it has no bit 32 or higher.
pub fn bit_at(j: u32) -> u32
    ensures { result ≡ bit_at j }
{
    if j < 32 { 1 << j } else { 0 }
}
