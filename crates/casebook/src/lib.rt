// The cases of a file of vectors, read from standard input: each begins with a line of numbers with a byte after each, some behind `case=NAME:`, and then come
// so many bytes of each of its parts.
#![tactic(auto)]

ghost use Rattle.std.specs.Prelude.{◌≡◌, ◌+◌, ◌-◌, ◌^◌, ◌<◌, ◌≤◌, length, max, IfSome};
ghost use Rattle.casebook.specs.Heads.{IsField, IsHead, IsPart, part_or_all};
ghost use Rattle.text.specs.Bytes.{byte_at};
ghost use Rattle.text.specs.Numbers.{word};

// More bytes than a file of vectors has.
const INPUT: usize = 524_288;

// A line `case=NAME:N:M`: the place where its name ends, its two numbers, and the place after the line.
#[derive(Clone, Copy)]
pub struct Head {
    pub name: usize,
    pub first: u32,
    pub second: u32,
    pub end: usize,
}

// Runs each case of standard input after its name is written. A run is given the whole text and the case's line, and says where the case ends.
pub fn run_input<R: Fn(&[u8], Head) -> usize>(rt: &(impl Input + Print), run: R)
    requires { R.IsAlwaysCallable run }
{
    let mut input = [0u8; INPUT];
    run_read(rt, &mut input, run);
}

// What is read into the array, which is too long for a proof but behind its type.
fn run_read<R: Fn(&[u8], Head) -> usize>(rt: &(impl Input + Print), input: &mut [u8; INPUT], run: R)
    requires { R.IsAlwaysCallable run }
{
    let n = files::read_front(&mut rt.reader(), input);
    run_all(rt, &input[..n], run);
}

// A line that is none of a case ends the run.
fn run_all<R: Fn(&[u8], Head) -> usize>(rt: &impl Print, s: &[u8], run: R)
    requires { R.IsAlwaysCallable run }
{
    let mut at = 0;
    while at < s.len() {
        let Some(head) = head_at(s, at) else {
            return;
        };
        write(rt, part(s, at, head.name));
        write(rt, b"\n");
        let end = run(s, head);
        if end <= at {
            return;
        }
        at = end;
    }
}

// The line that begins at a place.
pub fn head_at(s: &[u8], at: usize) -> Option<Head>
    ensures { at < length s.now → IfSome result (IsHead s.now) }
{
    let name = colon_from(s, at);
    let (first, middle) = number_after(s, name)?;
    let (second, last) = number_after(s, middle)?;
    Some(Head {
        name,
        first,
        second,
        end: sum(last, 1),
    })
}

// The first `:` from a place on, or the end.
fn colon_from(s: &[u8], at: usize) -> usize
    ensures { result ≤ max at (length s.now) }
{
    match s.get(at..) {
        Some(rest) => at + rest.iter().position(|b| *b == b':').unwrap_or(rest.len()),
        None => at,
    }
}

// The number after the byte at a place, and the place after the number.
fn number_after(s: &[u8], at: usize) -> Option<(u32, usize)>
    ensures { at < 2 ^ 64 - 1 → result ≡ word (byte_at s.now) (at + 1) }
{
    text::word_at(s, sum(at, 1))
}

// The number at a place, and the place after the byte that follows it: there is one.
pub fn field_at(s: &[u8], at: usize) -> Option<(u32, usize)>
    ensures { IfSome result (λ f. IsField s.now at f.0 f.1) }
{
    let (value, end) = text::word_at(s, at)?;
    if end < s.len() {
        Some((value, end + 1))
    } else {
        None
    }
}

// So many bytes from a place on, and the place after the byte that follows them: there is one.
pub fn bytes_at(s: &[u8], at: usize, n: u32) -> Option<(&[u8], usize)>
    ensures { IfSome result (λ p. IsPart s.now at n p.0.now p.1) }
{
    let end = sum(at, n);
    if end < s.len() {
        Some((s.get(at..end)?, end + 1))
    } else {
        None
    }
}

// A place further on, as far as places go.
pub fn sum(at: usize, n: u32) -> usize
    ensures { at + n < 2 ^ 64 → result ≡ at + n }
{
    at.saturating_add(n as usize)
}

// A part of a text, or all of it where there is no such part.
pub fn part(s: &[u8], from: usize, to: usize) -> &[u8]
    ensures { result.now ≡ part_or_all s.now from to }
{
    s.get(from..to).unwrap_or(s)
}

// What cannot be written is lost.
pub fn write(rt: &impl Print, s: &[u8]) {
    let _ = rt.write_all(s);
}
