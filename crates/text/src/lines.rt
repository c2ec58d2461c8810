// The lines of a text, one per asking: by text and place as plain parameters, and by a reader that carries the text with its place.
// `new`, `next_line` and `line_from` are thin, over functions that take text and place by themselves.
ghost use Rattle.std.specs.Prelude.{◌≡◌, ◌==◌, ◌&&◌, not, true, ◌+◌, ◌<◌, ◌≤◌, ◌^◌, length};
ghost use Rattle.std.specs.List.{fold, position};
ghost use Rattle.text.specs.Lines.{line_end};
ghost use Rattle.text.specs.Places.{EndsAt, taken_at, place_after, Asked};

// 01: "a reader that carries the text with its place and hands out one line per asking".
#[derive(Drop)]
pub struct Reader<'a> {
    pub text: &'a [u8],
    pub at: usize,
}

// What stands from a place on: a line, which ends at that place and before its byte 10; bytes with no byte 10; or nothing.
#[derive(Clone, Copy)]
pub enum Taken {
    Line(usize),
    Open,
    End,
}

// The first byte 10 from a place on, or the end of the text. Every byte of a chart passes here: with `position` alone a chart's check took
// 3.4 instructions more for each byte than with eight bytes for each test.
fn line_end(text: &[u8], from: usize) -> usize
    ensures { EndsAt text.now from result }
{
    if text.len() < from {
        return from;
    }
    let mut at = from;
    while 8 <= text.len() - at && none_ends(&text[at..at + 8]) {
        at += 8;
    }
    let rest = &text[at..];
    at + first_end(rest).unwrap_or(rest.len())
}

// The place of a text's first byte 10.
fn first_end(text: &[u8]) -> Option<usize>
    ensures { result ≡ position (λ b. b == line_end) text.now }
{
    text.iter().position(|b| *b == b'\n')
}

// Whether none of a part's bytes is a byte 10. All of them are looked at, so that eight are compared at once.
fn none_ends(part: &[u8]) -> bool
    ensures { result ≡ fold (λ none b. none && not (b == line_end)) true part.now }
{
    part.iter().fold(true, |none, b| none & (*b != b'\n'))
}

// The line that begins at a place.
fn line_at(text: &[u8], at: usize) -> Taken
    ensures { result ≡ taken_at text.now at }
{
    if text.len() <= at {
        return Taken::End;
    }
    let e = line_end(text, at);
    if e == text.len() {
        return Taken::Open;
    }
    Taken::Line(e)
}

// Where a reader that handed this out at a place stands next: past the line's byte 10, and where it stood if there was no line.
fn place_after(taken: Taken, at: usize) -> usize
    requires { place_after taken at < 2 ^ 64 }
    ensures { result ≡ place_after taken at }
{
    match taken {
        Taken::Line(e) => e + 1,
        Taken::Open | Taken::End => at,
    }
}

impl<'a> Reader<'a> {
    // A reader at a place of a text.
    pub fn new(text: &'a [u8], at: usize) -> Self
        ensures { (result.text ≡ text.entry) × (result.at ≡ at) }
    {
        Self { text, at }
    }

    // The line at the reader's place. Asked again, the reader hands out the next one.
    pub fn next_line(&mut self) -> Taken
        ensures { Asked self.old result self.new }
    {
        let at = self.at;
        let taken = line_at(self.text, at);
        self.at = place_after(taken, at);
        taken
    }
}

// The line that a reader at this place hands out. Its contract says nothing of a reader.
pub fn line_from(text: &[u8], at: usize) -> Taken
    ensures { result ≡ taken_at text.now at }
{
    let mut r = Reader::new(text, at);
    r.next_line()
}
