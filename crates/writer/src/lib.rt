// The chart of a reading, written into lent room. Bytes that lie past the room are counted and not written.
#![tactic(auto)]

ghost use Rattle.std.specs.Prelude.{[], ◌∷◌, ◌++◌, ◌≡◌, ◌+◌, ◌≤◌, ◌<◌, min, length, take};
ghost use Rattle.text.specs.Decimal.{decimal};
ghost use Rattle.text.specs.Lines.{line_end};
ghost use Rattle.text.specs.Writing.{Put, keyed};
ghost use Rattle.line.specs.Write.{k_initial, list, write, move', hold', latch'};
ghost use Rattle.line.specs.Rules.{longest_text};
ghost use Rattle.outline.specs.Reading.{reading_of};
ghost use Rattle.writer.specs.Lines.{is_s, word_items, move_made, hold_made, latch_made, action_made, made, lines_made, drawn_of};
ghost use Rattle.writer.specs.Writing.{ItemPut, ListPut, LinesPut, of_kind, line_bytes, head_of};

use grammar::Phase;
use line::Kind;
use naming::{Names, Qualifier};
use outline::{Condition, Part, Reading};

// Where lines that are being written go on, and how many there are.
#[derive(Clone, Copy)]
pub struct Written {
    pub at: usize,
    pub lines: u64,
}

impl Written {
    // One line more, up to a place.
    fn and_to(self, at: usize) -> Written
        requires { self.lines ≤ 60000000 }
        ensures { (result.at ≡ at) × (result.lines ≡ self.lines + 1) }
    {
        Written {
            at,
            lines: self.lines + 1,
        }
    }
}

// The whole chart; the result is its length.
pub fn write_chart(text: &[u8], r: &Reading, room: &mut [u8]) -> usize
    requires { (length text.now ≤ longest_text) × (r.now ≡ reading_of text.now) }
    ensures { Put 0 (write (drawn_of text.now)) room.old room.new result }
{
    let a = Written {
        at: write_head(r, room),
        lines: 0,
    };
    let b = write_lines(text, Kind::Move, room, a);
    let c = write_lines(text, Kind::Hold, room, b);
    let d = write_lines(text, Kind::Latch, room, c);
    text::put_line(room, d.at, b"end=", d.lines)
}

fn write_head(r: &Reading, room: &mut [u8]) -> usize
    ensures put { Put 0 (head_of r.now) room.old room.new result }
    ensures upper_bound { result ≤ 600 }
{
    let known = &r.known;
    let a = text::put_line(room, 0, b"chart=", 1);
    let b = put_count(room, a, b"steps=", known.steps.count);
    let c = write_initial(room, b, known.initial);
    let d = put_count(room, c, b"inputs=", known.inputs.count);
    let e = put_count(room, d, b"outputs=", known.outputs.count);
    text::put_line(room, e, b"limit=", 1024)
}

fn write_initial(room: &mut [u8], at: usize, w: u32) -> usize
    requires { at ≤ 60000000 }
    ensures put { Put at (k_initial ++ (list (word_items w) ++ (line_end ∷ []))) room.old room.new result }
    ensures upper_bound { result ≤ at + 200 }
{
    let a = text::put_bytes(room, at, b"initial=");
    let b = put_list(room, a, w);
    text::put_byte(room, b, b'\n')
}

// A line with how many names have a number.
fn put_count(room: &mut [u8], at: usize, key: &[u8], n: usize) -> usize
    requires { (at ≤ 80000000) × (length key.now ≤ 20) }
    ensures put { Put at (keyed key.now (min n 32)) room.old room.new result }
    ensures upper_bound { result ≤ at + 50 }
{
    text::put_line(room, at, key, n.min(Names::ITEMS) as u64)
}

// The lines of one kind, in order of appearance.
fn write_lines(text: &[u8], kind: Kind, room: &mut [u8], from: Written) -> Written
    requires { (length text.now ≤ longest_text) × (from.at ≤ 20000000) × (from.lines ≤ 20000000) }
    ensures lines_put { LinesPut from (of_kind kind (lines_made text.now)) room.old room.new result }
    ensures at_bound { (result.at ≤ from.at + 5000000) × (result.lines ≤ from.lines + 16386) }
{
    let mut w = from;
    let mut reading = outline::settled();
    let mut t = tokens::token_at(text, 0, 1);
    loop {
        reading.take(text, t);
        w = write_made(&reading, kind, room, w);
        if t.kind == tokens::Kind::End {
            return w;
        }
        t = naming::next(text, t);
    }
}

// The line that was made, where there is one and it is of the kind.
fn write_made(r: &Reading, kind: Kind, room: &mut [u8], w: Written) -> Written
    requires { (w.at ≤ 60000000) × (w.lines ≤ 60000000) }
    ensures lines_put { LinesPut w (of_kind kind (made r.now)) room.old room.new result }
    ensures at_bound { (result.at ≤ w.at + 300) × (result.lines ≤ w.lines + 1) }
{
    match r.due.phase {
        Phase::EndDue => match kind {
            Kind::Move => w.and_to(write_move(r, room, w.at)),
            _ => w,
        },
        Phase::SemicolonDue => write_action(r, kind, room, w),
        _ => w,
    }
}

fn write_action(r: &Reading, kind: Kind, room: &mut [u8], w: Written) -> Written
    requires { (w.at ≤ 60000000) × (w.lines ≤ 60000000) }
    ensures lines_put { LinesPut w (of_kind kind (action_made r.now)) room.old room.new result }
    ensures at_bound { (result.at ≤ w.at + 300) × (result.lines ≤ w.lines + 1) }
{
    if r.part.is_hold() {
        match kind {
            Kind::Hold => w.and_to(write_hold(r, room, w.at)),
            _ => w,
        }
    } else {
        match kind {
            Kind::Latch => w.and_to(write_latch(r, room, w.at)),
            _ => w,
        }
    }
}

fn write_move(r: &Reading, room: &mut [u8], at: usize) -> usize
    requires { at ≤ 60000000 }
    ensures put { Put at (line_bytes (move' (move_made r.now))) room.old room.new result }
    ensures upper_bound { result ≤ at + 300 }
{
    let part = &r.part;
    let a = text::put_bytes(room, at, b"move=");
    let b = put_list(room, a, part.before);
    let c = text::put_byte(room, b, b'>');
    let d = put_list(room, c, part.listed);
    let e = text::put_byte(room, d, b':');
    let f = put_condition(room, e, &part.condition);
    text::put_byte(room, f, b'\n')
}

fn write_hold(r: &Reading, room: &mut [u8], at: usize) -> usize
    requires { at ≤ 60000000 }
    ensures put { Put at (line_bytes (hold' (hold_made r.now))) room.old room.new result }
    ensures upper_bound { result ≤ at + 300 }
{
    let part = &r.part;
    let a = put_number(room, at, b"hold=", part.step);
    let b = put_number(room, a, b":", part.output);
    text::put_bytes(room, b, b":1\n")
}

fn write_latch(r: &Reading, room: &mut [u8], at: usize) -> usize
    requires { at ≤ 60000000 }
    ensures put { Put at (line_bytes (latch' (latch_made r.now))) room.old room.new result }
    ensures upper_bound { result ≤ at + 300 }
{
    let part = &r.part;
    let a = put_number(room, at, b"latch=", part.step);
    let b = put_number(room, a, b":u:", part.output);
    if switches_on(part) {
        text::put_bytes(room, b, b":1\n")
    } else {
        text::put_bytes(room, b, b":0\n")
    }
}

// S switches an output on, R off.
fn switches_on(part: &Part) -> bool
    ensures { result ≡ is_s part.now.qualifier }
{
    matches!(part.qualifier, Some(Qualifier::S))
}

// A number, and the bytes before it.
fn put_number(room: &mut [u8], at: usize, key: &[u8], v: u32) -> usize
    requires { (at ≤ 70000000) × (length key.now ≤ 10) }
    ensures put { Put at (key.now ++ decimal v) room.old room.new result }
    ensures upper_bound { result ≤ at + 20 }
{
    let a = text::put_bytes(room, at, key);
    text::put_decimal(room, a, u64::from(v))
}

// The bytes of a condition.
fn put_condition(room: &mut [u8], at: usize, c: &Condition) -> usize
    requires { at ≤ 90000000 }
    ensures put { Put at (take c.now.size c.now.bytes) room.old room.new result }
    ensures upper_bound { result ≤ at + 64 }
{
    let last = c.size.min(64);
    text::put_bytes(room, at, &c.bytes[..last])
}

// The items of a word in rising order, joined by commas.
fn put_list(room: &mut [u8], from: usize, w: u32) -> usize
    requires { from ≤ 90000000 }
    ensures { ListPut from w (list (word_items w)) room.old room.new result }
{
    let mut at = from;
    for j in 0..32 {
        at = put_item(room, from, at, w, j);
    }
    at
}

// Item j of a word, where it has that item, in a list that began at a place; a comma stands before all but the first.
fn put_item(room: &mut [u8], from: usize, at: usize, w: u32, j: u32) -> usize
    requires { (at ≤ 95000000) × (j < 32) }
    ensures { ItemPut from at w j room.old room.new result }
{
    if !text::has_item(w, j) {
        return at;
    }
    if at == from {
        return text::put_decimal(room, at, u64::from(j));
    }
    let e = text::put_byte(room, at, b',');
    text::put_decimal(room, e, u64::from(j))
}
