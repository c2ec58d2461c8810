// One line of chart text: its shape, the rules of 01 for it against the chart so far, and its row in the table.
#![tactic(auto)]

mod answer;
mod body;
mod heads;
mod list;
mod shapes;

ghost use Rattle.std.specs.Prelude.{◌≡◌, length};
ghost use Rattle.line.specs.Rules.{blank};
ghost use Rattle.line.specs.Shape.{shape};
ghost use Rattle.line.specs.Steps.{known, Judged};

use cond::Fault;

// What is known of the chart so far: the head's numbers (the initial steps as a word), how many lines there are of each kind, the kind of the last line, and
// the outputs that hold lines name, as a word.
#[derive(Clone, Copy)]
pub struct Known {
    pub version: u32,
    pub steps: u32,
    pub initial: u32,
    pub inputs: u32,
    pub outputs: u32,
    pub limit: u32,
    pub moves: u32,
    pub holds: u32,
    pub latches: u32,
    pub last: Option<Kind>,
    pub held: u32,
}

impl Known {
    // Before the first line.
    pub fn nothing() -> Self
        ensures { result ≡ known None blank }
    {
        Known {
            version: 0,
            steps: 0,
            initial: 0,
            inputs: 0,
            outputs: 0,
            limit: 0,
            moves: 0,
            holds: 0,
            latches: 0,
            last: None,
            held: 0,
        }
    }
}

// Where the head of the chart's table has them.
impl Known {
    pub const STEPS: usize = 1;

    pub const INITIAL: usize = 2;

    pub const INPUTS: usize = 3;

    pub const OUTPUTS: usize = 4;

    pub const LIMIT: usize = 5;

    pub const MOVES: usize = 7;

    pub const HOLDS: usize = 8;

    pub const LATCHES: usize = 9;
    // So many words are the head of the chart's table: two of them are 0.
    pub const HEAD: usize = 11;
}

// Where the rows of a chart stand in its table: after the room for its head there is room for 64 rows of each kind. A move is three words: its steps before, its
// steps after, and where its condition lies. A hold and a latch are one.
#[derive(Clone, Copy)]
pub struct Table {}

impl Table {
    // Room for the head.
    pub const HEAD: usize = 16;

    pub const LINES: usize = Head::LINES as usize;

    pub const MOVES: usize = Table::HEAD;

    pub const HOLDS: usize = Table::MOVES + 3 * Table::LINES;

    pub const LATCHES: usize = Table::HOLDS + Table::LINES;

    pub const WORDS: usize = Table::LATCHES + Table::LINES;
}

// The kinds of lines, in the order of the text, by their places in it. 7 is for `counters`, the last line of the head, and 11 for `count`, after `latch`: no line
// of version 1 is there.
#[derive(Clone, Copy, PartialEq, Eq, PartialOrd, Ord)]
pub enum Kind {
    Version = 1,
    Steps = 2,
    Initial = 3,
    Inputs = 4,
    Outputs = 5,
    Limit = 6,
    Move = 8,
    Hold = 9,
    Latch = 10,
    End = 12,
    // Bytes of no kind: such a line is refused, and nothing follows it.
    Unknown = 13,
}

// The bounds of 01.
#[derive(Clone, Copy)]
pub struct Head {}

impl Head {
    // "N 1 to 30"
    pub const STEPS: u32 = 30;
    // "M and K 0 to 32"
    pub const ITEMS: u32 = 32;
    // "up to 64" lines of a kind
    pub const LINES: u32 = 64;
    // "L 1 to 1,024"
    pub const LIMIT: u32 = 1_024;
    // "text at most 16,384 bytes"
    pub const TEXT: usize = 16_384;
}

// A line's row in the table: three words for a move, one for a hold or a latch, none for the others.
#[derive(Clone, Copy)]
pub enum Row {
    Move(u32, u32, u32),
    Hold(u32),
    Latch(u32),
    Nothing,
}

// What is known of a list: one more than its last number, whether it rises, whether an item is not declared, and its word.
#[derive(Clone, Copy)]
pub struct Tally {
    pub low: u32,
    pub rising: bool,
    pub undeclared: bool,
    pub word: u32,
}

// One line, without its byte 10, that stands at a place of its text: its row, or its fault. What is known of the chart so far goes on to the chart with
// this line, unless it has a fault.
pub fn judge(w: &[u8], at: usize, known: &mut Known) -> Result<Row, Fault>
    ensures { Judged at (length w.now) (shape w.now) known.old known.new result }
{
    let moves = b"move=";
    if text::begins(w, moves) {
        return known.move_line(w, moves.len(), at);
    }
    let holds = b"hold=";
    if text::begins(w, holds) {
        return known.hold_line(w, holds.len(), at);
    }
    let latches = b"latch=";
    if text::begins(w, latches) {
        return known.latch_line(w, latches.len());
    }
    let end = b"end=";
    if text::begins(w, end) {
        return known.end_line(w, end.len());
    }
    known.head_line(w)
}
