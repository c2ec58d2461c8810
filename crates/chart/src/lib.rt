// Chart text: which texts are charts, what they say, and where their conditions lie. Every call takes every byte string and owes nothing to its callers.
#![tactic(auto)]

mod pass;

ghost use Rattle.std.specs.Prelude.{◌≡◌, ◌+◌, ◌/◌, ◌%◌, length, unwrap_or};
ghost use Rattle.chart.specs.Reading.{read_chart, shown, verdict, at_start, looked_up};
ghost use Rattle.chart.specs.Rows.{rows_of, part_of};
ghost use Rattle.chart.specs.Table.{Tabled, TableSays};

use cond::Fault;
use line::{Head, Known, Table};

// The answer to a text as numbers: 0, or its number and the line of its fault. `verdict` (specs/Reading.antt) and its theorems speak of these, and so does C.
#[derive(Clone, Copy)]
pub struct Verdict {
    pub number: u32,
    pub line: u32,
}

// Why a text is no chart. 01, Answer numbers: "Answer 1 comes first; then the first faulty line, lowest number within it."
#[derive(Clone, Copy)]
pub enum Refusal {
    // 1 "text over 16,384 bytes", "line 0"
    TooLong,
    // The number of a line, and its fault.
    Line(u32, Fault),
}

impl Verdict {
    // The answer to a text that is a chart.
    pub fn accepted() -> Self
        ensures { result ≡ record { number = 0; line = 0 } }
    {
        Verdict { number: 0, line: 0 }
    }

    // The answer to a text that is refused: its number, and the line of its fault.
    pub fn refusal(number: u32, line: u32) -> Self
        ensures { result ≡ record { number = number; line = line } }
    {
        Verdict { number, line }
    }
}

impl From<Result<(), Refusal>> for Verdict {
    ghost from_gives = { λ answer r. r ≡ shown answer };

    fn from(answer: Result<(), Refusal>) -> Self {
        match answer {
            Ok(()) => Verdict::accepted(),
            Err(Refusal::TooLong) => Verdict::refusal(1, 0),
            Err(Refusal::Line(line, fault)) => Verdict::refusal(fault.number(), line),
        }
    }
}

// Where a part of a text lies.
#[derive(Clone, Copy)]
pub struct Part {
    pub start: u32,
    pub length: u32,
}

impl Part {
    // The part that the word of a place in the table says.
    fn at(place: u32) -> Self
        ensures { result ≡ record { start = place / 128; length = place % 128 } }
    {
        Part {
            start: place / 128,
            length: place % 128,
        }
    }
}

// Whether a text is a chart.
pub fn check(text: &[u8]) -> Result<(), Refusal>
    ensures { shown result ≡ verdict text.now }
{
    let mut table = [0u32; Table::WORDS];
    read(text, &mut table)
}

// 01: "returns that very part of the caller's text holding its condition. For a refused text, number 0 or one too high it returns the empty part at the
// text's start."
pub fn lookup(text: &[u8], k: u32) -> &[u8]
    ensures part { result.now ≡ (looked_up text.now k).part }
    ensures address { (result.ref_ptr.0 ≡ text.entry.ref_ptr.0) × (result.ref_ptr.1 ≡ text.entry.ref_ptr.1 + length (looked_up text.now k).before) }
{
    let part = locate(text, k);
    let from = part.start as usize;
    let to = from + part.length as usize;
    &text[from..to]
}

// Where the part that `lookup` yields lies in the text, for callers to whom no slice can be returned.
pub fn locate(text: &[u8], k: u32) -> Part
    ensures { (result.start ≡ length (looked_up text.now k).before) × (result.length ≡ length (looked_up text.now k).part) }
{
    condition_of(text, k).unwrap_or(Part {
        start: 0,
        length: 0,
    })
}

// Where the condition of that move lies, if the text is a chart that has such a move.
fn condition_of(text: &[u8], k: u32) -> Option<Part>
    ensures { unwrap_or result (part_of at_start) ≡ part_of (looked_up text.now k) }
{
    let mut table = [0u32; Table::WORDS];
    let Ok(()) = read(text, &mut table) else {
        return None;
    };
    if k == 0 || table[Known::MOVES] < k {
        return None;
    }
    let i = Table::MOVES + 3 * (k as usize);
    Some(Part::at(table[i - 1]))
}

// The answer to a text, and its chart as words for the engine: of an accepted text the head, and the rows of all lines that pass. What stands in the table
// beside these is left as it was.
pub fn read(text: &[u8], table: &mut [u32; Table::WORDS]) -> Result<(), Refusal>
    ensures value { shown result ≡ verdict text.now }
    ensures tabled { Tabled (read_chart text.now) (rows_of text.now) table.old table.new }
    ensures table_says { TableSays text.now table.new }
{
    if Head::TEXT < text.len() {
        return Err(Refusal::TooLong);
    }
    pass::fill(text, table)
}
