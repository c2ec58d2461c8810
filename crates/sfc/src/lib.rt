// SFC text from other shops, brought in as chart text. 02, P4.
#![tactic(auto)]

ghost use Rattle.std.specs.Prelude.{◌≡◌, ◌≤◌, length};
ghost use Rattle.std.proofs.lemmas.List.Edits.{sets};
ghost use Rattle.line.specs.Rules.{longest_text};
ghost use Rattle.outline.specs.Reading.{reading_of};
ghost use Rattle.naming.specs.Names.{list_of};
ghost use Rattle.sfc.specs.Import.{answer, shown, imported, conclusion, returned, result_of, map_in, map_by, names_by, place_in, Judges};

use line::Head;
use naming::Names;
use outline::{Fault, Reading};

// The answer to an import as numbers: 0 and the length of the result, or the number of a refusal and its line. `imported` (specs/Import.antt) and its theorems
// speak of these, and so does C.
#[derive(Clone, Copy)]
pub struct Imported {
    pub number: u32,
    pub line: u32,
    pub length: usize,
}

// Why a text is not brought in, in the order of 02, P4.
#[derive(Clone, Copy)]
pub enum Refusal {
    // "29, less room lent, before all others"
    ShortRoom,
    // "18 at line 0, SFC text over 16,384 bytes"
    LongText,
    // "then the first faulty line, lowest number within it"
    Line(Fault),
    // "last, at line 0, 16 for no initial step"
    NoInitialStep,
    // "18 for a result over 16,384 bytes"
    LongResult,
}

impl Imported {
    // 02, P4: "The caller lends 16,384 bytes for the result."
    pub const ROOM: usize = Head::TEXT;
    // "29, less room lent"
    pub const SHORT: u32 = 29;
    // "16 outside the subset"
    pub const OUTSIDE: u32 = 16;
    // "18 a limit of 01 passed"
    pub const LIMIT: u32 = 18;

    // The answer to a text that is brought in: the length of the result.
    fn success(length: usize) -> Self
        ensures { result ≡ answer 0 0 length }
    {
        Imported {
            number: 0,
            line: 0,
            length,
        }
    }

    // The answer to a text that is refused: its number, and the line of its fault.
    fn refusal(number: u32, line: u32) -> Self
        ensures { result ≡ answer number line 0 }
    {
        Imported {
            number,
            line,
            length: 0,
        }
    }
}

impl From<Result<usize, Refusal>> for Imported {
    ghost from_gives = { λ answer r. r ≡ shown answer };

    fn from(answer: Result<usize, Refusal>) -> Self {
        match answer {
            Ok(length) => Imported::success(length),
            Err(Refusal::ShortRoom) => Imported::refusal(Imported::SHORT, 0),
            Err(Refusal::LongText | Refusal::LongResult) => Imported::refusal(Imported::LIMIT, 0),
            Err(Refusal::Line(fault)) => Imported::refusal(fault.cause.number(), fault.line),
            Err(Refusal::NoInitialStep) => Imported::refusal(Imported::OUTSIDE, 0),
        }
    }
}

// The names of a text by their numbers.
#[derive(Clone, Copy)]
pub struct NameTables {
    pub steps: Names,
    pub inputs: Names,
    pub outputs: Names,
}

impl NameTables {
    pub const STEPS: u32 = 0;

    pub const INPUTS: u32 = 1;

    pub const OUTPUTS: u32 = 2;
}

// A part of the caller's text.
#[derive(Clone, Copy)]
pub struct Place {
    pub start: usize,
    pub length: usize,
}

// What was read of a text that can be brought in, and the length of its result.
#[derive(Clone, Copy)]
pub struct Judged {
    pub reading: Reading,
    pub length: usize,
}

// SFC text as chart text in lent room: the length of the result.
pub fn import(text: &[u8], room: &mut [u8]) -> Result<usize, Refusal>
    ensures value { shown result ≡ imported text.now (length room.old) }
    ensures exactly { result ≡ returned text.now (length room.old) }
    ensures room_after { room.new ≡ sets room.old 0 (result_of text.now (length room.old)) }
{
    if room.len() < Imported::ROOM {
        return Err(Refusal::ShortRoom);
    }
    let judged = judge(text)?;
    writer::write_chart(text, &judged.reading, room);
    Ok(judged.length)
}

// The names of a text that can be brought in; a refused text has none.
pub fn names(text: &[u8]) -> NameTables
    ensures { map_by result.steps result.inputs result.outputs ≡ map_in text.now }
{
    let reading = match judge(text) {
        Ok(judged) => judged.reading,
        Err(_) => outline::nothing(),
    };
    NameTables {
        steps: reading.known.steps,
        inputs: reading.known.inputs,
        outputs: reading.known.outputs,
    }
}

// Where the name of item k of a kind lies in the text. A kind is C's number (grafcet_name), and each number has an answer: no enum, whose type would be narrower.
pub fn name(text: &[u8], kind: u32, k: u32) -> Place
    ensures { result ≡ place_in (names_by (map_in text.now) kind) k }
{
    let m = names(text);
    match kind {
        NameTables::STEPS => place_in(m.steps, k),
        NameTables::INPUTS => place_in(m.inputs, k),
        NameTables::OUTPUTS => place_in(m.outputs, k),
        _ => Place {
            start: 0,
            length: 0,
        },
    }
}

fn place_in(n: Names, k: u32) -> Place
    ensures { result ≡ place_in (list_of n) k }
{
    let i = k as usize;
    if i < naming::counted(n) {
        let t = n.words[i];
        return Place {
            start: t.place,
            length: t.size,
        };
    }
    Place {
        start: 0,
        length: 0,
    }
}

// What is read of a text, and the length of its result, whatever room is lent.
fn judge(text: &[u8]) -> Result<Judged, Refusal>
    ensures { Judges text.now result }
{
    if Head::TEXT < text.len() {
        return Err(Refusal::LongText);
    }
    let reading = outline::read(text);
    let length = concluded(text, &reading)?;
    Ok(Judged { reading, length })
}

// The length of the result of a text that is not too long, by what was read of it: that of a dry run.
fn concluded(text: &[u8], r: &Reading) -> Result<usize, Refusal>
    requires { (length text.now ≤ longest_text) × (r.now ≡ reading_of text.now) }
    ensures { result ≡ conclusion text.now }
{
    if let Some(fault) = r.fault {
        return Err(Refusal::Line(fault));
    }
    if r.known.initial == 0 {
        return Err(Refusal::NoInitialStep);
    }
    let mut none = [0u8; 1];
    let size = writer::write_chart(text, r, &mut none);
    if Head::TEXT < size {
        return Err(Refusal::LongResult);
    }
    Ok(size)
}
