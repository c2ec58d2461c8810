// The pass over a text: the reader finds each line's end, and then the line is read once, and its row stored in the table.
// The table is lent as a slice, whose length the callers tell.
ghost use Rattle.std.specs.Prelude.{◌≡◌, ◌≤◌, length};
ghost use Rattle.std.proofs.lemmas.List.Edits.{sets};
ghost use Rattle.text.specs.Lines.{split};
ghost use Rattle.text.specs.Places.{taken_at};
ghost use Rattle.line.specs.Rules.{longest_text, blank};
ghost use Rattle.line.specs.Words.{head_length, table_words};
ghost use Rattle.chart.specs.Reading.{read_from, shown, verdict_of};
ghost use Rattle.chart.specs.Rows.{end_of, rows_of_lines, Room, Stored, known_words};
ghost use Rattle.chart.specs.Table.{Tabled};

use crate::Refusal;
use cond::Fault;
use line::{Kind, Known, Row, Table};
use text::Taken;

// What is known of an accepted text's chart becomes the head of its table.
fn put_head(known: &Known, table: &mut [u32])
    requires { head_length ≤ length table.old }
    ensures { table.new ≡ sets table.old 0 (known_words known.now) }
{
    table[..Known::HEAD].copy_from_slice(&[
        known.version,
        known.steps,
        known.initial,
        known.inputs,
        known.outputs,
        known.limit,
        0,
        known.moves,
        known.holds,
        known.latches,
        0,
    ]);
}

// Stores a line's row, which is counted already, as the last of its kind.
fn store(row: Row, known: &Known, table: &mut [u32])
    requires room { Room known.now row }
    requires table_len { length table.old ≡ table_words }
    ensures { Stored known.now row table.old table.new }
{
    match row {
        Row::Move(before, after, place) => {
            let i = Table::MOVES + 3 * ((known.moves - 1) as usize);
            table[i] = before;
            table[i + 1] = after;
            table[i + 2] = place;
        }
        Row::Hold(w) => table[Table::HOLDS + (known.holds - 1) as usize] = w,
        Row::Latch(w) => table[Table::LATCHES + (known.latches - 1) as usize] = w,
        Row::Nothing => {}
    }
}

// Where the line at a place ends. 2 "no final byte 10": bytes that none ends are no line.
fn end_of_line(text: &[u8], at: usize) -> Option<usize>
    ensures { result ≡ end_of (taken_at text.now at) }
{
    match text::line_from(text, at) {
        Taken::Line(end) => Some(end),
        Taken::Open | Taken::End => None,
    }
}

// The answer to a text of at most 16,384 bytes, and its table.
pub(crate) fn fill(text: &[u8], table: &mut [u32]) -> Result<(), Refusal>
    requires short { length text.now ≤ longest_text }
    requires table_len { length table.old ≡ table_words }
    ensures value { shown result ≡ verdict_of (read_from 1 None blank (split text.now)) }
    ensures tabled { Tabled (read_from 1 None blank (split text.now)) (rows_of_lines 0 None blank (split text.now)) table.old table.new }
{
    let mut at = 0;
    let mut line_number = 1;
    let mut known = Known::nothing();
    'lines: while let Some(end) = end_of_line(text, at) {
        match line::judge(&text[at..end], at, &mut known) {
            Ok(row) => store(row, &known, table),
            Err(fault) => return Err(Refusal::Line(line_number, fault)),
        }
        at = end + 1;
        line_number += 1;
    }
    if at < text.len() || known.last != Some(Kind::End) {
        return Err(Refusal::Line(line_number, Fault::Shape));
    }
    put_head(&known, table);
    Ok(())
}
