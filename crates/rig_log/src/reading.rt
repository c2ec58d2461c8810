// One line of the input, without its byte 10.
ghost use Rattle.std.specs.Prelude.{◌≡◌};
ghost use Rattle.text.specs.Bytes.{byte_at};
ghost use Rattle.text.specs.Numbers.{word};
ghost use Rattle.rig_log.specs.Entries.{last, event_entry, entry_of};

use crate::Entry;

// `:` stands between the numbers of an `ev` line.
const COLON: u8 = b':';

pub fn read_line(line: &[u8]) -> Option<Entry>
    ensures { result ≡ entry_of line.now }
{
    if text::begins(line, b"go=") {
        let inputs = last_word(line, 3)?;
        return Some(Entry::Go(inputs));
    }
    if text::begins(line, b"ev=") {
        return event_entry(line);
    }
    None
}

// An `ev` line: two numbers, a colon between them.
fn event_entry(line: &[u8]) -> Option<Entry>
    ensures { result ≡ event_entry line.now (word (byte_at line.now) 3) }
{
    let (elapsed, end) = text::word_at(line, 3)?;
    if text::byte_at(line, end) != COLON {
        return None;
    }
    let inputs = last_word(line, end + 1)?;
    Some(Entry::Event(elapsed, inputs))
}

// The number at a place, where it goes to the line's end.
fn last_word(line: &[u8], at: usize) -> Option<u32>
    ensures { result ≡ last line.now (word (byte_at line.now) at) }
{
    let (value, end) = text::word_at(line, at)?;
    if end == line.len() { Some(value) } else { None }
}
