// Lists of steps: 01, "A list is numbers joined by commas, perhaps empty." One look at a list gives all that its rules ask.
ghost use Rattle.std.specs.Prelude.{◌≡◌, ◌+◌, ◌<◌, length};
ghost use Rattle.line.specs.Shape.{items, list_at};
ghost use Rattle.line.specs.Steps.{one_more, no_items, items_of};

use crate::Tally;

pub(crate) fn no_items() -> Tally
    ensures { result ≡ no_items }
{
    Tally {
        low: 0,
        rising: true,
        undeclared: false,
        word: 0,
    }
}

// One item more, of which n are declared.
fn add_item(t: Tally, v: u32, n: u32) -> Tally
    requires { v < 10000000 }
    ensures { result ≡ one_more n t v }
{
    Tally {
        low: v + 1,
        rising: t.rising & (t.low <= v),
        undeclared: t.undeclared | (n <= v),
        word: t.word | text::bit_at(v),
    }
}

// Numbers joined by commas.
fn items_at(w: &[u8], from: usize, n: u32) -> Option<(Tally, usize)>
    ensures { result ≡ items_of n no_items (items (length w.now + 1) w.now from) }
{
    let mut at = from;
    let mut t = no_items();
    loop {
        let (v, e) = text::number_at(w, at)?;
        t = add_item(t, v, n);
        if text::byte_at(w, e) != b',' {
            return Some((t, e));
        }
        at = e + 1;
    }
}

// A list at a place, perhaps empty.
pub(crate) fn list_at(w: &[u8], from: usize, n: u32) -> Option<(Tally, usize)>
    ensures { result ≡ items_of n no_items (list_at w.now from) }
{
    if text::is_digit(text::byte_at(w, from)) {
        items_at(w, from, n)
    } else {
        Some((no_items(), from))
    }
}
