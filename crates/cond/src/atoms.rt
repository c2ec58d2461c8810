// Atoms: 01's `1`, `0`, `xS`, `iI`, `uxS`, `dxS`, `uiI`, `diI` and `T/xS`, each read and held against the view at once.
ghost use Rattle.std.specs.Prelude.{◌≡◌, ◌≤◌, get_or, IfSome};
ghost use Rattle.text.specs.Bytes.{byte_at};
ghost use Rattle.text.specs.Numbers.{number};
ghost use Rattle.cond.specs.Bounds.{longest, most_digits};
ghost use Rattle.cond.specs.Meaning.{lasted};
ghost use Rattle.cond.specs.Reading.{edge_at, delay_at, timed, atom_at};
ghost use Rattle.cond.specs.Packed.{noted, pack, item_s, changed_items};

use crate::Condition;
use crate::packed::Part;
use crate::sight::Sight;

impl<'a> Sight<'a> {
    // The atom at a place.
    pub(crate) fn atom_at(&self, at: usize) -> Part
        ensures { result.0 ≡ pack (noted self.now.view.now self.now.declared (atom_at (byte_at self.now.bytes) at)) }
    {
        match self.byte(at) {
            b'x' => self.item(
                at + 1,
                self.view.moment.situation,
                self.declared.steps,
                false,
            ),
            b'i' => self.item(at + 1, self.view.inputs, self.declared.inputs, false),
            b'u' => self.edge_at(at + 1, true),
            b'd' => self.edge_at(at + 1, false),
            _ => self.timed_at(at),
        }
    }

    // After `u` or `d`: a rising or falling edge of a step or of an input.
    fn edge_at(&self, at: usize, rising: bool) -> Part
        ensures { result.0 ≡ pack (noted self.now.view.now self.now.declared (edge_at rising (byte_at self.now.bytes) at)) }
    {
        match self.byte(at) {
            b'x' => {
                let moment = self.view.moment;
                let steps = changed(moment.situation, moment.previous, rising);
                self.item(at + 1, steps, self.declared.steps, true)
            }
            b'i' => {
                let inputs = changed(self.view.inputs, self.view.old, rising);
                self.item(at + 1, inputs, self.declared.inputs, true)
            }
            _ => Part::NONE,
        }
    }

    // An atom that begins with a number: an on-delay where `/` follows, else `0` or `1`.
    fn timed_at(&self, at: usize) -> Part
        ensures { result.0 ≡ pack (noted self.now.view.now self.now.declared (timed (byte_at self.now.bytes) (number most_digits (byte_at self.now.bytes) at))) }
    {
        match self.number_at(at) {
            Some((t, end)) => {
                if self.byte(end) == b'/' {
                    return self.delay_at(end + 1, t);
                }
                if t < 2 {
                    Part::new(end, t == 1, false, false)
                } else {
                    Part::NONE
                }
            }
            None => Part::NONE,
        }
    }

    // The `xS` of an on-delay of t ms.
    fn delay_at(&self, at: usize, t: u32) -> Part
        ensures { result.0 ≡ pack (noted self.now.view.now self.now.declared (delay_at (byte_at self.now.bytes) at t)) }
    {
        if t < Condition::SHORTEST_DELAY {
            return Part::NONE;
        }
        if Condition::DELAY < t {
            return Part::NONE;
        }
        if self.byte(at) != b'x' {
            return Part::NONE;
        }
        match self.number_at(at + 1) {
            Some((k, end)) => { Part::new(end, self.lasted(k, t), self.declared.steps <= k, false) }
            None => Part::NONE,
        }
    }

    // Whether step k is active and has been for t ms.
    fn lasted(&self, k: u32, t: u32) -> bool
        ensures { result ≡ lasted self.now.view.now k t }
    {
        text::has_item(self.view.moment.situation, k) && t <= self.age(k as usize)
    }

    // A step's age: a chart has thirty steps, and any other number has none.
    fn age(&self, k: usize) -> u32
        ensures { result ≡ get_or self.now.view.now.ages k 0 }
    {
        self.view.ages.get(k).copied().unwrap_or(0)
    }

    // The number at a place, and the place after it, which lies within the copy.
    fn number_at(&self, at: usize) -> Option<(u32, usize)>
        ensures value { result ≡ number most_digits (byte_at self.now.bytes) at }
        ensures within { IfSome result (λ x. x.1 ≤ longest) }
    {
        text::number_at(&self.bytes, at)
    }

    // The item whose number stands at a place: w has the items for which its atom holds, count is how many are declared.
    fn item(&self, at: usize, w: u32, count: u32, edge: bool) -> Part
        ensures { result.0 ≡ pack (item_s w count edge (number most_digits (byte_at self.now.bytes) at)) }
    {
        match self.number_at(at) {
            Some((k, end)) => Part::new(end, text::has_item(w, k), count <= k, edge),
            None => Part::NONE,
        }
    }
}

// The items that came, or those that went.
fn changed(new: u32, old: u32, came: bool) -> u32
    ensures { result ≡ changed_items came new old }
{
    if came {
        new ^ (new & old)
    } else {
        old ^ (old & new)
    }
}
