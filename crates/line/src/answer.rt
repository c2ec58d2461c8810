// Faults of a line, of which the lowest is its answer, and what is known of a chart with a line more.
ghost use Rattle.std.specs.Prelude.{◌≡◌, ◌+◌, ◌≤◌, length, drop};
ghost use Rattle.cond.specs.Faults.{answer};
ghost use Rattle.cond.specs.Judging.{judged};
ghost use Rattle.line.specs.Kinds.{follows};
ghost use Rattle.line.specs.Steps.{declared_in, full, Entered};

use crate::{Head, Kind, Known};
use cond::{Declared, Fault, lower};

// 3 "65th line of a kind", of which there are so many.
pub(crate) fn full(lines: u32) -> Result<(), Fault>
    ensures { answer result ≡ full lines }
{
    Fault::Bound.given(Head::LINES <= lines)
}

// 01: "in this fixed order".
fn follows(last: Option<Kind>, kind: Kind) -> bool
    ensures { result ≡ follows last (Some kind) }
{
    let before = last.map_or(0, |k| k as u32);
    let place = kind as u32;
    if kind < Kind::Move {
        return place == before + 1;
    }
    (Kind::Limit as u32 <= before)
        & (before <= place)
        & (kind <= Kind::End)
        & (before < Kind::End as u32)
}

impl Known {
    // The fault of a condition that runs to its line's end.
    pub(crate) fn condition(&self, w: &[u8], from: usize, hold: bool) -> Result<(), Fault>
        requires { from ≤ length w.now }
        ensures { answer result ≡ judged (declared_in self.now) hold (drop from w.now) }
    {
        let declared = Declared {
            steps: self.steps,
            inputs: self.inputs,
        };
        cond::judge(&w[from..], declared, hold)
    }

    // 01: "T the total of move, hold and latch lines".
    pub(crate) fn total(&self) -> u64
        ensures { result ≡ self.now.moves + self.now.holds + self.now.latches }
    {
        u64::from(self.moves) + u64::from(self.holds) + u64::from(self.latches)
    }

    // A line of a kind, of which the other faults are found: its answer is the lowest, that of its place among them. Where there is none it is the last line.
    pub(crate) fn enter(&mut self, kind: Kind, found: Result<(), Fault>) -> Result<(), Fault>
        ensures { Entered kind (answer found) self.old self.new result }
    {
        let place = Fault::Shape.given(!follows(self.last, kind));
        lower(place, found)?;
        self.last = Some(kind);
        Ok(())
    }
}
