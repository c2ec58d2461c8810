// The latches of one firing (01, Evolution 6), and the outputs that they name.
ghost use Rattle.std.specs.Prelude.{◌≡◌};
ghost use Rattle.line.specs.Words.{latch_of_word};
ghost use Rattle.evolve.specs.Evolution.{latch_acts, latch, latchable};
ghost use Rattle.evolve.specs.Table.{latches_in};
ghost use Rattle.evolve.specs.Parts.{switched_also, masks_of, named_also};

use crate::{Chart, Masks};
use line::Known;

impl Chart<'_> {
    // All latch lines are looked at, the last first.
    fn masks(&self, to: u32, from: u32) -> Masks
        ensures { result ≡ masks_of (latches_in self.now.table.now) to from }
    {
        self.walk(
            Known::LATCHES,
            Masks { on: 0, off: 0 },
            |m, i| mask(m, self.latch_row(i), to, from),
        )
    }

    // The latched outputs after the firing from one situation to another: off wins over on.
    pub(crate) fn latch(&self, to: u32, from: u32, lit: u32) -> u32
        ensures { result ≡ latch (latches_in self.now.table.now) to from lit }
    {
        let m = self.masks(to, from);
        let on = lit | m.on;
        let gone = on & m.off;
        on ^ gone
    }

    // The outputs that latch lines name.
    pub fn latchable(&self) -> u32
        ensures { result ≡ latchable (latches_in self.now.table.now) }
    {
        self.walk(Known::LATCHES, 0, |all, i| {
            named_also(all, self.latch_row(i))
        })
    }
}

// Whether the step of a latch line became active, or idle, at the firing from one situation to another.
fn acts(row: u32, to: u32, from: u32) -> bool
    ensures { result ≡ latch_acts to from (latch_of_word row) }
{
    if !text::has_item(to ^ from, row % 32) {
        return false;
    }
    text::has_item(to, row % 32) == (row / 1024 % 2 == 0)
}

// One more latch line is looked at.
fn mask(m: Masks, row: u32, to: u32, from: u32) -> Masks
    ensures { result ≡ switched_also to from (latch_of_word row) m }
{
    if !acts(row, to, from) {
        return m;
    }
    let output = text::bit_at(row / 32 % 32);
    if row / 2048 == 1 {
        Masks {
            on: output | m.on,
            off: m.off,
        }
    } else {
        Masks {
            on: m.on,
            off: output | m.off,
        }
    }
}

fn named_also(all: u32, row: u32) -> u32
    ensures { result ≡ named_also (latch_of_word row) all }
{
    text::bit_at(row / 32 % 32) | all
}
