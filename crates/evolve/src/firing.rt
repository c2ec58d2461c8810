// Firings: which moves are cleared, and the moment that they lead to.
ghost use Rattle.std.specs.Prelude.{◌≡◌, Option};
ghost use Rattle.evolve.specs.Evolution.{cleared};
ghost use Rattle.evolve.specs.Table.{move_in, moves_in, latches_in, net};
ghost use Rattle.evolve.specs.Parts.{fired_of, fired_also, led, put, Fires};

use crate::{Chart, Fired};
use cond::{Moment, View};
use line::Known;

impl Chart<'_> {
    // Whether a move is cleared (01, Evolution 1). Its condition is evaluated only where its steps before are active.
    fn cleared(&self, i: u32, view: &View) -> bool
        ensures { result ≡ cleared view.now (move_in self.now.text.now self.now.table.now i) }
    {
        let before = self.before(i);
        (before & view.moment.situation) == before && self.condition_holds(self.condition(i), view)
    }

    // One more move is looked at.
    fn join(&self, found: Option<Fired>, i: u32, view: &View) -> Option<Fired>
        ensures { result ≡ fired_also view.now (move_in self.now.text.now self.now.table.now i) found }
    {
        if !self.cleared(i, view) {
            return found;
        }
        let before = self.before(i);
        let after = self.after(i);
        Some(match found {
            Some(f) => Fired {
                removed: before | f.removed,
                added: after | f.added,
            },
            None => Fired {
                removed: before,
                added: after,
            },
        })
    }

    // All moves are looked at, the last first.
    fn look(&self, view: &View) -> Option<Fired>
        ensures { result ≡ fired_of (moves_in self.now.text.now self.now.table.now) view.now }
    {
        self.walk(Known::MOVES, None, |found, i| { self.join(found, i, view) })
    }

    // The moment that a firing leads to (01, Evolution 3 and 6).
    fn led(&self, f: Fired, m: Moment) -> Moment
        ensures { result ≡ led (latches_in self.now.table.now) f m }
    {
        let gone = m.situation & f.removed;
        let situation = (m.situation ^ gone) | f.added;
        Moment {
            situation,
            previous: m.situation,
            latched: self.latch(situation, m.situation, m.latched),
        }
    }

    // The view after a firing: input edges live in s0 only (01, Evolution 4).
    fn step_on(&self, view: &mut View, f: Fired)
        ensures { view.exit.now ≡ put view.entry.now (led (latches_in self.now.table.now) f view.entry.now.moment) view.entry.now.inputs }
    {
        let inputs = view.inputs;
        put(view, self.led(f, view.moment), inputs);
    }

    // Fires as long as a move is cleared, at most so many times. Yields how often.
    pub(crate) fn fire(&self, view: &mut View, most: usize) -> usize
        ensures { Fires (net self.now) view.entry.now most result view.exit.now }
    {
        for k in 0..most {
            let Some(f) = self.look(view) else {
                return k;
            };
            self.step_on(view, f);
        }
        most
    }
}

// What changes from firing to firing is put into the view.
pub(crate) fn put(view: &mut View, m: Moment, old: u32)
    ensures { view.exit.now ≡ put view.entry.now m old }
{
    view.moment = m;
    view.old = old;
}
