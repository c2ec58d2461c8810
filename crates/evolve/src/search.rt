// How an evolution ends, with no memory of the states passed: firings up to one more than the limit, then the period in which the state after them comes
// back, then the first state that has that period.
ghost use Rattle.std.specs.Prelude.{false, ◌≡◌, suc, ◌≤◌, Option};
ghost use Rattle.evolve.specs.Evolution.{stable, moment_after, next_view};
ghost use Rattle.evolve.specs.Search.{evolve, left_off};
ghost use Rattle.evolve.specs.Table.{net};
ghost use Rattle.evolve.specs.Parts.{put, Kin, Busy, Compares, Period, Entered};

use crate::{Chart, End, firing};
use cond::{Moment, View};

impl Chart<'_> {
    // After how many firings, fewer than the limit, the view's moment is back; none also where a stable state comes first.
    fn period(&self, view: &mut View) -> Option<u32>
        ensures period { Period (net self.now) view.entry.now result }
        ensures kin { Kin view.exit.now view.entry.now }
    {
        let last = view.moment;
        for d in 1..self.limit() {
            if self.fire(view, 1) == 0 {
                return None;
            }
            if same(last, view.moment) {
                return Some(d);
            }
        }
        None
    }

    // One firing from another moment than the view's, which is left as it was. Yields the moment that it leads to.
    fn fire_from(&self, view: &mut View, m: Moment) -> Moment
        requires { stable (net self.now) (put view.now m view.now.inputs) ≡ false }
        ensures value { result ≡ moment_after (net self.now) (put view.entry.now m view.entry.now.inputs) }
        ensures view_unchanged { view.exit.now ≡ view.entry.now }
    {
        let inputs = view.inputs;
        let old = view.old;
        let here = view.moment;
        firing::put(view, m, inputs);
        self.fire(view, 1);
        let led = view.moment;
        firing::put(view, here, old);
        led
    }

    // How many firings after s1 the period d begins, as far as that shows within the limit. The view comes as s0.
    fn entry(&self, view: &mut View, d: u32) -> u32
        requires { (d ≤ (net self.now).limit) × Busy (net self.now) view.now (suc (net self.now).limit) }
        ensures entered { Entered (net self.now) (next_view (net self.now) view.entry.now) d result }
        ensures kin { Kin view.exit.now view.entry.now }
    {
        let most = self.limit() - d;
        self.fire(view, FIRST);
        let mut behind = view.moment;
        self.fire(view, d as usize);
        for u in 0..most {
            if same(behind, view.moment) {
                return u;
            }
            self.fire(view, 1);
            behind = self.fire_from(view, behind);
        }
        most
    }

    // How the evolution that begins in the view ends. The view is left in the stable state, or else as it was.
    pub(crate) fn ends(&self, view: &mut View) -> End
        ensures value { result ≡ evolve (net self.now) view.entry.now }
        ensures view_after { view.exit.now ≡ left_off (net self.now) view.entry.now result }
    {
        let first = view.moment;
        let old = view.old;
        let most = self.limit();
        let k = self.fire(view, most as usize + 1);
        if k <= most as usize {
            return End::Rest(k as u32);
        }
        let found = self.period(view);
        firing::put(view, first, old);
        let Some(d) = found else {
            return End::Cut(most);
        };
        let u = self.entry(view, d);
        firing::put(view, first, old);
        let j = u + d;
        if j < most {
            End::Loops(j + 1)
        } else {
            End::Cut(most)
        }
    }
}

// Whether two moments are equal in what is compared: the latched outputs are left out, so that this is no `==`.
fn same(a: Moment, b: Moment) -> bool
    ensures { Compares a b result }
{
    (a.situation == b.situation) & (a.previous == b.previous)
}

// The first state that is compared: s0 never is (01, Evolution).
const FIRST: usize = 1;
