// The evolution of a situation: how it ends, with the trace of its firings, and the outputs that a situation holds. The chart comes as one table of words with the
// text that its conditions lie in; the view is lent and moved in place. The calls take every table and text, and owe nothing to their callers.
#![tactic(auto)]

mod firing;
mod latches;
mod rows;
mod search;

ghost use Rattle.std.specs.Prelude.{◌≡◌};
ghost use Rattle.evolve.specs.Evolution.{traced, held_outputs, end_count};
ghost use Rattle.evolve.specs.Search.{evolve, left_off};
ghost use Rattle.evolve.specs.Table.{hold_by, holds_in, net};
ghost use Rattle.evolve.specs.Parts.{held_also, Busy, Kin};

use cond::View;
use line::{Known, Table};

// A chart as it is lent: its table, and the text that its conditions lie in.
#[derive(Clone, Copy)]
pub struct Chart<'a> {
    pub table: &'a [u32; Table::WORDS],
    pub text: &'a [u8],
}

// What one look at all moves finds, where one is cleared: the steps that all cleared moves take away and add.
#[derive(Clone, Copy)]
pub struct Fired {
    pub removed: u32,
    pub added: u32,
}

// The outputs that the latches of one firing switch on and off.
#[derive(Clone, Copy)]
pub struct Masks {
    pub on: u32,
    pub off: u32,
}

// How an evolution ends: stable after so many firings, a repeat that shows at so many, or neither within the limit.
#[derive(Clone, Copy)]
pub enum End {
    Rest(u32),
    Loops(u32),
    Cut(u32),
}

impl End {
    // The firings that an end reports.
    fn count(self) -> u32
        ensures { result ≡ end_count self }
    {
        match self {
            End::Rest(k) => k,
            End::Loops(j) => j,
            End::Cut(l) => l,
        }
    }
}

impl Chart<'_> {
    // The evolution that begins in the view: how it ends, with the situations of its firings in the trace from a place on. The view is left in the stable
    // state, or else as it was.
    pub fn run(&self, view: &mut View, trace: &mut [u32], place: u32) -> End
        ensures value { result ≡ evolve (net self.now) view.entry.now }
        ensures view_after { view.exit.now ≡ left_off (net self.now) view.entry.now result }
        ensures trace_after { trace.new ≡ traced (net self.now) view.entry.now (end_count result) place trace.old }
    {
        let first = view.moment;
        let old = view.old;
        let end = self.ends(view);
        let last = view.moment;
        let late = view.old;
        firing::put(view, first, old);
        self.retrace(view, end.count(), trace, place);
        firing::put(view, last, late);
        end
    }

    // So many firings again, as far as the trace has room for their situations: the search may have fired further than the count it reports.
    fn retrace(&self, view: &mut View, count: u32, trace: &mut [u32], place: u32)
        requires { Busy (net self.now) view.now count }
        ensures trace_after { trace.new ≡ traced (net self.now) view.entry.now count place trace.old }
        ensures kin { Kin view.exit.now view.entry.now }
    {
        let from = place as usize;
        let n = (count as usize).min(trace.len().saturating_sub(from));
        for i in 0..n {
            self.fire(view, 1);
            trace[from + i] = view.moment.situation;
        }
    }

    // The outputs that hold lines show in the view (01, Evolution 8).
    pub fn held(&self, view: &View) -> u32
        ensures { result ≡ held_outputs (holds_in self.now.text.now self.now.table.now) view.now }
    {
        self.walk(Known::HOLDS, 0, |on, i| {
            self.held_also(on, self.hold(i), view)
        })
    }

    // One more hold line is looked at. Its condition is evaluated only where its step is active.
    fn held_also(&self, on: u32, row: u32, view: &View) -> u32
        ensures { result ≡ held_also view.now (hold_by self.now.text.now row) on }
    {
        if text::has_item(view.moment.situation, row % 32) {
            if self.condition_holds(row / 1024, view) {
                return text::bit_at(row / 32 % 32) | on;
            }
        }
        on
    }
}
