// The lower layers' calls as C sees them, for the stack and instruction meter of bench/meter. Nothing else uses this crate.
#![tactic(auto)]

ghost use Rattle.std.specs.Prelude.{◌≡◌};
ghost use Rattle.cond.specs.Judging.{judged, held_by};
ghost use Rattle.chart.specs.Reading.{verdict};
ghost use Rattle.meter.specs.Words.{view_of};

use chart::Verdict;
use cond::{Declared, Moment, View};

// How many words C lends for a view.
const WORDS: usize = 37;

#[unsafe(no_mangle)]
pub extern "C" fn meter_holds(text: &[u8], view: &[u32; WORDS]) -> bool
    ensures { result ≡ held_by (view_of view.now) text.now }
{
    let mut seen = View {
        moment: Moment {
            situation: view[0],
            previous: view[1],
            latched: view[36],
        },
        inputs: view[2],
        old: view[3],
        ages: [0; View::STEPS],
    };
    seen.ages.copy_from_slice(&view[4..34]);
    cond::holds(text, &seen)
}

#[unsafe(no_mangle)]
pub extern "C" fn meter_judge(text: &[u8], steps: u32, inputs: u32, hold: bool) -> u32
    ensures { result ≡ judged (record { steps = steps; inputs = inputs }) hold text.now }
{
    match cond::judge(text, Declared { steps, inputs }, hold) {
        Ok(()) => 0,
        Err(fault) => fault.number(),
    }
}

#[unsafe(no_mangle)]
pub extern "C" fn meter_check(text: &[u8]) -> u32
    ensures { result ≡ (verdict text.now).number }
{
    Verdict::from(chart::check(text)).number
}
