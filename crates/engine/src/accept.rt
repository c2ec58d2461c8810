// Which start inputs, states and events a chart accepts.
ghost use Rattle.std.specs.Prelude.{◌≡◌};
ghost use Rattle.engine.specs.State.{fits, age_accepted, ages_accepted, inputs_accepted, state_accepted, event_accepted};
ghost use Rattle.engine.specs.Parts.{plan_in};

use crate::{Occurrence, State};
use evolve::Chart;
use line::Known;

// Whether a word has bits of the first items only.
fn word_fits(items: u32, word: u32) -> bool
    ensures { result ≡ fits items word }
{
    items >= 32 || (word >> items) == 0
}

fn age_accepted(situation: u32, j: u32, age: u32) -> bool
    ensures { result ≡ age_accepted situation j age }
{
    let active = text::has_item(situation, j);
    (age <= State::AGE) & (active | (age == 0))
}

fn ages_accepted(situation: u32, ages: [u32; State::STEPS]) -> bool
    ensures { result ≡ ages_accepted situation 0 ages }
{
    for (j, age) in ages.iter().enumerate() {
        if !age_accepted(situation, j as u32, *age) {
            return false;
        }
    }
    true
}

pub(crate) fn inputs_accepted(inputs: u32, chart: &Chart) -> bool
    ensures { result ≡ inputs_accepted (plan_in chart.now.text.now chart.now.table.now) inputs }
{
    word_fits(chart.table[Known::INPUTS], inputs)
}

pub(crate) fn state_accepted(state: State, chart: &Chart) -> bool
    ensures { result ≡ state_accepted (plan_in chart.now.text.now chart.now.table.now) state }
{
    let named = chart.latchable();
    let ages = state.ages;
    let lit = state.latched;
    let a = word_fits(chart.table[Known::STEPS], state.situation);
    let b = word_fits(chart.table[Known::INPUTS], state.inputs);
    let d = word_fits(chart.table[Known::OUTPUTS], lit);
    let e = ages_accepted(state.situation, ages);
    a & b & d & ((lit & named) == lit) & e
}

pub(crate) fn event_accepted(event: Occurrence, chart: &Chart) -> bool
    ensures { result ≡ event_accepted (plan_in chart.now.text.now chart.now.table.now) event }
{
    let declared = inputs_accepted(event.inputs, chart);
    (event.elapsed <= Occurrence::ELAPSED) & declared
}
