// From the view in which an evolution begins to the answer.
ghost use Rattle.std.specs.Prelude.{◌≡◌};
ghost use Rattle.engine.specs.Answers.{refusal, resting, start_on, event_on};
ghost use Rattle.engine.specs.Parts.{plan_in, answer_in};

use crate::{Answer, Occurrence, State, accept, ages};
use cond::View;
use evolve::{Chart, End};

pub(crate) fn refusal(number: u32, count: u32, state: State) -> Answer
    ensures { result ≡ refusal number count state }
{
    Answer {
        number,
        count,
        state,
        outputs: 0,
    }
}

// The answer in a stable situation (01, Evolution 7 and 8).
fn rested(chart: &Chart, view: &View, given: State, count: u32) -> Answer
    ensures { result ≡ resting (plan_in chart.now.text.now chart.now.table.now) given count view.now }
{
    let held = chart.held(view);
    let situation = view.moment.situation;
    let inputs = view.inputs;
    let latched = view.moment.latched;
    let state = State {
        situation,
        inputs,
        latched,
        ages: ages::kept(given.situation, view),
    };
    Answer {
        number: 0,
        count,
        state,
        outputs: latched | held,
    }
}

// The answer to a call that was given a state, where its evolution ended, with the view in which it left off.
fn answer(chart: &Chart, view: &View, given: State, end: End) -> Answer
    ensures { result ≡ answer_in (plan_in chart.now.text.now chart.now.table.now) view.now given end }
{
    match end {
        End::Rest(k) => rested(chart, view, given, k),
        End::Loops(j) => refusal(12, j, given),
        End::Cut(l) => refusal(13, l, given),
    }
}

// A start on a table.
pub(crate) fn start_on(chart: &Chart, inputs: u32, trace: &mut [u32]) -> Answer
    ensures value { result ≡ (start_on (plan_in chart.now.text.now chart.now.table.now) inputs trace.old).answer }
    ensures trace_after { trace.new ≡ (start_on (plan_in chart.now.text.now chart.now.table.now) inputs trace.old).trace }
{
    if !accept::inputs_accepted(inputs, chart) {
        return refusal(11, 0, State::zero());
    }
    let mut view = ages::start_view(chart, inputs);
    let end = chart.run(&mut view, trace, 0);
    answer(chart, &view, State::zero(), end)
}

// An event on a table.
pub(crate) fn event_on(chart: &Chart, given: State, event: Occurrence, trace: &mut [u32]) -> Answer
    ensures value { result ≡ (event_on (plan_in chart.now.text.now chart.now.table.now) given event trace.old).answer }
    ensures trace_after { trace.new ≡ (event_on (plan_in chart.now.text.now chart.now.table.now) given event trace.old).trace }
{
    if !accept::state_accepted(given, chart) {
        return refusal(10, 0, given);
    }
    if !accept::event_accepted(event, chart) {
        return refusal(11, 0, given);
    }
    let mut view = ages::event_view(given, event);
    let end = chart.run(&mut view, trace, 0);
    answer(chart, &view, given, end)
}
