// Ages before an evolution and after it, and the view in which it begins.
ghost use Rattle.std.specs.Prelude.{◌≡◌, ◌+◌, min, cond, ◌&&◌, ℕ};
ghost use Rattle.text.specs.Words.{has};
ghost use Rattle.evolve.specs.Evolution.{each_from, kept};
ghost use Rattle.engine.specs.State.{oldest_age, aged_at, event_view, start_view};
ghost use Rattle.engine.specs.Parts.{plan_in};

use crate::{Occurrence, State};
use cond::{Moment, View};
use evolve::Chart;
use line::Known;

// An age after some time, stopping at the largest.
fn older(age: u32, elapsed: u32) -> u32
    ensures { result ≡ min oldest_age (age + elapsed) }
{
    age.saturating_add(elapsed).min(State::AGE)
}

// The age of step j after some time: only that of an active step grows.
fn older_at(situation: u32, elapsed: u32, j: u32, age: u32) -> u32
    ensures { result ≡ aged_at situation elapsed j age }
{
    if text::has_item(situation, j) {
        older(age, elapsed)
    } else {
        age
    }
}

// Each age by its step's number and what it was.
fn each_age<F: Fn(u32, u32) -> u32>(ages: [u32; State::STEPS], f: F) -> [u32; State::STEPS]
    requires { F.IsAlwaysCallable f }
    ensures { (g : ℕ → ℕ → ℕ) → ((j age r : ℕ) → F.post f j age r → r ≡ g j age) → result ≡ each_from g 0 ages }
{
    let mut next = [0u32; State::STEPS];
    for j in 0..State::STEPS {
        next[j] = f(j as u32, ages[j]);
    }
    next
}

// The view in which an event's evolution begins.
pub(crate) fn event_view(state: State, event: Occurrence) -> View
    ensures { result ≡ event_view state event }
{
    View {
        moment: Moment {
            situation: state.situation,
            previous: state.situation,
            latched: state.latched,
        },
        inputs: event.inputs,
        old: state.inputs,
        ages: each_age(state.ages, |j, age| {
            older_at(state.situation, event.elapsed, j, age)
        }),
    }
}

// The view in which a start's evolution begins.
pub(crate) fn start_view(chart: &Chart, inputs: u32) -> View
    ensures { result ≡ start_view (plan_in chart.now.text.now chart.now.table.now) inputs }
{
    let initial = chart.table[Known::INITIAL];
    View {
        moment: Moment {
            situation: initial,
            previous: initial,
            latched: 0,
        },
        inputs,
        old: inputs,
        ages: [0; State::STEPS],
    }
}

// The age of step j at the end: it is kept where the step was active before the call and is now.
fn kept_at(before: u32, situation: u32, j: u32, age: u32) -> u32
    ensures { result ≡ cond (has before j && has situation j) age 0 }
{
    let was = text::has_item(before, j);
    let is = text::has_item(situation, j);
    if was & is { age } else { 0 }
}

// The ages at the end, of the view's ages.
pub(crate) fn kept(before: u32, view: &View) -> [u32; State::STEPS]
    ensures { result ≡ kept before view.now.moment view.now.ages }
{
    let situation = view.moment.situation;
    each_age(view.ages, |j, age| kept_at(before, situation, j, age))
}
