// The engine: a chart's start and its events, each call by itself.
#![tactic(auto)]

mod accept;
mod ages;
mod run;

ghost use Rattle.std.specs.Prelude.{◌≡◌};
ghost use Rattle.engine.specs.State.{zero_state};
ghost use Rattle.engine.specs.Texts.{started, evented};

use chart::Verdict;
use cond::{Condition, View};
use evolve::Chart;
use line::Table;

// 01: "The state holds the situation, the last inputs and the latched outputs as 32-bit words (bit j for item j) and an array of thirty
// step ages in milliseconds."
#[derive(Clone, Copy)]
pub struct State {
    pub situation: u32,
    pub inputs: u32,
    pub latched: u32,
    pub ages: [u32; State::STEPS],
}

impl State {
    // 01: "an array of thirty step ages".
    pub const STEPS: usize = View::STEPS;
    // 01: "ages are at most 3,600,000": as far as the longest delay of a condition asks.
    pub const AGE: u32 = Condition::DELAY;

    // The state that a refused start gives.
    pub fn zero() -> Self
        ensures { result ≡ zero_state }
    {
        State {
            situation: 0,
            inputs: 0,
            latched: 0,
            ages: [0u32; State::STEPS],
        }
    }
}

// An event, by the time since the last one and the new inputs; `event` is the name of the call.
#[derive(Clone, Copy)]
pub struct Occurrence {
    pub elapsed: u32,
    pub inputs: u32,
}

impl Occurrence {
    // 01: "elapsed ms 0 to 60,000".
    pub const ELAPSED: u32 = 60_000;

    // So many ms after the last event, with these inputs.
    pub fn new(elapsed: u32, inputs: u32) -> Self
        ensures { result ≡ record { elapsed = elapsed; inputs = inputs } }
    {
        Occurrence { elapsed, inputs }
    }
}

// What a call yields beside the trace. It is no Result, since `Refusal` and `FinalOnly` (specs/) speak of its number, as 01 does.
#[derive(Clone, Copy)]
pub struct Answer {
    pub number: u32,
    pub count: u32,
    pub state: State,
    pub outputs: u32,
}

// A chart's start: the situation in which it comes to rest, with its outputs. The situations that it passes go into the trace.
pub fn start(text: &[u8], inputs: u32, trace: &mut [u32]) -> Answer
    ensures value { result ≡ (started text.now inputs trace.old).answer }
    ensures trace_after { trace.new ≡ (started text.now inputs trace.old).trace }
{
    let mut table = [0u32; Table::WORDS];
    let verdict = Verdict::from(chart::read(text, &mut table));
    if verdict.number != 0 {
        return run::refusal(verdict.number, verdict.line, State::zero());
    }
    let chart = Chart {
        table: &table,
        text,
    };
    run::start_on(&chart, inputs, trace)
}

// One event of a chart, from a state: the next situation in which it comes to rest, with its outputs.
pub fn event(text: &[u8], state: State, elapsed: u32, inputs: u32, trace: &mut [u32]) -> Answer
    ensures value { result ≡ (evented text.now state elapsed inputs trace.old).answer }
    ensures trace_after { trace.new ≡ (evented text.now state elapsed inputs trace.old).trace }
{
    let mut table = [0u32; Table::WORDS];
    let verdict = Verdict::from(chart::read(text, &mut table));
    if verdict.number != 0 {
        return run::refusal(verdict.number, verdict.line, state);
    }
    let chart = Chart {
        table: &table,
        text,
    };
    run::event_on(&chart, state, Occurrence::new(elapsed, inputs), trace)
}
