// The engine's calls as a host program sees them, in C or Rust: numbers and slices cross, each slice as a pointer and a length. Every length is
// checked here. A call whose slices do not fit is refused by this boundary itself, and touches nothing.
#![tactic(auto)]

mod words;

ghost use Rattle.std.specs.Prelude.{◌≡◌};
ghost use Rattle.host.specs.Calls.{hosted_check, hosted_lookup, hosted_start, hosted_event, hosted_import, hosted_name};

use chart::Verdict;
use sfc::Imported;

// What a call of this boundary says, and how long its slices are. They are C's words, of include/grafcet.h.
#[derive(Clone, Copy)]
pub struct Boundary {}

impl Boundary {
    // The call was made, and its answer stands in the slices.
    pub const MADE: u32 = 0;
    // A slice has the wrong length. This is no answer number of the engine's.
    pub const REFUSED: u32 = 1;
    // The words of a state: situation, inputs, latched, thirty ages.
    pub const STATE: usize = 33;
    // Where the ages begin among them.
    pub const AGES: usize = 3;
    // Number, count and outputs of a start or an event; number, line and length of an import.
    pub const ANSWER: usize = 3;
    // Number and line of a check; start and length of a lookup or of a name.
    pub const PAIR: usize = 2;
}

// Whether a text is a chart: answer number and line.
#[unsafe(no_mangle)]
#[tactic(auto, unfolding(crate::specs::Calls::hosted_check))]
pub extern "C" fn grafcet_check(text: &[u8], out: &mut [u32]) -> u32
    ensures value { result ≡ (hosted_check text.now out.old).said }
    ensures out_after { out.new ≡ (hosted_check text.now out.old).out }
{
    if out.len() != Boundary::PAIR {
        return Boundary::REFUSED;
    }
    let verdict = Verdict::from(chart::check(text));
    out.copy_from_slice(&[verdict.number, verdict.line]);
    Boundary::MADE
}

// Where the condition of the k-th move lies in the text, counted from 1: start and length of the part.
#[unsafe(no_mangle)]
#[tactic(auto, unfolding(crate::specs::Calls::hosted_lookup))]
pub extern "C" fn grafcet_lookup(text: &[u8], k: u32, out: &mut [u32]) -> u32
    ensures value { result ≡ (hosted_lookup text.now k out.old).said }
    ensures out_after { out.new ≡ (hosted_lookup text.now k out.old).out }
{
    if out.len() != Boundary::PAIR {
        return Boundary::REFUSED;
    }
    let part = chart::locate(text, k);
    out.copy_from_slice(&[part.start, part.length]);
    Boundary::MADE
}

// A chart's start: the state in which it comes to rest, number, count and outputs.
#[unsafe(no_mangle)]
#[tactic(auto, unfolding(crate::specs::Calls::hosted_start, crate::specs::Calls::hosted_if))]
pub extern "C" fn grafcet_start(
    text: &[u8],
    inputs: u32,
    state: &mut [u32],
    out: &mut [u32],
    trace: &mut [u32],
) -> u32
    ensures value { result ≡ (hosted_start text.now inputs state.old out.old trace.old).said }
    ensures state_after { state.new ≡ (hosted_start text.now inputs state.old out.old trace.old).state }
    ensures out_after { out.new ≡ (hosted_start text.now inputs state.old out.old trace.old).out }
    ensures trace_after { trace.new ≡ (hosted_start text.now inputs state.old out.old trace.old).trace }
{
    if !words::fit(state.len(), out.len()) {
        return Boundary::REFUSED;
    }
    let answer = engine::start(text, inputs, trace);
    words::put_answer(answer, state, out);
    Boundary::MADE
}

// One event of a chart, from the state in the lent words, which then hold the state of the answer.
#[unsafe(no_mangle)]
#[tactic(auto, unfolding(crate::specs::Calls::hosted_event, crate::specs::Calls::hosted_if))]
pub extern "C" fn grafcet_event(
    text: &[u8],
    elapsed: u32,
    inputs: u32,
    state: &mut [u32],
    out: &mut [u32],
    trace: &mut [u32],
) -> u32
    ensures value { result ≡ (hosted_event text.now elapsed inputs state.old out.old trace.old).said }
    ensures state_after { state.new ≡ (hosted_event text.now elapsed inputs state.old out.old trace.old).state }
    ensures out_after { out.new ≡ (hosted_event text.now elapsed inputs state.old out.old trace.old).out }
    ensures trace_after { trace.new ≡ (hosted_event text.now elapsed inputs state.old out.old trace.old).trace }
{
    if !words::fit(state.len(), out.len()) {
        return Boundary::REFUSED;
    }
    let before = words::state_in(state);
    let answer = engine::event(text, before, elapsed, inputs, trace);
    words::put_answer(answer, state, out);
    Boundary::MADE
}

// SFC text as chart text in lent room: number, line and the result's length.
#[unsafe(no_mangle)]
#[tactic(auto, unfolding(crate::specs::Calls::hosted_import, crate::specs::Calls::hosted_room_if))]
pub extern "C" fn grafcet_import(text: &[u8], room: &mut [u8], out: &mut [u32]) -> u32
    ensures value { result ≡ (hosted_import text.now room.old out.old).said }
    ensures room_after { room.new ≡ (hosted_import text.now room.old out.old).room }
    ensures out_after { out.new ≡ (hosted_import text.now room.old out.old).out }
{
    if out.len() != Boundary::ANSWER {
        return Boundary::REFUSED;
    }
    let brought = Imported::from(sfc::import(text, room));
    out.copy_from_slice(&[brought.number, brought.line, brought.length as u32]);
    Boundary::MADE
}

// Where the name of item k of a kind lies in SFC text: start and length of the part.
#[unsafe(no_mangle)]
#[tactic(auto, unfolding(crate::specs::Calls::hosted_name))]
pub extern "C" fn grafcet_name(text: &[u8], kind: u32, k: u32, out: &mut [u32]) -> u32
    ensures value { result ≡ (hosted_name text.now kind k out.old).said }
    ensures out_after { out.new ≡ (hosted_name text.now kind k out.old).out }
{
    if out.len() != Boundary::PAIR {
        return Boundary::REFUSED;
    }
    let place = sfc::name(text, kind, k);
    out.copy_from_slice(&[place.start as u32, place.length as u32]);
    Boundary::MADE
}
