// States and answers as lent words.
ghost use Rattle.std.specs.Prelude.{◌≡◌, ◌&&◌, eqb, length};
ghost use Rattle.host.specs.State.{state_in, words_of};
ghost use Rattle.host.specs.Calls.{answer_words};

use crate::Boundary;
use engine::{Answer, State};

// Whether slices of these lengths can hold a state and an answer.
pub(crate) fn fit(state: usize, out: usize) -> bool
    ensures { result ≡ (eqb state 33 && eqb out 3) }
{
    state == Boundary::STATE && out == Boundary::ANSWER
}

// The state that the words stand for.
pub(crate) fn state_in(words: &[u32]) -> State
    requires { length words.now ≡ 33 }
    ensures { result ≡ state_in words.now }
{
    let mut ages = [0; State::STEPS];
    ages.copy_from_slice(&words[Boundary::AGES..]);
    State {
        situation: words[0],
        inputs: words[1],
        latched: words[2],
        ages,
    }
}

// The words of a state.
pub(crate) fn put_state(state: State, words: &mut [u32])
    requires { length words.old ≡ 33 }
    ensures { words.new ≡ words_of state }
{
    words[0] = state.situation;
    words[1] = state.inputs;
    words[2] = state.latched;
    words[Boundary::AGES..].copy_from_slice(&state.ages);
}

// The state of an answer, and its number, count and outputs.
pub(crate) fn put_answer(answer: Answer, state: &mut [u32], out: &mut [u32])
    requires { (length state.old ≡ 33) × (length out.old ≡ 3) }
    ensures state_after { state.new ≡ words_of answer.state }
    ensures out_after { out.new ≡ answer_words answer }
{
    put_state(answer.state, state);
    out.copy_from_slice(&[answer.number, answer.count, answer.outputs]);
}
