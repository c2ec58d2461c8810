// SFC text read token by token: what may stand where, what is known after each token, and the first fault.
#![tactic(auto)]

mod judging;
mod stepping;

ghost use Rattle.std.specs.Prelude.{◌≡◌};
ghost use Rattle.outline.specs.Reading.{nothing_known, settled, reading_of};

use grammar::{Due, Phase};
use naming::{Names, Qualifier};
use tokens::{Kind, Token};

// What is wrong with a line. 02, P4: "16 outside the subset, 17 a step name never declared, 18 a limit of 01 passed or an output with both N and S or R".
#[derive(Clone, Copy, PartialEq, Eq)]
pub enum Cause {
    // No text has it: it stands before every fault, so that none is looked for.
    Settled,
    OutsideSubset,
    Undeclared,
    Limit,
}

#[derive(Clone, Copy)]
pub struct Fault {
    pub line: u32,
    pub cause: Cause,
}

// The names that have numbers, and the word of the initial steps.
#[derive(Clone, Copy)]
pub struct Known {
    pub steps: Names,
    pub inputs: Names,
    pub outputs: Names,
    pub initial: u32,
}

// The lines that were made: how many, and the outputs that they name.
#[derive(Clone, Copy)]
pub struct Made {
    pub moves: u32,
    pub holds: u32,
    pub latches: u32,
    pub held: u32,
    pub latched: u32,
}

// What is known of the construct that is open: the step and the action, the place where a list began, the steps that it lists, the steps before, and
// the bytes of the condition.
#[derive(Clone, Copy)]
pub struct Part {
    pub step: u32,
    pub variable: Token,
    pub qualifier: Option<Qualifier>,
    pub output: u32,
    pub start: usize,
    pub listed: u32,
    pub before: u32,
    pub condition: Condition,
}

// The bytes of a condition so far.
#[derive(Clone, Copy)]
pub struct Condition {
    pub bytes: [u8; 64],
    pub size: usize,
}

#[derive(Clone, Copy)]
pub struct Reading {
    pub due: Due,
    pub fault: Option<Fault>,
    pub known: Known,
    pub made: Made,
    pub part: Part,
}

// What is known of a whole text.
pub fn read(text: &[u8]) -> Reading
    ensures { result ≡ reading_of text.now }
{
    let mut reading = nothing();
    let mut t = tokens::token_at(text, 0, 1);
    loop {
        reading.take(text, t);
        if t.kind == Kind::End {
            return reading;
        }
        t = naming::next(text, t);
    }
}

// Nothing is known before the first token.
pub fn nothing() -> Reading
    ensures { result ≡ nothing_known }
{
    let no_token = Token {
        kind: Kind::End,
        place: 0,
        size: 0,
        line: 0,
    };
    let no_names = Names {
        words: [no_token; 32],
        count: 0,
    };
    Reading {
        due: Due {
            phase: Phase::Outside,
            depth: 0,
        },
        fault: None,
        known: Known {
            steps: no_names,
            inputs: no_names,
            outputs: no_names,
            initial: 0,
        },
        made: Made {
            moves: 0,
            holds: 0,
            latches: 0,
            held: 0,
            latched: 0,
        },
        part: Part {
            step: 0,
            variable: no_token,
            qualifier: None,
            output: 0,
            start: 0,
            listed: 0,
            before: 0,
            condition: Condition {
                bytes: [0; 64],
                size: 0,
            },
        },
    }
}

// The same with a fault that comes before all others, for those who know that the text has none and ask for what it makes.
pub fn settled() -> Reading
    ensures { result ≡ settled }
{
    Reading {
        fault: Some(Fault {
            line: 0,
            cause: Cause::Settled,
        }),
        ..nothing()
    }
}
