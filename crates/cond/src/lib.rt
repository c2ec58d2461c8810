// Conditions: judging their bytes, and whether they hold in a view. Both calls take every byte string and owe nothing to their callers.
#![tactic(auto)]

mod atoms;
mod faults;
mod packed;
mod reading;
mod sight;

ghost use Rattle.std.specs.Prelude.{◌≡◌};
ghost use Rattle.cond.specs.Faults.{answer};
ghost use Rattle.cond.specs.Judging.{judged, held_by};

pub use faults::{Fault, lower};

// All that a firing changes, but for the old inputs, which are the new ones from s1 on: the situation, the one before it in this evolution, and the latched outputs.
#[derive(Clone, Copy)]
pub struct Moment {
    pub situation: u32,
    pub previous: u32,
    pub latched: u32,
}

// What a condition is held against. "`ui`, `di` hold in s0 only": after s0 the old inputs are the new ones.
#[derive(Clone, Copy)]
pub struct View {
    pub moment: Moment,
    pub inputs: u32,
    pub old: u32,
    pub ages: [u32; View::STEPS],
}

impl View {
    pub const STEPS: usize = 30;
}

// How many steps and inputs a chart declares.
#[derive(Clone, Copy)]
pub struct Declared {
    pub steps: u32,
    pub inputs: u32,
}

#[derive(Clone, Copy)]
pub struct Condition {}

impl Condition {
    // 01: "condition 1 to 64 bytes".
    pub const BYTES: usize = 64;
    // 01: "T 1 to 3,600,000 ms". The shortest delay, and the longest.
    pub const SHORTEST_DELAY: u32 = 1;

    pub const DELAY: u32 = 3_600_000;
}

// The fault of a condition's bytes in a chart, in a hold or not: 4, 6 or 7, if there is one.
pub fn judge(text: &[u8], declared: Declared, hold: bool) -> Result<(), Fault>
    ensures { answer result ≡ judged declared hold text.now }
{
    let nothing = View {
        moment: Moment {
            situation: 0,
            previous: 0,
            latched: 0,
        },
        inputs: 0,
        old: 0,
        ages: [0; View::STEPS],
    };
    let r = reading::whole(text, &nothing, declared);
    if r.is_none() {
        return Err(Fault::Grammar);
    }
    if r.undeclared() {
        return Err(Fault::Undeclared);
    }
    if hold & r.edge() {
        return Err(Fault::EdgeInHold);
    }
    Ok(())
}

// Whether a condition's bytes hold in a view: bytes that are no condition never do. What is declared makes no difference.
pub fn holds(text: &[u8], view: &View) -> bool
    ensures { result ≡ held_by view.now text.now }
{
    let declared = Declared {
        steps: 0,
        inputs: 0,
    };
    reading::whole(text, view, declared).value()
}
