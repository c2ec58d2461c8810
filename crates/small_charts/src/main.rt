// 01's small charts A to L, on both sides of each edge, with the trace shown. Of eight words, all 9 before the call, some are lent. What this must
// print was worked out by hand from 01.
#![tactic(auto)]

use engine::{Answer, State};

// What is called on a chart: a start with no inputs, or an event in step 0 alone, which is active for some time, with no input on before it.
#[derive(Clone, Copy)]
enum Call {
    Start,
    Event { age: u32, elapsed: u32, inputs: u32 },
}

// A chart by its name and text, and a call on it that is lent so many words for its trace.
#[derive(Clone, Copy)]
struct Case {
    name: &'static str,
    text: &'static str,
    call: Call,
    lent: usize,
}

const CASES: [Case; 15] = [
    Case {
        name: "A",
        text: "chart=1\nsteps=2\ninitial=0\ninputs=0\noutputs=0\nlimit=3\nmove=0>1:1\nmove=1>0:1\nend=2\n",
        call: Call::Start,
        lent: 8,
    },
    Case {
        name: "A, two words lent",
        text: "chart=1\nsteps=2\ninitial=0\ninputs=0\noutputs=0\nlimit=3\nmove=0>1:1\nmove=1>0:1\nend=2\n",
        call: Call::Start,
        lent: 2,
    },
    Case {
        name: "B",
        text: "chart=1\nsteps=2\ninitial=0\ninputs=0\noutputs=0\nlimit=2\nmove=0>1:1\nmove=1>0:1\nend=2\n",
        call: Call::Start,
        lent: 8,
    },
    Case {
        name: "C",
        text: "chart=1\nsteps=1\ninitial=0\ninputs=0\noutputs=0\nlimit=2\nmove=0>0:1\nend=1\n",
        call: Call::Start,
        lent: 8,
    },
    Case {
        name: "D",
        text: "chart=1\nsteps=1\ninitial=0\ninputs=0\noutputs=0\nlimit=1\nmove=0>0:1\nend=1\n",
        call: Call::Start,
        lent: 8,
    },
    Case {
        name: "E",
        text: "chart=1\nsteps=3\ninitial=0\ninputs=0\noutputs=0\nlimit=16\nmove=0>1:1\nmove=0>2:1\nend=2\n",
        call: Call::Start,
        lent: 8,
    },
    Case {
        name: "F",
        text: "chart=1\nsteps=2\ninitial=0,1\ninputs=0\noutputs=0\nlimit=16\nmove=0>1:1\nmove=1>:x0\nend=2\n",
        call: Call::Start,
        lent: 8,
    },
    Case {
        name: "G",
        text: "chart=1\nsteps=2\ninitial=0\ninputs=1\noutputs=0\nlimit=16\nmove=0>1:ui0\nmove=1>0:1\nend=2\n",
        call: Call::Event {
            age: 0,
            elapsed: 0,
            inputs: 1,
        },
        lent: 8,
    },
    Case {
        name: "H",
        text: "chart=1\nsteps=2\ninitial=0\ninputs=1\noutputs=0\nlimit=16\nmove=0>1:ui0\nmove=1>0:1\nend=2\n",
        call: Call::Event {
            age: 300,
            elapsed: 5,
            inputs: 1,
        },
        lent: 8,
    },
    Case {
        name: "I",
        text: "chart=1\nsteps=3\ninitial=0\ninputs=1\noutputs=0\nlimit=16\nmove=0>1:ui0\nmove=1>2:dx0\nmove=2>1:1\nend=3\n",
        call: Call::Event {
            age: 0,
            elapsed: 0,
            inputs: 1,
        },
        lent: 8,
    },
    Case {
        name: "J",
        text: "chart=1\nsteps=6\ninitial=0,2,4\ninputs=0\noutputs=0\nlimit=16\nmove=0>1:1\nmove=1>0:!(x3.x5)\nmove=2>3:x1\nmove=3>2:x1.!x5\nmove=4>5:x1.x3\nend=5\n",
        call: Call::Start,
        lent: 8,
    },
    Case {
        name: "K",
        text: "chart=1\nsteps=2\ninitial=0\ninputs=0\noutputs=1\nlimit=16\nmove=0>1:1\nlatch=0:d:0:1\nlatch=1:u:0:0\nend=3\n",
        call: Call::Start,
        lent: 8,
    },
    Case {
        name: "L",
        text: "chart=1\nsteps=1\ninitial=0\ninputs=0\noutputs=0\nlimit=16\nend=0\n",
        call: Call::Event {
            age: 0,
            elapsed: 60000,
            inputs: 0,
        },
        lent: 8,
    },
    Case {
        name: "L, one ms more",
        text: "chart=1\nsteps=1\ninitial=0\ninputs=0\noutputs=0\nlimit=16\nend=0\n",
        call: Call::Event {
            age: 7,
            elapsed: 60001,
            inputs: 0,
        },
        lent: 8,
    },
    Case {
        name: "a line wrong",
        text: "chart=1\nsteps=1\ninitial=0\ninputs=0\noutputs=0\nlimit=16\nend=1\n",
        call: Call::Event {
            age: 7,
            elapsed: 0,
            inputs: 0,
        },
        lent: 8,
    },
];

fn main(rt: HostRuntime) {
    for case in CASES {
        show(&rt, case);
    }
}

// What cannot be written is lost.
fn show(rt: &impl Print, case: Case) {
    let mut trace = [9u32; 8];
    let lent = case.lent.min(trace.len());
    let answer = called(case, &mut trace[..lent]);
    let state = answer.state;
    let age = state.ages[0];
    let _ = print!(rt; "{}: ans={} n={}", case.name, answer.number, answer.count);
    let _ = print!(rt;
        " sit={} out={} age={age} trace",
        state.situation, answer.outputs
    );
    for situation in trace {
        let _ = print!(rt; " {situation}");
    }
    let _ = println!(rt; "");
}

// The answer of the call, and its trace in the lent words.
fn called(case: Case, trace: &mut [u32]) -> Answer {
    let text = case.text.as_bytes();
    match case.call {
        Call::Start => engine::start(text, 0, trace),
        Call::Event {
            age,
            elapsed,
            inputs,
        } => {
            let mut state = State::zero();
            state.situation = 1;
            state.ages[0] = age;
            engine::event(text, state, elapsed, inputs, trace)
        }
    }
}
