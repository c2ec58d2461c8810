// Runs the conditions of standard input through the condition layer's two calls. bench/oracle/conditions.py wrote the cases and, from
// document 01 alone, what this program must print.
#![tactic(auto)]

ghost use Rattle.std.specs.Prelude.{◌<◌, ◌≤◌, length, IfSome};

use casebook::field_at;
use cond::{Declared, Fault, Moment, View};

// A case: its condition, what the chart declares, whether it stands in a hold, what it is held against, and the place after the case.
#[derive(Drop)]
struct Case<'a> {
    condition: &'a [u8],
    declared: Declared,
    hold: bool,
    view: View,
    end: usize,
}

fn main(rt: HostRuntime) {
    let mut input = [0u8; 65536];
    let n = files::read_front(&mut rt.reader(), &mut input);
    run(&rt, &input[..n]);
}

// A line that is none of a case ends the run.
fn run(rt: &impl Print, s: &[u8]) {
    let mut at = 0;
    let mut number: u64 = 0;
    while let Some(case) = case_at(s, at) {
        number = number.saturating_add(1);
        answer(rt, number, &case);
        at = case.end;
    }
}

// Ten numbers, each with one byte after it: the condition's length, steps, inputs, hold, situation, previous situation, inputs on, old inputs, a step
// and its age. Then the condition's bytes and a byte 10.
fn case_at(s: &[u8], at: usize) -> Option<Case>
    ensures { IfSome result (λ c. (at < c.end) × (c.end ≤ length s.now)) }
{
    let (bytes, at) = field_at(s, at)?;
    let (steps, at) = field_at(s, at)?;
    let (inputs, at) = field_at(s, at)?;
    let (hold, at) = field_at(s, at)?;
    let (situation, at) = field_at(s, at)?;
    let (previous, at) = field_at(s, at)?;
    let (on, at) = field_at(s, at)?;
    let (old, at) = field_at(s, at)?;
    let (step, at) = field_at(s, at)?;
    let (age, at) = field_at(s, at)?;
    let (condition, end) = casebook::bytes_at(s, at, bytes)?;
    Some(Case {
        condition,
        declared: Declared { steps, inputs },
        hold: hold == 1,
        view: View {
            moment: Moment {
                situation,
                previous,
                latched: 0,
            },
            inputs: on,
            old,
            ages: ages(step, age),
        },
        end,
    })
}

// The ages of all steps: of one so long, and of the others 0.
fn ages(step: u32, age: u32) -> [u32; View::STEPS] {
    let mut ages = [0; View::STEPS];
    let step = step as usize;
    if step < View::STEPS {
        ages[step] = age;
    }
    ages
}

// What cannot be written is lost.
fn answer(rt: &impl Print, number: u64, case: &Case) {
    let fault = cond::judge(case.condition, case.declared, case.hold).err();
    let judged = fault.map_or(0, Fault::number);
    let holds = u8::from(cond::holds(case.condition, &case.view));
    let _ = println!(rt; "{number} ans={judged} holds={holds}");
}
