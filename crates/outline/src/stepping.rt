// What is known after one token more, and whether it is a fault.
ghost use Rattle.std.specs.Prelude.{not, false, [], ◌∷◌, ◌≡◌, ◌≤◌, ◌<◌};
ghost use Rattle.text.specs.Decimal.{decimal};
ghost use Rattle.naming.specs.Names.{is_new, is_declared, is_undeclared, is_first, is_driven, is_listed, table_number, with_name};
ghost use Rattle.outline.specs.Faults.{in_lists, is_n, sign_bytes};
ghost use Rattle.outline.specs.Reading.{up_to64, put_byte, put_bytes, over_by, drives_over, drives, lowest, past_bound, declared, meant, qualified, driven, listing, listed, assigned, pieced, asked, moved, entered, stepped, headed, conditioned, acted, after_token};

use crate::judging::{self, lowest, past_bound};
use crate::{Cause, Condition, Made, Part, Reading};
use grammar::Phase;
use naming::{Names, Qualifier};
use tokens::{Kind, Token};

impl Reading {
    // One token more.
    #[tactic(auto, unfolding(crate::specs::Reading::after_token))]
    pub fn take(&mut self, text: &[u8], t: Token)
        ensures { self.new ≡ after_token text.now self.old t }
    {
        let phase = self.due.phase;
        self.due = grammar::follow(self.due, t.kind, naming::is_qualifier(text, t));
        self.act(text, phase, t);
    }

    // A token, where a phase was due and the reading says what is due now.
    #[tactic(auto, unfolding(crate::specs::Reading::acted, crate::specs::Reading::blame))]
    fn act(&mut self, text: &[u8], phase: Phase, t: Token)
        ensures { self.new ≡ acted text.now phase self.old t }
    {
        if self.due.phase == Phase::Stopped {
            judging::blame(&mut self.fault, t.line, Some(Cause::OutsideSubset));
        } else if in_lists(phase) {
            self.act_in_lists(text, phase, t);
        } else if matches!(
            phase,
            Phase::OperandDue | Phase::PlainDue | Phase::OperatorDue
        ) {
            self.act_in_condition(text, t);
        } else {
            self.act_in_step(text, phase, t);
        }
    }

    // A token of a step, or outside of all.
    #[tactic(auto, unfolding(crate::specs::Reading::stepped, crate::specs::Reading::qualified))]
    fn act_in_step(&mut self, text: &[u8], phase: Phase, t: Token)
        ensures { self.new ≡ stepped text.now phase self.old t }
    {
        match phase {
            Phase::Outside => self.enter(t),
            Phase::InitialName => self.declare(text, true, t),
            Phase::StepName => self.declare(text, false, t),
            Phase::ActionDue if t.kind == Kind::Name => self.mean(text, t),
            Phase::QualifierDue => self.part.qualifier = naming::qualifier_of(text, t),
            Phase::CloseDue => self.drive(text),
            _ => {}
        }
    }

    // A token of a transition's lists.
    #[tactic(auto, unfolding(crate::specs::Reading::headed, crate::specs::Reading::assigned))]
    fn act_in_lists(&mut self, text: &[u8], phase: Phase, t: Token)
        ensures { self.new ≡ headed text.now phase self.old t }
    {
        match phase {
            Phase::FromDue | Phase::ToDue => self.begin_list(t),
            Phase::AssignDue => self.part.condition.size = 0,
            _ if t.kind == Kind::Name => self.list(text, t),
            _ => {}
        }
    }

    // A token of a condition.
    #[tactic(auto, unfolding(crate::specs::Reading::conditioned, crate::specs::Reading::moved))]
    fn act_in_condition(&mut self, text: &[u8], t: Token)
        ensures { self.new ≡ conditioned text.now self.old t }
    {
        match t.kind {
            Kind::Semicolon => self.made.moves = one_more(self.made.moves),
            Kind::Name => self.ask(text, t),
            _ => self.add_sign(t),
        }
    }

    // A word or sign of a condition.
    fn add_sign(&mut self, t: Token)
        ensures { self.new ≡ pieced self.old t.line (sign_bytes t.kind) }
    {
        match t.kind.sign() {
            Some(sign) => self.add_to_condition(t.line, &[sign]),
            None => self.add_to_condition(t.line, &[]),
        }
    }

    // TRANSITION: 01, "up to 64 `move=LIST>LIST:COND`".
    #[tactic(auto, unfolding(crate::specs::Reading::entered, crate::specs::Reading::blame))]
    fn enter(&mut self, t: Token)
        ensures { self.new ≡ entered self.old t }
    {
        let over = t.kind == Kind::Transition && 64 <= self.made.moves;
        judging::blame(&mut self.fault, t.line, lowest(false, false, over));
    }

    // INITIAL_STEP or STEP and a name.
    #[tactic(auto, unfolding(crate::specs::Reading::declared, crate::specs::Reading::blame))]
    fn declare(&mut self, text: &[u8], initial: bool, t: Token)
        ensures { self.new ≡ declared text.now initial self.old t }
    {
        judging::blame_found(&mut self.fault, t.line, || {
            lowest(
                !naming::is_first(text, t),
                false,
                past_bound(text, Names::STEPS, self.known.steps, t),
            )
        });
        let j = number(text, &mut self.known.steps, t, Names::STEPS);
        let initial_steps = self.known.initial;
        self.known.initial = if initial {
            initial_steps | text::bit_at(j)
        } else {
            initial_steps
        };
        self.part.step = j;
    }

    // An action's variable. A name is judged where it appears first.
    #[tactic(auto, unfolding(crate::specs::Reading::meant, crate::specs::Reading::blame))]
    fn mean(&mut self, text: &[u8], t: Token)
        ensures { self.new ≡ meant text.now self.old t }
    {
        judging::blame_found(&mut self.fault, t.line, || {
            let is_step = naming::is_new(text, self.known.outputs, t)
                && naming::declared_at(text, t).is_some();
            lowest(is_step, false, false)
        });
        self.part.variable = t;
    }

    // An action whose bracket is closed: N is a hold, S and R are latches.
    #[tactic(auto, unfolding(crate::specs::Reading::driven, crate::specs::Reading::blame))]
    fn drive(&mut self, text: &[u8])
        ensures { self.new ≡ driven text.now self.old }
    {
        let v = self.part.variable;
        let hold = self.part.is_hold();
        let past = past_bound(text, Names::ITEMS, self.known.outputs, v);
        let o = number(text, &mut self.known.outputs, v, Names::ITEMS);
        let over = past || self.made.is_over(hold, o);
        judging::blame(&mut self.fault, v.line, lowest(false, false, over));
        self.part.output = o;
        self.made.drive(hold, o);
    }

    // FROM and TO: a list begins. What TO finds listed are the steps before.
    #[tactic(auto, unfolding(crate::specs::Reading::listing))]
    fn begin_list(&mut self, t: Token)
        ensures { self.new ≡ listing self.old t }
    {
        self.part.start = t.place;
        self.part.before = self.part.listed;
        self.part.listed = 0;
    }

    // A step in a list.
    #[tactic(auto, unfolding(crate::specs::Reading::listed, crate::specs::Reading::blame))]
    fn list(&mut self, text: &[u8], t: Token)
        ensures { self.new ≡ listed text.now self.old t }
    {
        judging::blame_found(&mut self.fault, t.line, || {
            let undeclared = naming::is_new(text, self.known.steps, t)
                && naming::declared_at(text, t).is_none();
            lowest(
                naming::is_listed(text, self.part.start, t),
                undeclared,
                past_bound(text, Names::STEPS, self.known.steps, t),
            )
        });
        let j = number(text, &mut self.known.steps, t, Names::STEPS);
        self.part.listed |= text::bit_at(j);
    }

    // A variable of a condition.
    #[tactic(auto, unfolding(crate::specs::Reading::asked, crate::specs::Reading::blame))]
    fn ask(&mut self, text: &[u8], t: Token)
        ensures { self.new ≡ asked text.now self.old t }
    {
        judging::blame_found(&mut self.fault, t.line, || {
            let taken = naming::is_new(text, self.known.inputs, t)
                && (naming::declared_at(text, t).is_some() || naming::is_driven(text, t));
            lowest(
                taken,
                false,
                past_bound(text, Names::ITEMS, self.known.inputs, t),
            )
        });
        let j = number(text, &mut self.known.inputs, t, Names::ITEMS);
        self.add_input(t.line, j);
    }

    // The bytes of an input in a condition.
    fn add_input(&mut self, line: u32, j: u32)
        requires { j < 100 }
        ensures { self.new ≡ pieced self.old line (105 ∷ decimal j) }
    {
        let mut bytes = *b"i00";
        let end = text::put_decimal(&mut bytes, 1, u64::from(j));
        self.add_to_condition(line, &bytes[..end]);
    }

    // Bytes more of a condition.
    #[tactic(auto, unfolding(crate::specs::Reading::pieced, crate::specs::Reading::blame))]
    fn add_to_condition(&mut self, line: u32, bytes: &[u8])
        ensures { self.new ≡ pieced self.old line bytes.now }
    {
        let over = self.part.condition.is_over_by(bytes.len());
        judging::blame(&mut self.fault, line, lowest(false, false, over));
        self.part.condition.put_all(bytes);
    }
}

impl Part {
    // N alone is a hold, S and R are latches.
    pub fn is_hold(&self) -> bool
        ensures { result ≡ is_n self.now.qualifier }
    {
        matches!(self.qualifier, Some(Qualifier::N))
    }
}

impl Made {
    // Whether an action passes the lines of its kind, or its output has lines of the other.
    fn is_over(&self, hold: bool, output: u32) -> bool
        ensures { result ≡ drives_over self.now hold output }
    {
        if hold {
            text::has_item(self.latched, output) || 64 <= self.holds
        } else {
            text::has_item(self.held, output) || 64 <= self.latches
        }
    }

    // One line more, which drives an output.
    fn drive(&mut self, hold: bool, output: u32)
        ensures { self.new ≡ drives self.old hold output }
    {
        if hold {
            self.holds = one_more(self.holds);
            self.held |= text::bit_at(output);
        } else {
            self.latches = one_more(self.latches);
            self.latched |= text::bit_at(output);
        }
    }
}

impl Condition {
    // Bytes more; one that finds no room is not kept. 01: "condition 1 to 64 bytes".
    #[tactic(auto, unfolding(crate::specs::Reading::put_bytes))]
    fn put_all(&mut self, bytes: &[u8])
        ensures { self.new ≡ put_bytes self.old bytes.now }
    {
        for byte in bytes {
            self.put(*byte);
        }
    }

    fn put(&mut self, byte: u8)
        ensures { self.new ≡ put_byte self.old byte }
    {
        if self.size < 64 {
            self.bytes[self.size] = byte;
            self.size += 1;
        }
    }

    // Whether there is no room for bytes.
    fn is_over_by(&self, bytes: usize) -> bool
        ensures { result ≡ over_by self.now bytes }
    {
        64usize.saturating_sub(self.size) < bytes
    }
}

// A name's number among those of its kind, of which there are at most `most`: a new name gets the next.
fn number(text: &[u8], names: &mut Names, t: Token, most: usize) -> u32
    requires { most ≤ 32 }
    ensures joined { names.new ≡ with_name most text.now names.old t }
    ensures value { result ≡ table_number text.now names.new t }
    ensures upper_bound { result ≤ 32 }
{
    *names = naming::joined(text, *names, t, most);
    naming::number_of(text, *names, t)
}

// Where the lists of a transition are read, up to the `:=` after them.
fn in_lists(phase: Phase) -> bool
    ensures { result ≡ in_lists phase }
{
    matches!(
        phase,
        Phase::FromDue
            | Phase::BeforeDue
            | Phase::BeforeFirst
            | Phase::BeforeComma
            | Phase::BeforeName
            | Phase::BeforeMore
            | Phase::ToDue
            | Phase::AfterDue
            | Phase::AfterFirst
            | Phase::AfterComma
            | Phase::AfterName
            | Phase::AfterMore
            | Phase::AssignDue
    )
}

// A line more of a kind, of which 64 are counted at most.
fn one_more(lines: u32) -> u32
    ensures { result ≡ up_to64 lines }
{
    if lines < 64 { lines + 1 } else { lines }
}
