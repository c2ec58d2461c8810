// The lines after the head: 01, "`move=LIST>LIST:COND`", "`hold=STEP:OUTPUT:COND`", "`latch=STEP:E:OUTPUT:V`", "`end=T`".
ghost use Rattle.std.specs.Prelude.{◌≡◌, ◌+◌, ◌≤◌, ◌<◌, length, drop};
ghost use Rattle.text.specs.Bytes.{byte_at};
ghost use Rattle.text.specs.Numbers.{number};
ghost use Rattle.line.specs.Write.{hold', latch', end'};
ghost use Rattle.line.specs.Shape.{list_at, alone, one_number, move_line, hold_line, latch_line};
ghost use Rattle.line.specs.Words.{item_word};
ghost use Rattle.line.specs.Steps.{Judged, Placeless, MoveOf, rest_word};

use crate::answer::full;
use crate::shapes::{HoldShape, LatchShape, MoveShape, alone, hold_shape, latch_shape, move_shape};
use crate::{Head, Kind, Known, Row};
use cond::{Fault, lower};

// Where the rest of a line that stands at a place lies, as a word.
fn rest_word(w: &[u8], at: usize, from: usize) -> u32
    requires { from ≤ length w.now }
    ensures value { result ≡ rest_word at w.now from }
    ensures upper_bound { result < 2097152 }
{
    ((at % Head::TEXT + from) % Head::TEXT * 128 + (w.len() - from) % 128) as u32
}

// A step and an output, as a word.
fn item_word(step: u32, output: u32) -> u32
    ensures { result ≡ item_word step output }
{
    step % 32 + 32 * (output % 32)
}

impl Known {
    pub(crate) fn move_line(&mut self, w: &[u8], from: usize, at: usize) -> Result<Row, Fault>
        ensures { Judged at (length w.now) (move_line w.now (list_at w.now from)) self.old self.new result }
    {
        let shape = move_shape(w, from, self.steps).ok_or(Fault::Shape)?;
        self.move_of(w, at, shape)
    }

    fn move_of(&mut self, w: &[u8], at: usize, x: MoveShape) -> Result<Row, Fault>
        requires { x.rest ≤ length w.now }
        ensures { MoveOf at x w.now self.old self.new result }
    {
        let before = x.before;
        let after = x.after;
        let unordered = !(before.rising & after.rising);
        let lists = Fault::Bound.given(unordered | ((before.low == 0) & (after.low == 0)));
        let told = self.condition(w, x.rest, false);
        let far = Fault::Undeclared.given(before.undeclared | after.undeclared);
        let found = lower(full(self.moves), lower(lists, lower(told, far)));
        self.enter(Kind::Move, found)?;
        self.moves += 1;
        Ok(Row::Move(before.word, after.word, rest_word(w, at, x.rest)))
    }

    pub(crate) fn hold_line(&mut self, w: &[u8], from: usize, at: usize) -> Result<Row, Fault>
        ensures { Judged at (length w.now) (hold_line w.now (number 7 (byte_at w.now) from)) self.old self.new result }
    {
        let shape = hold_shape(w, from).ok_or(Fault::Shape)?;
        self.hold_of(w, at, shape)
    }

    fn hold_of(&mut self, w: &[u8], at: usize, x: HoldShape) -> Result<Row, Fault>
        requires { x.rest ≤ length w.now }
        ensures { Judged at (length w.now) (hold' (record { step = x.step; output = x.output; condition = drop x.rest w.now })) self.old self.new result }
    {
        let told = self.condition(w, x.rest, true);
        let far = Fault::Undeclared.given((self.steps <= x.step) | (self.outputs <= x.output));
        let found = lower(full(self.holds), lower(told, far));
        self.enter(Kind::Hold, found)?;
        self.holds += 1;
        self.held |= text::bit_at(x.output);
        let item = item_word(x.step, x.output);
        Ok(Row::Hold(item + 1024 * rest_word(w, at, x.rest)))
    }

    pub(crate) fn latch_line(&mut self, w: &[u8], from: usize) -> Result<Row, Fault>
        ensures { Placeless (latch_line w.now (number 7 (byte_at w.now) from)) self.old self.new result }
    {
        let shape = latch_shape(w, from).ok_or(Fault::Shape)?;
        self.latch_of(shape)
    }

    fn latch_of(&mut self, x: LatchShape) -> Result<Row, Fault>
        ensures { Placeless (latch' (record { step = x.step; activation = x.activation; output = x.output; on = x.on })) self.old self.new result }
    {
        let far = Fault::Undeclared.given((self.steps <= x.step) | (self.outputs <= x.output));
        let held = Fault::LatchOfHeld.given(text::has_item(self.held, x.output));
        let found = lower(full(self.latches), lower(far, held));
        self.enter(Kind::Latch, found)?;
        self.latches += 1;
        let item = item_word(x.step, x.output);
        Ok(Row::Latch(item + 1024 * u32::from(!x.activation) + 2048 * u32::from(x.on)))
    }

    pub(crate) fn end_line(&mut self, w: &[u8], from: usize) -> Result<Row, Fault>
        ensures { Placeless (one_number end' (alone w.now (number 7 (byte_at w.now) from))) self.old self.new result }
    {
        let v = alone(w, from).ok_or(Fault::Shape)?;
        let found = Fault::Total.given(u64::from(v) != self.total());
        self.enter(Kind::End, found)?;
        Ok(Row::Nothing)
    }
}
