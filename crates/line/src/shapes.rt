// What stands after a line's key, read part by part: none is 2 "line not of its shape".
ghost use Rattle.std.specs.Prelude.{cond, ◌≡◌, ◌+◌, ◌≤◌, ◌<◌, eqb, length, drop, MatchOption};
ghost use Rattle.text.specs.Bytes.{byte_at};
ghost use Rattle.text.specs.Numbers.{number};
ghost use Rattle.line.specs.Write.{hold', latch', wrong};
ghost use Rattle.line.specs.Shape.{list_at, alone, move_line, hold_line, latch_line};
ghost use Rattle.line.specs.Steps.{either, MoveRead};

use crate::Tally;
use crate::list::list_at;

// What stands after the key of a move, a hold or a latch. A condition runs from `rest` to the line's end.
#[derive(Clone, Copy)]
pub(crate) struct MoveShape {
    pub(crate) before: Tally,
    pub(crate) after: Tally,
    pub(crate) rest: usize,
}

#[derive(Clone, Copy)]
pub(crate) struct HoldShape {
    pub(crate) step: u32,
    pub(crate) output: u32,
    pub(crate) rest: usize,
}

#[derive(Clone, Copy)]
pub(crate) struct LatchShape {
    pub(crate) step: u32,
    pub(crate) activation: bool,
    pub(crate) output: u32,
    pub(crate) on: bool,
}

// A number with nothing after it.
pub(crate) fn alone(w: &[u8], from: usize) -> Option<u32>
    ensures { result ≡ alone w.now (number 7 (byte_at w.now) from) }
{
    let (v, e) = text::number_at(w, from)?;
    if e == w.len() { Some(v) } else { None }
}

// The place after a byte that stands at a place.
fn past(w: &[u8], at: usize, byte: u8) -> Option<usize>
    requires { 0 < byte }
    ensures { result ≡ cond (eqb (byte_at w.now at) byte) (Some (at + 1)) None }
{
    if text::byte_at(w, at) == byte {
        Some(at + 1)
    } else {
        None
    }
}

// Whether the first of two bytes stands at a place, or the second; none if neither does.
fn either(w: &[u8], at: usize, first: u8, second: u8) -> Option<bool>
    ensures { result ≡ either (byte_at w.now at) first second }
{
    let b = text::byte_at(w, at);
    if b == first {
        return Some(true);
    }
    if b == second { Some(false) } else { None }
}

// `LIST>LIST:`, of which so many steps are declared.
pub(crate) fn move_shape(w: &[u8], from: usize, steps: u32) -> Option<MoveShape>
    ensures { let l = move_line w.now (list_at w.now from) in MatchOption result (l ≡ wrong) (MoveRead steps w.now l) }
{
    let (before, e) = list_at(w, from, steps)?;
    let next = past(w, e, b'>')?;
    let (after, e) = list_at(w, next, steps)?;
    let condition = past(w, e, b':')?;
    Some(MoveShape {
        before,
        after,
        rest: condition,
    })
}

// `STEP:OUTPUT:`
pub(crate) fn hold_shape(w: &[u8], from: usize) -> Option<HoldShape>
    ensures { let l = hold_line w.now (number 7 (byte_at w.now) from) in
        MatchOption result (l ≡ wrong)
        (λ x. (x.rest ≤ length w.now) × (l ≡ hold' (record { step = x.step; output = x.output; condition = drop x.rest w.now }))) }
{
    let (step, e) = text::number_at(w, from)?;
    let next = past(w, e, b':')?;
    let (output, e) = text::number_at(w, next)?;
    let rest = past(w, e, b':')?;
    Some(HoldShape { step, output, rest })
}

// `STEP:E:OUTPUT:V`; "E is `u` (activation) or `d` (deactivation), V is 0 or 1"
pub(crate) fn latch_shape(w: &[u8], from: usize) -> Option<LatchShape>
    ensures { let l = latch_line w.now (number 7 (byte_at w.now) from) in
        MatchOption result (l ≡ wrong)
        (λ x. l ≡ latch' (record { step = x.step; activation = x.activation; output = x.output; on = x.on })) }
{
    let (step, e) = text::number_at(w, from)?;
    let edge = past(w, e, b':')?;
    let activation = either(w, edge, b'u', b'd')?;
    let next = past(w, edge + 1, b':')?;
    let (output, e) = text::number_at(w, next)?;
    let value = past(w, e, b':')?;
    let on = either(w, value, b'1', b'0')?;
    if value + 1 == w.len() {
        Some(LatchShape {
            step,
            activation,
            output,
            on,
        })
    } else {
        None
    }
}
