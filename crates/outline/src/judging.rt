// Faults: which fault comes first, and which number a name has where it stands. A name's faults want a look at the whole text, so they are looked for
// only where one could come first.
ghost use Rattle.std.specs.Prelude.{Option, ◌≡◌};
ghost use Rattle.outline.specs.declared.Cause.{Cause};
ghost use Rattle.outline.specs.Faults.{number_of};
ghost use Rattle.outline.specs.Reading.{comes_first, lowest, blamed, past_bound};

use crate::{Cause, Fault};
use naming::Names;
use tokens::Token;

impl Cause {
    pub fn number(self) -> u32
        ensures { result ≡ number_of self }
    {
        match self {
            Cause::Settled => 1,
            Cause::OutsideSubset => 16,
            Cause::Undeclared => 17,
            Cause::Limit => 18,
        }
    }
}

impl Fault {
    // "the first faulty line, lowest number within it"
    fn comes_first(self, other: Fault) -> bool
        ensures { result ≡ comes_first self other }
    {
        self.line < other.line
            || (self.line == other.line && self.cause.number() < other.cause.number())
    }
}

// Blames a line for a cause, if there is one: the first fault stays.
#[tactic(auto, unfolding(crate::specs::Reading::blamed))]
pub(crate) fn blame(first: &mut Option<Fault>, line: u32, cause: Option<Cause>)
    ensures { first.new ≡ blamed first.old line cause }
{
    let Some(cause) = cause else {
        return;
    };
    let fault = Fault { line, cause };
    match *first {
        Some(f) if !fault.comes_first(f) => {}
        _ => *first = Some(fault),
    }
}

// Blames a line for what is found there, which is looked for only where a fault at the line could come before the first so far.
pub(crate) fn blame_found<F: FnOnce() -> Option<Cause>>(
    first: &mut Option<Fault>,
    line: u32,
    find: F,
)
    requires { F.IsAlwaysCallable find }
    ensures { (cause : Option Cause) → ((found : Option Cause) → F.post find found → found ≡ cause) → first.new ≡ blamed first.old line cause }
{
    match *first {
        Some(f) if f.line < line => {}
        _ => blame(first, line, find()),
    }
}

pub(crate) fn lowest(outside: bool, undeclared: bool, limit: bool) -> Option<Cause>
    ensures { result ≡ lowest outside undeclared limit }
{
    if outside {
        return Some(Cause::OutsideSubset);
    }
    if undeclared {
        return Some(Cause::Undeclared);
    }
    if limit { Some(Cause::Limit) } else { None }
}

// Whether a name finds no number.
pub(crate) fn past_bound(text: &[u8], most: usize, n: Names, t: Token) -> bool
    ensures { result ≡ past_bound text.now most n t }
{
    naming::is_new(text, n, t) && most <= n.count
}
