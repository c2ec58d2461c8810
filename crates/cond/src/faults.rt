// Why a line of chart text is refused, and the lower of two faults.
ghost use Rattle.std.specs.Prelude.{◌≡◌};
ghost use Rattle.cond.specs.Lowest.{given, lower};
ghost use Rattle.cond.specs.Faults.{number, answer};

// 01, Answer numbers 2 to 4 and 6 to 9: "lowest number within it". A fault is less than another if its number is.
#[derive(Clone, Copy, PartialEq, Eq, PartialOrd, Ord)]
pub enum Fault {
    // 2 "line not of its shape (a wrong E or V too) or place, no final byte 10, anything after `end`"
    Shape,
    // 3 "head number (also a `chart=` number but 1) or list rule broken, 65th line of a kind"
    Bound,
    // 4 "condition empty, too long or not of the grammar (T out of range too)"
    Grammar,
    // 6 "undeclared step, input or output"
    Undeclared,
    // 7 "edge atom in a hold"
    EdgeInHold,
    // 8 "latch on an output that has a hold"
    LatchOfHeld,
    // 9 "`end` total wrong"
    Total,
}

impl Fault {
    // Its answer number. Number 5 is struck.
    pub fn number(self) -> u32
        ensures { result ≡ number self }
    {
        match self {
            Fault::Shape => 2,
            Fault::Bound => 3,
            Fault::Grammar => 4,
            Fault::Undeclared => 6,
            Fault::EdgeInHold => 7,
            Fault::LatchOfHeld => 8,
            Fault::Total => 9,
        }
    }

    // This fault where it is there.
    pub fn given(self, there: bool) -> Result<(), Fault>
        ensures { answer result ≡ given (number self) there }
    {
        if there { Err(self) } else { Ok(()) }
    }
}

// The lower of two answers: a fault is lower than none.
pub fn lower(a: Result<(), Fault>, b: Result<(), Fault>) -> Result<(), Fault>
    ensures { answer result ≡ lower (answer a) (answer b) }
{
    match (a, b) {
        (Err(x), Err(y)) => Err(x.min(y)),
        (Err(x), Ok(())) => Err(x),
        (Ok(()), b) => b,
    }
}
