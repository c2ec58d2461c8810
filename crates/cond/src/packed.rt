// What the readers hand on.
ghost use Rattle.std.specs.Prelude.{◌≡◌, ◌/◌, ◌%◌, ◌≤◌, eqb};
ghost use Rattle.cond.specs.Bounds.{longest};
ghost use Rattle.cond.specs.Packed.{good, pack};

// A part that was read, or that there is none: 16 times the place after it, and a bit each for edge (4), undeclared (2) and value (1); 8 for none.
// One word in place of an Option keeps a bracket's stack to 48 bytes (docs/DECISIONS.md, "Words instead of enums inside the recursion"), and what is
// handed down beside it is words for the same cause.
#[derive(Clone, Copy)]
pub(crate) struct Part(pub(crate) u32);

impl Part {
    pub(crate) const NONE: Part = Part(8);

    pub(crate) fn new(end: usize, value: bool, undeclared: bool, edge: bool) -> Self
        requires { end ≤ longest }
        ensures { result.0 ≡ pack (good end (record { value = value; undeclared = undeclared; edge = edge })) }
    {
        let marks = 4 * u32::from(edge) + (2 * u32::from(undeclared) + u32::from(value));
        Part(16 * end as u32 + marks)
    }

    pub(crate) fn is_none(self) -> bool
        ensures { result ≡ eqb self.0 8 }
    {
        self.0 == 8
    }

    // The place after it.
    pub(crate) fn end(self) -> usize
        ensures { result ≡ self.0 / 16 }
    {
        (self.0 / 16) as usize
    }

    // Its bits.
    pub(crate) fn marks(self) -> u32
        ensures { result ≡ self.0 % 16 }
    {
        self.0 % 16
    }

    pub(crate) fn value(self) -> bool
        ensures { result ≡ eqb (self.0 % 2) 1 }
    {
        self.0 % 2 == 1
    }

    pub(crate) fn undeclared(self) -> bool
        ensures { result ≡ eqb (self.0 / 2 % 2) 1 }
    {
        self.0 / 2 % 2 == 1
    }

    pub(crate) fn edge(self) -> bool
        ensures { result ≡ eqb (self.0 / 4 % 2) 1 }
    {
        self.0 / 4 % 2 == 1
    }
}
