// The rig's log: its lines read, the block of four lines that answers each, and the whole run, byte by byte.
#![tactic(auto)]

mod feeding;
mod reading;
mod writing;

ghost use Rattle.std.specs.Prelude.{◌≡◌, []};
ghost use Rattle.rig_log.specs.Entries.{entry_of};
ghost use Rattle.rig_log.specs.Run.{partial, progress_of, waiting};

use engine::State;
pub use reading::read_line;
pub use writing::write_bad;

// What a line of the input says.
#[derive(Clone, Copy)]
pub enum Entry {
    // `go=W`
    Go(u32),
    // `ev=E:W`: elapsed ms and inputs
    Event(u32, u32),
}

// The four numbers of an answer that are written.
#[derive(Clone, Copy)]
pub struct Block {
    pub number: u32,
    pub count: u32,
    pub situation: u32,
    pub outputs: u32,
}

impl Block {
    // The room that a block or a `bad=` line is written to: more than any takes.
    pub const BYTES: usize = 64;
}

// Where a run stands: its `go` is awaited; an `ev` line is, by its number, with the state held; or it is over.
#[derive(Clone, Copy)]
pub enum Phase {
    Waiting,
    Running(u64, State),
    Over,
}

// The bytes of a line so far: the first `length` of them, or all. A caller may keep a run aside and go back to it, so a run is Copy, and its line
// is no ArrayVec, which is not.
#[derive(Clone, Copy)]
pub struct Line {
    pub bytes: [u8; Run::LINE],
    pub length: usize,
}

impl Line {
    // No byte yet.
    fn new() -> Self
        ensures { partial result ≡ [] }
    {
        Line {
            bytes: [0; Run::LINE],
            length: 0,
        }
    }

    // What the line says, where it ends here.
    fn entry(&self) -> Option<Entry>
        ensures { result ≡ entry_of (partial self.now) }
    {
        read_line(&self.bytes[..self.length.min(Run::LINE)])
    }
}

// A run that is under way, with its line.
#[derive(Clone, Copy)]
pub struct Run {
    pub phase: Phase,
    pub line: Line,
}

impl Run {
    // More bytes than any line of the log has: of a longer line these are enough to know that it is wrong.
    pub const LINE: usize = 32;

    // A run whose `go` is awaited.
    pub fn new() -> Self
        ensures { progress_of result ≡ waiting [] }
    {
        Run {
            phase: Phase::Waiting,
            line: Line::new(),
        }
    }
}
