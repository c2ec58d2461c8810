// The run, byte by byte: nothing but reading and writing is left to the program.
ghost use Rattle.std.specs.Prelude.{◌≡◌, []};
ghost use Rattle.text.specs.Writing.{Fitted};
ghost use Rattle.rig_log.specs.Run.{Stepped, partial, progress, progress_of, grown, bad, begun, go_step, ev_step, fed, finished};
ghost use Rattle.rig_log.specs.Transcript.{next_line, go_answer, ev_answer};

use crate::writing::write_bad;
use crate::{Block, Entry, Line, Phase, Run};
use engine::{Answer, State};

impl Run {
    // One byte more of the input. What is said at it stands at the front of `out`; the result is how many bytes that is.
    pub fn feed(&mut self, b: u8, chart: &[u8], out: &mut [u8; Block::BYTES]) -> usize
        ensures { Stepped (fed chart.now (progress_of self.old) b) out.old out.new self.new result }
    {
        match self.phase {
            Phase::Over => 0,
            Phase::Waiting if b == b'\n' => {
                let entry = self.line.entry();
                self.go(entry, chart, out)
            }
            Phase::Running(number, state) if b == b'\n' => {
                let entry = self.line.entry();
                self.ev(entry, number, state, chart, out)
            }
            _ => {
                self.grow(b);
                0
            }
        }
    }

    // A byte more of the line. Of a line that is too long the first 32 are kept.
    fn grow(&mut self, b: u8)
        ensures line { partial self.new.line ≡ grown (partial self.old.line) b }
        ensures phase { self.new.phase ≡ self.old.phase }
    {
        let at = self.line.length;
        if at < Run::LINE {
            self.line.bytes[at] = b;
            self.line.length = at + 1;
        }
    }

    // The first line.
    fn go(&mut self, entry: Option<Entry>, chart: &[u8], out: &mut [u8; Block::BYTES]) -> usize
        ensures { Stepped (go_step chart.now entry) out.old out.new self.new result }
    {
        match entry {
            Some(Entry::Go(inputs)) => {
                let answer = start(chart, inputs);
                self.go_on(begun(answer));
                Block::from(answer).write(out)
            }
            // Two arms: where `|` joins them, the proof knows of the entry only a sum of both cases, and it did not close.
            Some(Entry::Event(_, _)) => self.bad(1, out),
            None => self.bad(1, out),
        }
    }

    // A later line, with its number and the state held.
    fn ev(
        &mut self,
        entry: Option<Entry>,
        number: u64,
        state: State,
        chart: &[u8],
        out: &mut [u8; Block::BYTES],
    ) -> usize
        ensures { Stepped (ev_step chart.now number state entry) out.old out.new self.new result }
    {
        match entry {
            Some(Entry::Event(elapsed, inputs)) => {
                let answer = event(chart, state, elapsed, inputs);
                self.go_on(Phase::Running(next_line(number), answer.state));
                Block::from(answer).write(out)
            }
            // Two arms, as in `go`.
            Some(Entry::Go(_)) => self.bad(number, out),
            None => self.bad(number, out),
        }
    }

    // A wrong line ends the run.
    fn bad(&mut self, number: u64, out: &mut [u8; Block::BYTES]) -> usize
        ensures { Stepped (bad number) out.old out.new self.new result }
    {
        self.go_on(Phase::Over);
        write_bad(out, number)
    }

    // The next line begins.
    fn go_on(&mut self, phase: Phase)
        ensures { progress_of self.new ≡ progress phase [] }
    {
        self.phase = phase;
        self.line = Line::new();
    }

    // What is said where the input ends.
    pub fn finish(&self, out: &mut [u8; Block::BYTES]) -> usize
        ensures { Fitted 0 (finished (progress_of self.now)) out.old out.new result }
    {
        let begun = 0 < self.line.length;
        match self.phase {
            Phase::Waiting => write_bad(out, 1),
            Phase::Running(number, _) => { if begun { write_bad(out, number) } else { 0 } }
            Phase::Over => 0,
        }
    }
}

// What is written of an answer.
impl From<Answer> for Block {
    ghost from_gives = { λ a r. r ≡ record { number = a.number; count = a.count; situation = a.state.situation; outputs = a.outputs } };

    fn from(a: Answer) -> Block {
        Block {
            number: a.number,
            count: a.count,
            situation: a.state.situation,
            outputs: a.outputs,
        }
    }
}

// 01: "A refused start ends it after its block".
fn begun(a: Answer) -> Phase
    ensures { progress result [] ≡ begun a }
{
    if a.number == 0 {
        Phase::Running(2, a.state)
    } else {
        Phase::Over
    }
}

// The engine's two calls with no trace.
fn start(chart: &[u8], inputs: u32) -> Answer
    ensures { result ≡ go_answer chart.now inputs }
{
    engine::start(chart, inputs, &mut [])
}

fn event(chart: &[u8], state: State, elapsed: u32, inputs: u32) -> Answer
    ensures { result ≡ ev_answer chart.now state elapsed inputs }
{
    engine::event(chart, state, elapsed, inputs, &mut [])
}

fn next_line(number: u64) -> u64
    ensures { result ≡ next_line number }
{
    number.saturating_add(1)
}
