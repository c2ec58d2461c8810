// The program's reading and writing: the chart from `chart.txt`, the log from standard input, the answers to standard output. What is read
// and written no contract can say; what the loop keeps in between they do. All that decides an answer is in `rig_log`, whose run this feeds.
#![tactic(auto)]

mod page;

ghost use Rattle.std.specs.Prelude.{[], ◌≡◌};
ghost use Rattle.rig_log.specs.Run.{waiting, over, fed_all, progress_of};
ghost use Rattle.pipe.specs.Loop.{FedPage, Leads};

use arrayvec::ArrayVec;
use line::Head;
use page::{PAGE, gather, write};
use rig_log::{Block, Phase, Run};
use std::io::Read;
use std::rt::Files;

// One byte more than a chart's text may have: enough to know that it is too long.
const CHART: usize = Head::TEXT + 1;

// A whole run. It ends with the input, with a wrong line or with a refused start.
pub fn serve(rt: &(impl Files + Input + Print)) {
    let mut chart = [0u8; CHART];
    let n = files::read_file(rt, b"chart.txt", &mut chart);
    serve_chart(rt, &chart[..n]);
}

// A run lasts at most as many reads as a 64-bit number counts. The result is the run where it is left.
fn serve_chart(rt: &(impl Input + Print), chart: &[u8]) -> Run
    ensures { Leads chart.now (waiting []) (progress_of result) }
{
    let mut input = rt.reader();
    let mut run = Run::new();
    for _ in 0..u64::MAX {
        turn(rt, &mut input, &mut run, chart);
        if matches!(run.phase, Phase::Over) {
            return run;
        }
    }
    run
}

// One read, and the answers to all lines that end in it, written before the next read.
fn turn(rt: &impl Print, reader: &mut impl Read, run: &mut Run, chart: &[u8])
    ensures { Leads chart.now (progress_of run.old) (progress_of run.new) }
{
    let mut input = [0u8; PAGE];
    match files::read_again(reader, &mut input) {
        Ok(0) | Err(_) => finish(rt, run),
        Ok(n) => feed_all(rt, run, &input[..n], chart),
    }
}

fn feed_all(rt: &impl Print, run: &mut Run, input: &[u8], chart: &[u8])
    ensures { progress_of run.new ≡ (fed_all chart.now (progress_of run.old) input.now).next }
{
    let mut page = ArrayVec::new();
    feed_page(rt, run, input, chart, &mut page);
    write(rt, page.as_slice());
}

// Bytes fed one by one, and what they say gathered on a page.
fn feed_page(
    rt: &impl Print,
    run: &mut Run,
    input: &[u8],
    chart: &[u8],
    page: &mut ArrayVec<u8, PAGE>,
)
    ensures { FedPage chart.now PAGE (progress_of run.old) input.now page.old.items run.new page.new.items }
{
    let mut said = [0u8; Block::BYTES];
    for b in input {
        let written = run.feed(*b, chart, &mut said);
        gather(rt, page, &said[..written]);
    }
}

// The input has ended, or cannot be read.
fn finish(rt: &impl Print, run: &mut Run)
    ensures { progress_of run.new ≡ over }
{
    let mut said = [0u8; Block::BYTES];
    let written = run.finish(&mut said);
    write(rt, &said[..written]);
    run.phase = Phase::Over;
}
