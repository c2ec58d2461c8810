// Runs the cases of standard input, each a chart's text and a log, as the rig's program would, and writes what it would write. The cases and
// what this must write come from two implementations that were made from the paper alone and agree; the last nine, the rig's runs at their edges
// and the charts of examples/, were worked out by hand.
#![tactic(auto)]

ghost use Rattle.std.specs.Prelude.{[], ◌≡◌};
ghost use Rattle.rig_log.specs.Run.{waiting, fed, fed_all, progress_of};

use casebook::Head;
use rig_log::{Block, Run};

fn main(rt: HostRuntime) {
    casebook::run_input(&rt, |text, head| run_case(&rt, text, head));
}

// A case's numbers are the bytes of its chart and of its log.
fn run_case(rt: &impl Print, text: &[u8], head: Head) -> usize {
    let log = casebook::sum(head.end, head.first);
    let end = casebook::sum(log, head.second);
    run_log(
        rt,
        casebook::part(text, head.end, log),
        casebook::part(text, log, end),
    );
    end
}

fn run_log(rt: &impl Print, chart: &[u8], input: &[u8]) {
    let run = feed_all(rt, input, chart);
    let mut said = [0u8; Block::BYTES];
    let n = run.finish(&mut said);
    casebook::write(rt, &said[..n]);
}

// A new run, and the bytes of its input one by one.
fn feed_all(rt: &impl Print, input: &[u8], chart: &[u8]) -> Run
    ensures { progress_of result ≡ (fed_all chart.now (waiting []) input.now).next }
{
    let mut run = Run::new();
    for b in input {
        feed(rt, &mut run, *b, chart);
    }
    run
}

fn feed(rt: &impl Print, run: &mut Run, b: u8, chart: &[u8])
    ensures { progress_of run.new ≡ (fed chart.now (progress_of run.old) b).next }
{
    let mut said = [0u8; Block::BYTES];
    let n = run.feed(b, chart, &mut said);
    casebook::write(rt, &said[..n]);
}
