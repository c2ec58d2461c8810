// The rig's program: it runs the chart of `chart.txt` on the log of its standard input. Its test is the paper's rig log, whole.
#![tactic(auto)]

fn main(rt: HostRuntime) {
    pipe::serve(&rt);
}
