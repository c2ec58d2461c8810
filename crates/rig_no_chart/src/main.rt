// The rig's program where there is no `chart.txt`: it counts as empty text.
#![tactic(auto)]

fn main(rt: HostRuntime) {
    pipe::serve(&rt);
}
