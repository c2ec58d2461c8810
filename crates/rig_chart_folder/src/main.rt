// The rig's program where `chart.txt` is a folder: it opens and cannot be read, and counts as empty text.
#![tactic(auto)]

fn main(rt: HostRuntime) {
    pipe::serve(&rt);
}
