// The import program: it brings in the SFC text of `sfc.txt`. Its test is the quarter-turn rig of examples/sfc.
#![tactic(auto)]

fn main(rt: HostRuntime) {
    clerk::serve(&rt);
}
