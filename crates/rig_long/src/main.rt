// The rig's program on a log of 721 lines: several reads of input and several pages of output.
#![tactic(auto)]

fn main(rt: HostRuntime) {
    pipe::serve(&rt);
}
