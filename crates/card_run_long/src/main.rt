// The run program, whose stored input here is the longest image with 1,728 bytes after it.
#![tactic(auto)]

fn main(rt: HostRuntime) {
    card::run_input(rt, false);
}
