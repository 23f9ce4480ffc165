// The run program, whose stored input here is the two makers' image of samples/.
#![tactic(auto)]

fn main(rt: HostRuntime) {
    card::run_input(rt, false);
}
