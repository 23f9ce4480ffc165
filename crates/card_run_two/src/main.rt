// The run program, whose stored input here is image two.
#![tactic(auto)]

fn main(rt: HostRuntime) {
    card::run_input(rt, false);
}
