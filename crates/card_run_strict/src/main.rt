// The run program in strict mode. Its stored input is the calibration sample.
#![tactic(auto)]

fn main(rt: HostRuntime) {
    card::run_input(rt, true);
}
