// Runs images of every kind of answer as the run program runs them. The images are its stored input.
#![tactic(auto)]

fn main(rt: HostRuntime) {
    cases::run_input(rt);
}
