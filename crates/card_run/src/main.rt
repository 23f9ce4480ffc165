// The run program: runs the image on standard input and prints what came of it. Its stored input is image one.
#![tactic(auto)]

fn main(rt: HostRuntime) {
    card::run_input(rt, false);
}
