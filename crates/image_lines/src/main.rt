// Runs the loader, the check and the writer on each refusal's two sides, on cut and damaged images, and there and back. The cases are its stored input.
#![tactic(auto)]

fn main(rt: HostRuntime) {
    cases::run_input(rt);
}
