// Runs the sheet's lines that are not marked P over the real code, and shows how each of them ended. The cases are its stored input.
#![tactic(auto)]

fn main(rt: HostRuntime) {
    cases::run_input(rt);
}
