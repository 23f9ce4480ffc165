// The explain program: reads an image from standard input, runs it and says in words how it ended. Its arguments: the budget, and the
// mode (1: strict).
#![tactic(auto)]

fn main(rt: HostRuntime) {
    telling::explain_input(rt);
}
