// The trace program: reads an image from standard input and writes a line for each step. Its arguments: the number of the first step that
// is told, how many are, and the mode (1: strict).
#![tactic(auto)]

fn main(rt: HostRuntime) {
    telling::trace_input(rt);
}
