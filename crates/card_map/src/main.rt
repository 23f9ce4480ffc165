// The map program: reads an image from standard input, runs it and draws its memory at the end of the run. Its arguments: the budget, the
// mode (1: strict), and the form (1: a picture in SVG, otherwise text).
#![tactic(auto)]

fn main(rt: HostRuntime) {
    maps::map_input(rt);
}
