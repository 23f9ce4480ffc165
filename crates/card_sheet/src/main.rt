// The sheet program: runs the images of the files that standard input names, and prints a line for each and the totals. Its files are in data/.
#![tactic(auto)]

fn main(rt: HostRuntime) {
    night::make_sheet(rt, false);
}
