// The sheet program in strict mode. Its files are in data/.
#![tactic(auto)]

fn main(rt: HostRuntime) {
    night::make_sheet(rt, true);
}
