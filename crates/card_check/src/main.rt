// The check program: prints how many words the image on standard input has, or why it is refused. Its stored input is image two.
#![tactic(auto)]

fn main(rt: HostRuntime) {
    card::check_input(rt);
}
