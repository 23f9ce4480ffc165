// Cases written as text: images are put together word by word, and each case is run and shown under its name. Printing has no contract.
#![tactic(auto)]

mod damage;
mod image;
mod lines;
mod loading;
mod reading;
mod running;
mod showing;
mod writing;

// Runs the cases on standard input.
pub fn run_input(rt: HostRuntime) {
    let mut text = [0u8; 65536];
    let n = streams::read_all(&mut rt.stdin(), &mut text).unwrap_or_else(|cut| cut.count);
    lines::run_lines(rt, &text[..n]);
}
