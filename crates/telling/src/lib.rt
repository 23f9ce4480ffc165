// What explain, trace and map tell of an image in words. The facts come from calls whose promises are whole; the wording has no contract.
#![tactic(auto)]

pub mod explain;
pub mod trace;

use lines::numbers::argument;
use lines::status::Status;
use lines::{end, give_up};
use std::io;

// Ends as what was told came to, or says that it could not be written.
fn ends(rt: HostRuntime, told: io::Result<Status>) {
    match told {
        Ok(status) => end(&rt, status),
        Err(_) => give_up(&rt, "the text could not be written"),
    }
}

/// Explains the image on standard input.
pub fn explain_input(rt: HostRuntime) {
    let mut bytes = [0u8; 8273];
    let Ok(n) = streams::read_all(&mut rt.stdin(), &mut bytes) else {
        return give_up(&rt, "the image could not be read");
    };
    let budget = argument(&rt, 1, 100000);
    let strict = argument(&rt, 2, 0) == 1;
    ends(rt, explain::explain(&rt, strict, &bytes[..n], budget));
}

/// Traces the image on standard input.
pub fn trace_input(rt: HostRuntime) {
    let mut bytes = [0u8; 8273];
    let Ok(n) = streams::read_all(&mut rt.stdin(), &mut bytes) else {
        return give_up(&rt, "the image could not be read");
    };
    let from = argument(&rt, 1, 0);
    let steps = argument(&rt, 2, u32::MAX);
    let strict = argument(&rt, 3, 0) == 1;
    ends(rt, trace::trace(&rt, strict, &bytes[..n], from, steps));
}
