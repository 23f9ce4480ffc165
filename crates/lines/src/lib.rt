// How a program that tells of an image ends, and the whole numbers in its arguments.
#![tactic(auto)]

pub mod numbers;
pub mod status;

use crate::status::Status;

/// Says the status as the last line on standard error.
pub fn end(rt: &impl Eprint, status: impl Into<u32>) {
    let status: u32 = status.into();
    let _ = eprintln!(rt; "status {status}");
}

/// Says what could not be done, and ends with the status of that.
pub fn give_up(rt: &impl Eprint, sentence: &str) {
    let _ = eprintln!(rt; "{sentence}");
    end(rt, Status::NotTold);
}
