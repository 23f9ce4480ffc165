// The import program: reads a text of Intel HEX from standard input and writes its image to standard output, and nothing else there. The
// entry is its first argument, in decimal, or 0; all registers are 0. What went wrong goes to standard error: `refused N line L`, or a
// sentence.
#![tactic(auto)]

use answers::Fault;
use image_output::{Text, write_image};
use std::env::FillError;
use std::rt::Env;

// A number of decimal digits; a larger one is told as the largest, and so is what is none: no memory reaches so far.
fn number(digits: &[u8]) -> u32 {
    digits.iter().fold(0, |value, b| match b {
        b'0'..=b'9' => value.saturating_mul(10).saturating_add((*b - b'0') as u32),
        _ => u32::MAX,
    })
}

// The entry that is asked for.
fn entry(rt: HostRuntime) -> u32 {
    let mut digits = [0; 16];
    match rt.arg(1, &mut digits) {
        Ok(n) => number(&digits[..n]),
        Err(FillError::NotPresent) => 0,
        Err(FillError::TooLong) => u32::MAX,
    }
}

// A text of Intel HEX, and the entry of its image.
#[derive(Clone, Copy)]
struct Hex {
    entry: u32,
}

impl Text for Hex {
    const NAME: &'static str = "text";

    fn make(&self, text: &[u8], image: &mut [u8]) -> Result<usize, Fault> {
        importer::import(text, &[0; 16], self.entry, image)
    }
}

fn main(rt: HostRuntime) {
    let entry = entry(rt);
    write_image(rt, &Hex { entry });
}
