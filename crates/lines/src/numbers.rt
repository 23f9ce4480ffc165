// Whole numbers in the program's arguments.
use std::rt::Env;

// Numbers from this on take no further digit.
const FULL: u32 = 429496729;

// A decimal digit goes on a number; a number past 32 bits stays at the largest.
fn grown(number: u32, digit: u8) -> u32 {
    match digit.checked_sub(b'0') {
        None => number,
        Some(_) if number >= FULL => u32::MAX,
        Some(d) => number * 10 + u32::from(d % 10),
    }
}

fn value(digits: &[u8]) -> u32 {
    digits.iter().fold(0, |number, digit| grown(number, *digit))
}

/// Argument i as a number, or the one that is meant where it is missing.
pub fn argument(rt: &impl Env, i: usize, otherwise: u32) -> u32 {
    let mut digits = [0u8; 16];
    match rt.arg(i, &mut digits) {
        Ok(n) if n > 0 => value(&digits[..n]),
        _ => otherwise,
    }
}
