// An image cut at every length, and with each byte changed.
use crate::image::{Image, ROOM};
use crate::loading::{Sums, loaded_over_marks};

// How many places each memory has.
const PLACES: usize = 4;

// Told in the answer's place where a refusal changed a memory's sum.
const CHANGED: u32 = 999;

// Shows the loader's answer.
fn show_answer(rt: HostRuntime, bytes: &[u8]) {
    let l = loaded_over_marks(false, bytes, [PLACES; 5]);
    let kept = l.answer.is_ok() || l.left == Sums::of_marks(PLACES);
    let _ = print!(rt;
        " {}",
        if kept {
            answers::answer_of(&l.answer)
        } else {
            CHANGED
        }
    );
}

pub(crate) fn show_cuts(rt: HostRuntime, bytes: &[u8]) {
    for n in 0..bytes.len() {
        show_answer(rt, &bytes[..n]);
    }
    show_answer(rt, bytes);
    let _ = println!(rt; "");
}

// Adds a number to each byte in turn, round 256.
pub(crate) fn show_changes(rt: HostRuntime, image: &Image, by: usize) {
    let mut bytes = [0; ROOM];
    let given = image.bytes();
    let n = given.len().min(ROOM);
    let bytes = &mut bytes[..n];
    bytes.copy_from_slice(&given[..n]);
    for i in 0..bytes.len() {
        let byte = bytes[i];
        bytes[i] = byte.wrapping_add((by % 256) as u8);
        show_answer(rt, bytes);
        bytes[i] = byte;
    }
    let _ = println!(rt; "");
}
