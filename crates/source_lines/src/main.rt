// Assembles the texts on standard input and prints a line for each: answer, line, length, the first words, and whether the buffer beyond
// the image kept its contents.
//
// A text stands behind a line `== name`, up to the line feed before the next such line or the end. A name that begins with 20 or 19
// has a buffer of so many bytes; all others have room for every image.
#![tactic(auto)]

use outcomes::{MARK, Shown, Texts};

// How many bytes the buffer has for a text of this name.
fn room(name: &[u8]) -> usize {
    if name.starts_with(b"20") {
        20
    } else if name.starts_with(b"19") {
        19
    } else {
        8272
    }
}

// The sources.
struct Sources;

impl Texts for Sources {
    const MARK: usize = 4;

    fn ends(rest: &[u8]) -> bool {
        rest.starts_with(b"\n== ")
    }

    // Assembles a source into a buffer of marks.
    fn show(rt: HostRuntime, name: &[u8], text: &[u8]) {
        let mut out = [MARK; 8272];
        let n = streams::within(room(name), &out);
        let out = &mut out[..n];
        let (answer, line, length) = match assembler::assemble(text, out) {
            Ok(length) => (answers::DONE, 0, length),
            Err(fault) => (u32::from(fault.refusal), fault.line, 0),
        };
        outcomes::print(rt, name);
        outcomes::print(rt, b": ");
        // the words begin behind N, and the registers, the entry's count and the entry end an image
        let words = Shown {
            first: 1,
            behind: 3,
        };
        outcomes::print_outcome(rt, answer, line, length, words, out);
    }
}

fn main(rt: HostRuntime) {
    let mut text = streams::source_buffer();
    let n = streams::read_all(&mut rt.stdin(), &mut text).unwrap_or_else(|cut| cut.count);
    outcomes::show_texts::<Sources>(rt, &text[..n]);
}
