// The export program: reads an image from standard input and writes its words as a text in the Intel HEX format to standard output, and
// nothing else there. What went wrong goes to standard error: `refused N`, or a sentence; and so does what the format cannot say.
#![tactic(auto)]

use answers::Refusal;
use image_input::{Form, write_words};

// A text of Intel HEX.
struct Hex;

impl Form for Hex {
    const NAME: &'static str = "text";

    fn put(words: &[u32], out: &mut [u8]) -> Result<usize, Refusal> {
        exporter::export(words, out)
    }
}

fn main(rt: HostRuntime) {
    write_words::<Hex>(rt, &mut [0; 22540]);
}
