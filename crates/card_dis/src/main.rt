// The disassembler program: reads an image from standard input and writes a source of its words to standard output, and nothing else
// there. What went wrong goes to standard error: `refused N`, or a sentence; and so does what a source cannot say.
#![tactic(auto)]

use answers::Refusal;
use image_input::{Form, write_words};

// A source, one line a word.
struct Source;

impl Form for Source {
    const NAME: &'static str = "source";

    fn put(words: &[u32], out: &mut [u8]) -> Result<usize, Refusal> {
        disassembler::disassemble(words, out)
    }
}

fn main(rt: HostRuntime) {
    write_words::<Source>(rt, &mut [0; 32768]);
}
