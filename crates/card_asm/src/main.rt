// The assembler program: reads a source from standard input and writes its image to standard output, and nothing else there. What went
// wrong goes to standard error: `refused N line L`, or a sentence.
#![tactic(auto)]

use answers::Fault;
use image_output::{Text, write_image};

// A source.
#[derive(Clone, Copy)]
struct Source;

impl Text for Source {
    const NAME: &'static str = "source";

    fn make(&self, text: &[u8], image: &mut [u8]) -> Result<usize, Fault> {
        assembler::assemble(text, image)
    }
}

fn main(rt: HostRuntime) {
    write_image(rt, &Source);
}
