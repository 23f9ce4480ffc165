// Explains the run of each source on standard input: every answer that a run from an image can come to, with its cause.
//
// A source stands behind a line `== name`, up to the line feed before the next such line or the end. A name that begins with s is run in
// strict mode. Each run has 1,000 steps.
#![tactic(auto)]

use outcomes::{Texts, print};

const BUDGET: u32 = 1000;

// The sources, of which none has a `=`.
struct Sources;

impl Texts for Sources {
    const MARK: usize = 3;

    fn ends(rest: &[u8]) -> bool {
        rest.starts_with(b"=")
    }

    fn show(rt: HostRuntime, name: &[u8], source: &[u8]) {
        print(rt, b"== ");
        print(rt, name);
        print(rt, b"\n");
        let mut image = [0; 8272];
        match assembler::assemble(source, &mut image) {
            Ok(length) => {
                let n = streams::within(length, &image);
                let strict = name.starts_with(b"s");
                let _ = telling::explain::explain(&rt, strict, &image[..n], BUDGET);
            }
            Err(_) => print(rt, b"the source was refused\n"),
        }
    }
}

fn main(rt: HostRuntime) {
    let mut text = streams::source_buffer();
    let n = streams::read_all(&mut rt.stdin(), &mut text).unwrap_or_else(|cut| cut.count);
    outcomes::show_texts::<Sources>(rt, &text[..n]);
}
