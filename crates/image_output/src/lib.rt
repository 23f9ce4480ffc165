// An image made of a text on standard input and written to standard output, and nothing else there. What went wrong goes to standard
// error: `refused N line L`, or a sentence.
#![tactic(auto)]

use answers::Fault;

// The longest text that is taken, in bytes.
const MOST: usize = 262144;

// No image is longer.
const LONGEST: usize = 8272;

/// A text of which images are made.
pub trait Text {
    /// What it is called in a sentence.
    const NAME: &'static str;

    /// Makes the image at the front of a buffer; answers its length.
    fn make(&self, text: &[u8], image: &mut [u8]) -> Result<usize, Fault>;
}

/// Reads a text to its end and writes the image that is made of it.
pub fn write_image<T: Text>(rt: HostRuntime, of: &T) {
    let name = T::NAME;
    let mut text = streams::source_buffer();
    let Ok(n) = streams::read_all(&mut rt.stdin(), &mut text) else {
        let _ = eprintln!(rt; "the {name} could not be read");
        return;
    };
    if n > MOST {
        let _ = eprintln!(rt; "the {name} is longer than 262,144 bytes");
        return;
    }
    let mut image = [0; LONGEST];
    match of.make(&text[..n], &mut image) {
        Ok(length) => {
            let length = streams::within(length, &image);
            if streams::write_all(&mut rt.stdout(), &image[..length]).is_err() {
                let _ = eprintln!(rt; "the image could not be written");
            }
        }
        Err(fault) => {
            let _ = eprintln!(rt; "refused {} line {}", u32::from(fault.refusal), fault.line);
        }
    }
}
