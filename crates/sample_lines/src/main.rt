// Assembles each sample's source and compares it with the sample's image; then writes the image's words as a source, assembles that, and
// compares again. The samples stand in data/, as in samples/ at the root.
#![tactic(auto)]

use loader::room::Room;
use std::fs::File;

// No image is longer; and one byte more, which tells that a file is none.
const IMAGE: usize = 8273;

// The bytes of a file at the front of the buffer; none where it cannot be read.
fn take<'a>(rt: HostRuntime, path: &str, buffer: &'a mut [u8]) -> &'a [u8] {
    let n = match File::open(&rt, path) {
        Ok(mut file) => streams::read_all(&mut file, buffer).unwrap_or_else(|cut| cut.count),
        Err(_) => 0,
    };
    let n = streams::within(n, buffer);
    &buffer[..n]
}

// Whether a text assembles to an image.
fn assembles(text: &[u8], image: &[u8]) -> bool {
    let mut out = [0; IMAGE];
    match assembler::assemble(text, &mut out) {
        Ok(length) => &out[..streams::within(length, &out)] == image,
        Err(_) => false,
    }
}

// Whether the listing of an image's words assembles to it.
fn lists(image: &[u8]) -> bool {
    let mut room = Room::<2048>::new();
    let l = room.load(false, image);
    let cpu = l.cpu;
    let n = streams::within(cpu.n as usize, &room.words);
    let mut text = [0; 32768];
    let length = disassembler::disassemble(&room.words[..n], &mut text).unwrap_or(0);
    assembles(&text[..streams::within(length, &text)], image)
}

fn judged(good: bool) -> &'static str {
    if good { "yes" } else { "NO" }
}

fn main(rt: HostRuntime) {
    for (name, source, image) in [
        ("one", "one.kl", "one.img"),
        ("two", "two.kl", "two.img"),
        ("makers", "makers.kl", "makers.img"),
        ("lesson", "lesson.kl", "lesson.img"),
        ("calibration", "calibration.kl", "calibration.img"),
    ] {
        let mut text = [0; 65536];
        let mut bytes = [0; IMAGE];
        let text = take(rt, source, &mut text);
        let image = take(rt, image, &mut bytes);
        let _ = println!(rt;
            "{name}: assembles to its image {}, its listing too {}",
            judged(assembles(text, image)),
            judged(lists(image))
        );
    }
}
