// The writer's cases: what it writes is loaded, and what was loaded is written again.
use crate::image::{MOST, ROOM, sixteen, word};
use crate::loading;
use crate::showing::sum;
use machine::Processor;

// What a buffer for images holds before a write.
const MARK: u8 = 170;

// The words and the record that an image was loaded into, written again: whether they are the same bytes, and the room beyond them as it
// was.
pub(crate) fn show_rewritten(rt: HostRuntime, bytes: &[u8], words: &[u32], cpu: Processor) {
    let regs = cpu.regs;
    let n = words.len().min(cpu.n as usize);
    let mut out = [MARK; ROOM];
    let w = writer::write(&words[..n], &regs, cpu.pc, &mut out);
    let length = w.unwrap_or(0).min(ROOM);
    let same = bytes == &out[..length];
    let kept = out[length..].iter().all(|b| *b == MARK);
    let _ = println!(rt;
        " answer {} length {} same {} kept {}",
        answers::answer_of(&w),
        w.unwrap_or(0),
        same as u8,
        kept as u8
    );
}

// Write, then load into memories of as many places.
fn show_back(rt: HostRuntime, words: &[u32], regs: &[u32; 16], entry: u32, out: &mut [u8]) {
    let w = writer::write(words, regs, entry, out);
    let _ = print!(rt;
        " answer {} length {} out {}\nback",
        answers::answer_of(&w),
        w.unwrap_or(0),
        sum(out)
    );
    let length = out.len().min(w.unwrap_or(0));
    loading::show_loaded(rt, false, &out[..length], [words.len(); 5]);
}

// The registers are the bytes' first sixteen words; how many words, the entry and the room are handed in.
pub(crate) fn show_written(rt: HostRuntime, bytes: &[u8], given: [usize; 5]) {
    let mut words = [0u32; MOST];
    for (i, w) in words.iter_mut().enumerate() {
        *w = word(i);
    }
    let mut out = [MARK; ROOM];
    show_back(
        rt,
        &words[..given[0].min(MOST)],
        &sixteen(bytes),
        (given[1] % 4294967296) as u32,
        &mut out[..given[2].min(ROOM)],
    );
}
