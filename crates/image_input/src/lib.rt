// The words of an image on standard input, written to standard output in a form without registers and entry. What went wrong goes to
// standard error, `refused N` or a sentence; and so does what such a form cannot say.
#![tactic(auto)]

ghost use Rattle.std.specs.Prelude.{IfSome};
ghost use Rattle.std.specs.Counts.{IsPrefixLen};

use answers::Refusal;
use loader::room::Room;
use machine::Processor;

// As many as an image may have.
const WORDS: usize = 2048;

// The form has the entry 0 and no registers.
fn tell_lost(rt: HostRuntime, cpu: Processor) {
    if cpu.pc != 0 {
        let _ = eprintln!(rt; "lost entry");
    }
    if cpu.regs.iter().any(|value| *value != 0) {
        let _ = eprintln!(rt; "lost registers");
    }
}

/// Fills the words of the image; answers how many there are, or nothing where there is none, which was said.
pub fn read_words(rt: HostRuntime, words: &mut [u32; WORDS]) -> Option<usize>
    ensures { IfSome result (λ n. IsPrefixLen n words.new) }
{
    let mut bytes = [0; 8273];
    let Ok(n) = streams::read_all(&mut rt.stdin(), &mut bytes) else {
        let _ = eprintln!(rt; "the image could not be read");
        return None;
    };
    let mut room = Room::<WORDS>::new();
    let l = room.load(false, &bytes[..n]);
    *words = room.words;
    if let Err(refusal) = l.answer {
        let _ = eprintln!(rt; "refused {}", u32::from(refusal));
        return None;
    }
    let cpu = l.cpu;
    tell_lost(rt, cpu);
    Some(streams::within(cpu.n as usize, words))
}

/// A form that words are written in.
pub trait Form {
    /// What it is called in a sentence.
    const NAME: &'static str;

    /// Puts the words at the front of a buffer; answers how long they are there.
    fn put(words: &[u32], out: &mut [u8]) -> Result<usize, Refusal>;
}

/// Writes the words of the image in a form, which puts them into the lent buffer.
pub fn write_words<F: Form>(rt: HostRuntime, buffer: &mut [u8]) {
    let mut words = [0; WORDS];
    if let Some(n) = read_words(rt, &mut words) {
        let length = F::put(&words[..n], buffer).unwrap_or(0);
        let length = streams::within(length, buffer);
        if streams::write_all(&mut rt.stdout(), &buffer[..length]).is_err() {
            let name = F::NAME;
            let _ = eprintln!(rt; "the {name} could not be written");
        }
    }
}
