// What the map's characters and marks mean.
use crate::cells::{Mark, glyph, words_of};
use machine::Ran;
use std::io;

// How a character is read.
pub(crate) const CHARACTERS: &str =
    "a character is the owner of a word: 0-9, a-z for 10-35, A-Z for 36-61, + for 62, * for 63";

impl Mark {
    pub(crate) fn meaning(self) -> &'static str {
        match self {
            Mark::Pc => "pc: where the run ended",
            Mark::Jump => {
                "jump: a word that a compartment was granted to jump to; the services may return to every word"
            }
            Mark::Store => "store: a word that a compartment was granted to store to",
            Mark::Read => "read: a word that a compartment was granted to load from",
        }
    }
}

// How the run ended, without the end of a line.
pub(crate) fn tell_end(rt: &impl Print, ran: Ran) -> io::Result<()> {
    let cpu = ran.cpu;
    print!(rt;
        "answer {} after {} steps, at pc {}",
        ran.answer, ran.count, cpu.pc
    )?;
    if cpu.n <= cpu.pc {
        print!(rt; ", which is no word")?;
    }
    print!(rt; "; N = {}", cpu.n)
}

// A compartment and how many words it has.
pub(crate) fn tell_count(rt: &impl Print, c: u32, count: usize) -> io::Result<()> {
    match count {
        1 => print!(rt; "compartment {c}: 1 word"),
        _ => print!(rt; "compartment {c}: {count} words"),
    }
}

// Each owner of a word.
pub(crate) fn tell_owners(rt: &impl Print, n: u32, owners: &[u32]) -> io::Result<()> {
    rt.println(CHARACTERS)?;
    for c in 0..64 {
        let count = words_of(c, n, owners);
        if count != 0 {
            print!(rt; "  {} ", glyph(c))?;
            tell_count(rt, c, count)?;
            println!(rt; "")?;
        }
    }
    Ok(())
}

// The first `kinds` marks, a line each.
pub(crate) fn tell_marks(rt: &impl Print, kinds: u32) -> io::Result<()> {
    for mark in Mark::ALL.iter().take(kinds as usize) {
        println!(rt; "  {}", mark.meaning())?;
    }
    Ok(())
}
