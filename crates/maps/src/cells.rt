// What is drawn of one word: its owner's character, and its marks.
use machine::Processor;
use memory::{Memories, set_at, word_at};

// The marks of a word.
#[derive(Clone, Copy, PartialEq, Eq)]
pub(crate) enum Mark {
    Pc,
    Jump,
    Store,
    Read,
}

impl Mark {
    pub(crate) const ALL: [Mark; 4] = [Mark::Pc, Mark::Jump, Mark::Store, Mark::Read];
}

// How many of the marks a mode has: readers are kept in strict mode alone.
pub(crate) fn kinds(strict: bool) -> u32 {
    if strict { 4 } else { 3 }
}

// A word's tags, and whether pc stands there.
#[derive(Clone, Copy)]
pub(crate) struct Cell {
    pub(crate) owner: u32,
    pub(crate) jumpers: u64,
    pub(crate) writers: u64,
    pub(crate) readers: u64,
    pub(crate) here: bool,
    pub(crate) strict: bool,
}

impl Cell {
    // What is known of word x.
    pub(crate) fn at(x: u32, cpu: Processor, lent: &Memories<'_>) -> Cell {
        Cell {
            owner: word_at(lent.owners, x),
            jumpers: set_at(lent.jumpers, x),
            writers: set_at(lent.writers, x),
            readers: set_at(lent.readers, x),
            here: cpu.pc == x,
            strict: cpu.strict,
        }
    }

    pub(crate) fn has(self, mark: Mark) -> bool {
        match mark {
            Mark::Pc => self.here,
            Mark::Jump => granted(self.strict, self.jumpers),
            Mark::Store => self.writers != 0,
            Mark::Read => self.strict && self.readers != 0,
        }
    }
}

// The character of a compartment's number.
pub(crate) fn glyph(owner: u32) -> char {
    let all = b"0123456789abcdefghijklmnopqrstuvwxyzABCDEFGHIJKLMNOPQRSTUVWXYZ+*";
    all.get(owner as usize)
        .map_or('?', |sign| char::from(*sign))
}

// Whether a set has a number that owns no service: the services may return to every word, and that is no grant to mark.
fn granted(strict: bool, set: u64) -> bool {
    let above = if strict { set / 32 } else { set / 16 };
    set % 2 == 1 || above != 0
}

// How many words a compartment owns.
pub(crate) fn words_of(c: u32, n: u32, owners: &[u32]) -> usize {
    owners
        .iter()
        .take(n as usize)
        .filter(|owner| **owner == c)
        .count()
}
