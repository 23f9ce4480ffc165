// The bytes by their addresses: a place holds its byte, or 256 where none was given.
ghost use Rattle.std.specs.Prelude.{◌≡◌, map, ◌+◌, ◌≤◌, length};
ghost use Rattle.std.proofs.lemmas.List.Edits.{sets};
ghost use Rattle.rules.specs.Images.{field, fields, over};
ghost use Rattle.intel_hex.specs.Records.{octets};
ghost use Rattle.intel_hex.specs.Reading.{given};
ghost use Rattle.intel_hex.specs.Importing.{past, filled};

use crate::records::octet;

// 2,048 words in bytes.
pub(crate) const ROOM: usize = 8192;

// kept: what may not change: intel_hex's `Said` holds numbers with 256 for none, and `octet` says up to 272 where a pair is no byte.
pub(crate) const NONE: u16 = 256;

// Whether some of the n places from a place on has its byte.
pub(crate) fn given(memory: &[u16], at: usize, n: usize) -> bool
    requires { at + n ≤ length memory.now }
    ensures { result ≡ given memory.now at n }
{
    let places = &memory[at..at + n];
    for x in places {
        if *x < NONE {
            return true;
        }
    }
    false
}

// Puts the n bytes of a record's data to their places.
pub(crate) fn put(memory: &mut [u16; ROOM], at: usize, pairs: &[u8], n: usize)
    requires { (n ≤ 272) × (at + n ≤ 8192) }
    ensures { memory.new ≡ sets memory.old at (octets pairs.now 4 n) }
{
    for i in 0..n {
        memory[at + i] = octet(pairs, 4 + i) as u16;
    }
}

// One past the highest place that has its byte, and 0 where none has.
pub(crate) fn past(memory: &[u16]) -> usize
    ensures { result ≡ past memory.now }
{
    for k in (0..memory.len()).rev() {
        if memory[k] < NONE {
            return k + 1;
        }
    }
    0
}

// The byte of a place; a gap is filled with 0.
fn filled(x: u16) -> u8
    ensures { result ≡ filled x }
{
    u8::try_from(x).unwrap_or(0)
}

// The word of the four places from a place on.
fn word(memory: &[u16], at: usize) -> u32
    requires { at + 4 ≤ length memory.now }
    ensures { result ≡ field (map filled memory.now) at }
{
    let b0 = filled(memory[at]);
    let b1 = filled(memory[at + 1]);
    let b2 = filled(memory[at + 2]);
    let b3 = filled(memory[at + 3]);
    reader::number(b0, b1, b2, b3)
}

// The first n words.
pub(crate) fn fill(words: &mut [u32; 2048], memory: &[u16; ROOM], n: usize)
    requires { (n ≤ 2048) × (length words.old ≡ 2048) }
    ensures { words.new ≡ over (fields (map filled memory.now) 0 n) words.old }
{
    for i in 0..n {
        words[i] = word(memory, 4 * i);
    }
}
