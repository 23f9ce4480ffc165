// Words that begin with no digit: mnemonics, registers and names.
ghost use Rattle.std.specs.Prelude.{◌≡◌, ◌≤◌, ◌<◌, ◌+◌, ◌*◌};
ghost use Rattle.tokens.specs.Bytes.{unless};
ghost use Rattle.tokens.specs.Worth.{held};
ghost use Rattle.tokens.specs.Kinds.{seen};
ghost use Rattle.tokens.specs.Known.{register_of, mnemonic_of, known_of, both_seen};
ghost use Rattle.tokens.specs.Words.{spelled_at, word_at};

use crate::bytes::folded;
use crate::{Kind, Taken};

// The bytes of a word as one number, held at 2^40, which has one byte more than a mnemonic may have; and the place behind the word.
#[derive(Clone, Copy)]
pub(crate) struct Spelling {
    pub(crate) key: u64,
    pub(crate) next: usize,
}

// A number with one digit more, held at a limit.
#[tactic(auto, unfolding(crate::specs::Worth::held))]
pub(crate) fn joined(n: u64, base: u64, d: u64, limit: u64) -> u64
    requires { (n ≤ 1099511627776) × ((base ≤ 256) × (d < 256)) }
    ensures { result ≡ held limit (n * base + d) }
{
    (n * base + d).min(limit)
}

// The word at a place.
pub(crate) fn spelled(text: &[u8], at: usize) -> Spelling
    ensures { result ≡ spelled_at text.now at }
{
    let mut p = at;
    let mut key: u64 = 0;
    while p < text.len() {
        let Some(c) = folded(text[p]) else {
            break;
        };
        key = joined(key, 256, u64::from(c), 1099511627776);
        p += 1;
    }
    Spelling { key, next: p }
}

// The number of a register by its key, r0 to r9 and r10 to r15.
#[tactic(auto, unfolding(crate::specs::Known::register_of))]
fn register(key: u64) -> Option<u64>
    ensures { result ≡ unless 16 (register_of key) }
{
    match key {
        0x7230..=0x7239 => Some(key - 0x7230),
        0x723130..=0x723135 => Some(key - 0x723130 + 10),
        _ => None,
    }
}

// A mnemonic by its key, with its opcode; any other word is a name.
#[tactic(auto, unfolding(crate::specs::Known::mnemonic_of, crate::specs::Keys::find_by, grammar::specs::Spelling::words, crate::specs::Worth::worth))]
fn mnemonic(key: u64) -> (Kind, u64)
    ensures { both_seen result ≡ mnemonic_of key }
{
    match key {
        0x6e6f70 => (Kind::Plain, 0), // nop
        0x636f6e7374 => (Kind::Const, 1), // const
        0x6d6f76 => (Kind::Two, 2), // mov
        0x616464 => (Kind::Three, 3), // add
        0x737562 => (Kind::Three, 4), // sub
        0x6d756c => (Kind::Three, 5), // mul
        0x6571 => (Kind::Three, 6), // eq
        0x6c6571 => (Kind::Three, 7), // leq
        0x6c6f6164 => (Kind::Two, 8), // load
        0x73746f7265 => (Kind::Two, 9), // store
        0x6a756d70 => (Kind::One, 10), // jump
        0x6a616c => (Kind::One, 11), // jal
        0x626e7a => (Kind::Bnz, 12), // bnz
        0x68616c74 => (Kind::Plain, 13), // halt
        _ => (Kind::Name, 0),
    }
}

// What a word is, by its key.
fn known(key: u64) -> (Kind, u64)
    ensures { both_seen result ≡ known_of key }
{
    match register(key) {
        Some(number) => (Kind::Register, number),
        None => mnemonic(key),
    }
}

// The word at a place, which begins with no digit.
pub(crate) fn word(text: &[u8], place: usize) -> Taken
    ensures { seen result ≡ word_at text.now place }
{
    let s = spelled(text, place);
    let (kind, value) = known(s.key);
    Taken {
        kind,
        value,
        place,
        next: s.next,
    }
}
