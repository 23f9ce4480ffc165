// Words that begin with a digit: numbers, decimal and hexadecimal.
ghost use Rattle.std.specs.Prelude.{◌≡◌, ◌≤◌, ◌<◌, length};
ghost use Rattle.tokens.specs.Kinds.{seen};
ghost use Rattle.tokens.specs.Numerals.{numeral_at, number_at};

use crate::bytes::{byte, digit, folded};
use crate::words::{joined, spelled};
use crate::{Kind, Taken};

// The word whose digits stand from a place on, as a number that is held at 2^32, or as a stray word; `place` is where the token begins.
fn numeral(text: &[u8], place: usize, from: usize, base: u64) -> Taken
    requires { base ≤ 16 }
    ensures { seen result ≡ numeral_at text.now place from base }
{
    let mut p = from;
    let mut value: u64 = 0;
    while p < text.len() {
        let Some(c) = folded(text[p]) else {
            break;
        };
        match digit(c) {
            Some(d) if d < base => value = joined(value, base, d, 4294967296),
            _ => {
                return Taken {
                    kind: Kind::Stray,
                    value: 0,
                    place,
                    next: spelled(text, p).next,
                };
            }
        }
        p += 1;
    }
    Taken {
        kind: Kind::Number,
        value,
        place,
        next: p,
    }
}

// The word at a place, which begins with a digit.
pub(crate) fn number(text: &[u8], place: usize) -> Taken
    requires { place < length text.now }
    ensures { seen result ≡ number_at text.now place }
{
    if byte(text, place) != b'0' || byte(text, place + 1) != b'x' {
        return numeral(text, place, place, 10);
    }
    if folded(byte(text, place + 2)).is_none() {
        return Taken {
            kind: Kind::Stray,
            value: 0,
            place,
            next: place + 2,
        };
    }
    numeral(text, place, place + 2, 16)
}
