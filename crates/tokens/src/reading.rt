// The next token.
ghost use Rattle.std.specs.Prelude.{◌≡◌, not, drop, position};
ghost use Rattle.grammar.specs.Spelling.{blank};
ghost use Rattle.tokens.specs.Kinds.{seen};
ghost use Rattle.tokens.specs.Streams.{handed, skipped, token_at};

use crate::bytes::{blank, folded, mark};
use crate::numbers::number;
use crate::words::word;
use crate::{Kind, Taken};

// How many blanks stand from a place on, before a byte that is none.
fn blanks(text: &[u8], at: usize) -> Option<usize>
    ensures { result ≡ position (λ b. not (blank b)) (drop at text.now) }
{
    text.iter().skip(at).position(|b| !blank(*b))
}

// The first place from `at` on that has no blank.
fn skip(text: &[u8], at: usize) -> usize
    ensures { result ≡ skipped text.now at }
{
    match blanks(text, at) {
        Some(passed) => at + passed,
        None => at.max(text.len()),
    }
}

// No token: the line ends at a place.
fn ended(place: usize) -> Taken
    ensures { seen result ≡ handed 0 0 place place }
{
    Taken {
        kind: Kind::None,
        value: 0,
        place,
        next: place,
    }
}

// The token from a place on; behind the last one of a line, the kind is `None`.
pub fn token(text: &[u8], at: usize) -> Taken
    ensures { seen result ≡ token_at text.now at }
{
    let place = skip(text, at);
    if place >= text.len() {
        return ended(place);
    }
    let b = text[place];
    if folded(b).is_none() {
        return match mark(b) {
            Kind::None => ended(place),
            kind => Taken {
                kind,
                value: 0,
                place,
                next: place + 1,
            },
        };
    }
    if b <= b'9' {
        number(text, place)
    } else {
        word(text, place)
    }
}
