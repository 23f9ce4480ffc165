// Bytes: blanks, those that make words, digits and signs.
ghost use Rattle.std.specs.Prelude.{◌≡◌, get_or};
ghost use Rattle.grammar.specs.Spelling.{blank};
ghost use Rattle.tokens.specs.Kinds.{kind_number};
ghost use Rattle.tokens.specs.Bytes.{unless, folded_of, digit_of, mark_of};

use crate::Kind;

// The byte at a place, and 0 past the end.
pub(crate) fn byte(text: &[u8], at: usize) -> u8
    ensures { result ≡ get_or text.now at 0 }
{
    if at < text.len() { text[at] } else { 0 }
}

#[tactic(auto, unfolding(grammar::specs::Spelling::blank))]
pub(crate) fn blank(b: u8) -> bool
    ensures { result ≡ blank b }
{
    matches!(b, b' ' | b'\t' | b'\r')
}

/// A byte of a word, its letter made small.
#[tactic(auto, unfolding(crate::specs::Bytes::folded_of, grammar::specs::Spelling::in_word, grammar::specs::Spelling::digit, grammar::specs::Spelling::capital, grammar::specs::Spelling::small, grammar::specs::Spelling::lower))]
pub fn folded(b: u8) -> Option<u8>
    ensures { result ≡ unless 0 (folded_of b) }
{
    // asked first, since most letters of a source are small
    if matches!(b, b'a'..=b'z') {
        return Some(b);
    }
    match b {
        b'0'..=b'9' | b'_' => Some(b),
        b'A'..=b'Z' => Some(b + 32),
        _ => None,
    }
}

// The number of a digit, whose letter is small.
#[tactic(auto, unfolding(crate::specs::Bytes::digit_of, grammar::specs::Spelling::digit))]
pub(crate) fn digit(b: u8) -> Option<u64>
    ensures { result ≡ unless 16 (digit_of b) }
{
    match b {
        b'0'..=b'9' => Some(u64::from(b - b'0')),
        b'a'..=b'f' => Some(u64::from(b - b'a') + 10),
        _ => None,
    }
}

// The kind of a byte that is in no word; LF and the semicolon are the end.
#[tactic(auto, unfolding(crate::specs::Bytes::mark_of, grammar::specs::Spelling::signs))]
pub(crate) fn mark(b: u8) -> Kind
    ensures { kind_number result ≡ mark_of b }
{
    match b {
        b'\n' | b';' => Kind::None,
        b',' => Kind::Comma,
        b':' => Kind::Colon,
        b'+' => Kind::Plus,
        b'-' => Kind::Minus,
        b'*' => Kind::Star,
        b'.' => Kind::Dot,
        b'(' => Kind::Left,
        b')' => Kind::Right,
        _ => Kind::Stray,
    }
}
