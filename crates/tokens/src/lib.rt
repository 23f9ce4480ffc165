// The next token of a line of source, the end of a line, and whether two names are the same.
#![tactic(auto)]

mod bytes;
mod numbers;
mod reading;
mod words;

ghost use Rattle.std.specs.Prelude.{◌≡◌, ◌==◌, drop, position};
ghost use Rattle.grammar.specs.Reading.Lexer.{same};
ghost use Rattle.grammar.specs.Laws.Runs.{name_at, line_end};

use crate::bytes::byte;
pub use bytes::folded;
pub use reading::token;

/// What a token is, with the number that crates/grammar/specs/Reading/Kinds.antt gives it; `None` where the line ends.
#[derive(Clone, Copy, Debug, PartialEq, Eq)]
pub enum Kind {
    None = 0,
    // mnemonics, by the operands that they take: none (Nop and Halt), those of Const and of Bnz, one to three registers
    Plain,
    Const,
    Bnz,
    One,
    Two,
    Three,
    Register,
    Name,
    Number,
    Comma,
    Colon,
    Plus,
    Minus,
    Star,
    Dot,
    Left,
    Right,
    // whatever is none of these
    Stray,
}

/// A token: its kind, the number that goes with it, the place of its first byte and the place behind its last.
#[derive(Clone, Copy, Debug, PartialEq, Eq)]
pub struct Taken {
    pub kind: Kind,
    pub value: u64,
    pub place: usize,
    pub next: usize,
}

// How many bytes of the text from a place on stand before the next LF.
fn to_feed(text: &[u8], at: usize) -> Option<usize>
    ensures { result ≡ position (λ b. b == 10) (drop at text.now) }
{
    text.iter().skip(at).position(|b| *b == b'\n')
}

// Where the line from a place on ends: at its LF, or behind the text's last byte.
pub fn line_end(text: &[u8], at: usize) -> usize
    ensures { result ≡ line_end text.now at }
{
    match to_feed(text, at) {
        Some(passed) => at + passed,
        None => at.max(text.len()),
    }
}

// Whether the words at two places are the same bytes.
pub fn same_name(text: &[u8], a: usize, b: usize) -> bool
    ensures { result ≡ same (name_at text.now a) (name_at text.now b) }
{
    let mut p = a;
    let mut q = b;
    while p < text.len() {
        let x = byte(text, p);
        let y = byte(text, q);
        if folded(x).is_none() {
            return folded(y).is_none();
        }
        if x != y {
            return false;
        }
        p += 1;
        q += 1;
    }
    folded(byte(text, q)).is_none()
}
