// Where in its bytes an image is refused: the field, and its offset.
use answers::Refusal;
use std::{fmt, io};

// Why an image may be refused.
const REFUSALS: [Refusal; 7] = [
    Refusal::NotWhole,
    Refusal::BadSize,
    Refusal::ManyRegisters,
    Refusal::LastZero,
    Refusal::BadEntryCount,
    Refusal::BadEntry,
    Refusal::BytesLeft,
];

// The fields of an image; a word or a register has its number.
#[derive(Clone, Copy)]
enum Field {
    Size,
    Word(u32),
    Registers,
    Register(u32),
    EntryCount,
    Entry,
    Behind,
}

impl Field {
    // Field i of an image of n words that lists k registers.
    fn of(i: u32, n: u32, k: u32) -> Field {
        let register = n.wrapping_add(2);
        let entry = register.wrapping_add(k);
        if i == 0 {
            Field::Size
        } else if i <= n {
            Field::Word(i - 1)
        } else if i == n.wrapping_add(1) {
            Field::Registers
        } else if i < entry {
            Field::Register(i.wrapping_sub(register))
        } else {
            match i - entry {
                0 => Field::EntryCount,
                1 => Field::Entry,
                _ => Field::Behind,
            }
        }
    }
}

impl fmt::Display for Field {
    fn fmt<W: fmt::Write>(&self, f: &mut fmt::Formatter<W>) -> fmt::Result {
        match *self {
            Field::Size => write!(f, "the number of words"),
            Field::Word(x) => write!(f, "word {x}"),
            Field::Registers => write!(f, "the number of registers"),
            Field::Register(x) => write!(f, "register {x}"),
            Field::EntryCount => write!(f, "the entry's count"),
            Field::Entry => write!(f, "the entry"),
            Field::Behind => write!(f, "what is behind the entry"),
        }
    }
}

// The number in field i: all have four bytes, the lowest first, and what is missing is 0.
fn number(bytes: &[u8], i: u32) -> u32 {
    let mut four = [0u8; 4];
    let rest = bytes.iter().skip((i as usize).saturating_mul(4));
    for (byte, given) in four.iter_mut().zip(rest) {
        *byte = *given;
    }
    u32::from_le_bytes(four)
}

// Which field a refusal is about; n is the number of words and k of registers.
fn refused_field(refusal: Refusal, length: usize, n: u32, k: u32) -> u32 {
    let listed = n.wrapping_add(k);
    match refusal {
        Refusal::NotWhole => (length / 4 % 65536) as u32,
        Refusal::BadSize => 0,
        Refusal::ManyRegisters => n.wrapping_add(1),
        Refusal::LastZero => listed.wrapping_add(1),
        Refusal::BadEntryCount => listed.wrapping_add(2),
        Refusal::BadEntry => listed.wrapping_add(3),
        _ => listed.wrapping_add(4),
    }
}

/// "refused R: FIELD, at byte OFFSET, is V"
pub fn tell_refusal(rt: &impl Print, answer: u32, bytes: &[u8]) -> io::Result<()> {
    let known = REFUSALS.iter().find(|refusal| **refusal as u32 == answer);
    let refusal = known.copied().unwrap_or(Refusal::BytesLeft);
    let n = number(bytes, 0);
    let k = number(bytes, n.wrapping_add(1));
    let i = refused_field(refusal, bytes.len(), n, k);
    let field = Field::of(i, n, k);
    let offset = i.wrapping_mul(4);
    print!(rt; "refused {answer}: {field}, at byte {offset}, ")?;
    match refusal {
        Refusal::NotWhole => println!(rt; "is not whole: the image has {} bytes", bytes.len()),
        Refusal::BytesLeft => println!(rt; "is nothing of an image"),
        _ => println!(rt; "is {}", number(bytes, i)),
    }
}
