// The bytes, names and numbers of a text of cases, from a place on. What is asked past its end is 0.
ghost use Rattle.std.specs.Prelude.{◌≤◌, ◌<◌, length, IfSome};

// The value of a hexadecimal digit.
pub(crate) fn digit(b: u8) -> Option<u8>
    ensures { IfSome result (λ d. d < 16) }
{
    match b {
        b'0'..=b'9' => Some(b - b'0'),
        b'A'..=b'F' => Some(b - b'A' + 10),
        _ => None,
    }
}

pub(crate) fn byte_at(text: &[u8], i: usize) -> u8 {
    text.get(i).copied().unwrap_or(0)
}

// How many bytes a text has up to the first that is not above `last`, and that one with them; or all.
pub(crate) fn through(text: &[u8], last: u8) -> usize
    ensures within { result ≤ length text.now }
    ensures moves { 0 < length text.now → 0 < result }
{
    match text.iter().position(|b| *b <= last) {
        Some(i) => i + 1,
        None => text.len(),
    }
}

// A decimal number below 2^32, and the text behind the byte that ends it.
fn number(text: &[u8]) -> (usize, &[u8]) {
    let mut value: u64 = 0;
    for (i, b) in text.iter().enumerate() {
        match digit(*b) {
            Some(d) if d < 10 => value = value % 4294967296 * 10 + d as u64,
            _ => return ((value % 4294967296) as usize, &text[i + 1..]),
        }
    }
    ((value % 4294967296) as usize, &text[text.len()..])
}

// The first number of a line.
pub(crate) fn first_number(text: &[u8]) -> usize {
    let (value, _) = number(text);
    value
}

// Five numbers of a line. One that has fewer leaves the rest without meaning.
pub(crate) fn numbers(text: &[u8]) -> [usize; 5] {
    let mut values = [0; 5];
    let mut rest = text;
    for value in values.iter_mut() {
        let (read, behind) = number(rest);
        *value = read;
        rest = behind;
    }
    values
}
