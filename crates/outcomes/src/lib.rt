// What a call told that was to write an image, and what it left in the buffer, as a line of text; and the texts of which a file of cases
// is made up: for programs that run cases.
#![tactic(auto)]

ghost use Rattle.std.specs.Prelude.{◌≤◌};

// What stands in a buffer before a call.
pub const MARK: u8 = 238;

// How many numbers of an image are shown at most.
const SHOWN: usize = 14;

/// Writes a text to standard output.
pub fn print(rt: HostRuntime, text: &[u8]) {
    let _ = streams::write_all(&mut rt.stdout(), text);
}

/// Which numbers of an image are shown: those from the `first` on without the last `behind`, fourteen at most.
#[derive(Clone, Copy)]
pub struct Shown {
    pub first: usize,
    pub behind: usize,
}

/// The answer, the line and the length, those numbers of the image, and whether the buffer beyond the image kept its marks.
pub fn print_outcome(
    rt: HostRuntime,
    answer: u32,
    line: u64,
    length: usize,
    shown: Shown,
    out: &[u8],
) {
    let _ = print!(rt; "answer {answer} line {line} length {length}");
    let (image, beyond) = out.split_at(length.min(out.len()));
    let last = (image.len() / 4).saturating_sub(shown.behind);
    for number in image
        .chunks_exact(4)
        .take(last)
        .skip(shown.first)
        .take(SHOWN)
    {
        if let [b0, b1, b2, b3] = number {
            let value = u32::from_le_bytes([*b0, *b1, *b2, *b3]);
            let _ = print!(rt; " {value:08x}");
        }
    }
    if beyond.iter().any(|b| *b != MARK) {
        let _ = print!(rt; " CHANGED BEYOND");
    }
    let _ = println!(rt; "");
}

/// Texts in one file. Each stands behind a line `== name`, up to the place where `ends` holds of what follows; `MARK` bytes further on the
/// next name begins.
pub trait Texts {
    const MARK: usize;

    fn ends(rest: &[u8]) -> bool;

    fn show(rt: HostRuntime, name: &[u8], text: &[u8]);
}

/// Shows each text with its name.
pub fn show_texts<T: Texts>(rt: HostRuntime, file: &[u8]) {
    let mut rest = file.get(3..).unwrap_or(&[]);
    for _ in 0..file.len() {
        let name = rest.iter().position(|b| *b == b'\n').unwrap_or(rest.len());
        let end = (name..rest.len())
            .find(|p| T::ends(&rest[*p..]))
            .unwrap_or(rest.len());
        if let Some([_, text @ ..]) = rest.get(name..end) {
            T::show(rt, &rest[..name], text);
        }
        match rest.get(end.saturating_add(T::MARK)..) {
            Some(next) => rest = next,
            None => return,
        }
    }
}
