// Imports the texts on standard input, one a line, and prints a line for each: answer, line, length, the numbers of the image, and
// whether the buffer beyond it kept its contents.
//
// A line has the length of the buffer, the entry, the value of r0, each in decimal, and the text, in which / stands for LF and ~ for CR.
// A line that begins with # is printed as it is.
#![tactic(auto)]

use outcomes::{MARK, Shown};

// A number modulo 2^32, and what stands behind the byte that ends it.
fn number(line: &[u8]) -> (u32, &[u8]) {
    let digits = line
        .iter()
        .position(|b| !b.is_ascii_digit())
        .unwrap_or(line.len());
    let value = line[..digits].iter().fold(0u32, |value, b| {
        value.wrapping_mul(10).wrapping_add((*b % 16) as u32)
    });
    (value, line.get(digits + 1..).unwrap_or(&[]))
}

// A byte of a text as it is meant.
fn meant(b: u8) -> u8 {
    match b {
        b'/' => b'\n',
        b'~' => b'\r',
        _ => b,
    }
}

// Imports the text of a line into the first places of a buffer of marks, with all registers but r0 at 0.
fn import(rt: HostRuntime, line: &[u8]) {
    let (room, line) = number(line);
    let (entry, line) = number(line);
    let (r0, line) = number(line);
    let mut text = [0; 1024];
    for (place, b) in text.iter_mut().zip(line) {
        *place = meant(*b);
    }
    let mut regs = [0; 16];
    regs[0] = r0;
    let mut out = [MARK; 8272];
    let n = streams::within(room as usize, &out);
    let out = &mut out[..n];
    let length = streams::within(line.len(), &text);
    let (answer, line, length) = match importer::import(&text[..length], &regs, entry, out) {
        Ok(length) => (answers::DONE, 0, length),
        Err(fault) => (u32::from(fault.refusal), fault.line, 0),
    };
    let all = Shown {
        first: 0,
        behind: 0,
    };
    outcomes::print_outcome(rt, answer, line, length, all, out);
}

fn main(rt: HostRuntime) {
    let mut text = streams::source_buffer();
    let n = streams::read_all(&mut rt.stdin(), &mut text).unwrap_or_else(|cut| cut.count);
    for line in text[..n].split(|b| *b == b'\n') {
        match line {
            [] => {}
            [b'#', ..] => {
                outcomes::print(rt, line);
                outcomes::print(rt, b"\n");
            }
            _ => import(rt, line),
        }
    }
}
