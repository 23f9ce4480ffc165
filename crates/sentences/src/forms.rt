// A word as the assembler spells it.
use std::fmt;
use std::fmt::Write;

/// A word, shown as its instruction, or as its number where it is none.
#[derive(Clone, Copy)]
pub struct Spelled(pub u32);

impl fmt::Display for Spelled {
    fn fmt<W: fmt::Write>(&self, f: &mut fmt::Formatter<W>) -> fmt::Result {
        let mut listed = [0u8; 32];
        let length = disassembler::disassemble(&[self.0], &mut listed).unwrap_or(0);
        // all of the listing's line but its end
        let n = streams::within(length, &listed).saturating_sub(1);
        f.write_str(std::str::from_utf8(&listed[..n]).unwrap_or(""))
    }
}
