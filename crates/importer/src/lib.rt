// Reads a text of the Intel HEX format into an image.
#![tactic(auto)]

mod places;
mod reading;
mod records;

ghost use Rattle.std.specs.Prelude.{◌≡◌};
ghost use Rattle.intel_hex.specs.Reading.{says};
ghost use Rattle.intel_hex.specs.Importing.{image_of, import};
ghost use Rattle.importer.specs.Views.{said, ended_of, imported_of};

use crate::places::{NONE, ROOM, fill, past};
use crate::reading::read;
use answers::{Fault, Refusal};

// The image of what was said, or what is wrong at the end.
fn finish(
    ended: bool,
    memory: &[u16; ROOM],
    regs: &[u32; 16],
    entry: u32,
    out: &mut [u8],
) -> Result<usize, Refusal>
    ensures { ended_of result out.new ≡ image_of (says (said ended 0 memory.now)) regs.now entry out.old }
{
    if !ended {
        return Err(Refusal::NoEnd);
    }
    let past = past(memory);
    if past == 0 {
        return Err(Refusal::NoData);
    }
    if past % 4 != 0 {
        return Err(Refusal::PartWord);
    }
    let n = past / 4;
    let mut words = [0; 2048];
    fill(&mut words, memory, n);
    writer::write(&words[..n], regs, entry, out)
}

// Imports a text: the image of its words with these registers and this entry stands at the front of the buffer, or the buffer is as it was.
pub fn import(text: &[u8], regs: &[u32; 16], entry: u32, out: &mut [u8]) -> Result<usize, Fault>
    ensures { imported_of result out.new ≡ import text.now regs.now entry out.old }
{
    let mut memory = [NONE; ROOM];
    let said = read(text, &mut memory)?;
    match finish(said.ended, &memory, regs, entry, out) {
        Ok(length) => Ok(length),
        Err(refusal) => Err(Fault { refusal, line: 0 }),
    }
}
