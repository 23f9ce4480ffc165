// Assembles a source text into an image.
#![tactic(auto)]

mod emit;
mod survey;
mod word;

ghost use Rattle.std.specs.Prelude.{◌≡◌};
ghost use Rattle.sources.specs.Meaning.{assemble};
ghost use Rattle.assembler.specs.Views.{assembled_of};

use crate::emit::MOST;
use answers::Fault;
use label_table::Table;
use labels::Labels;

/// Assembles a text: the image of its words with entry 0 and no registers stands at the front of the buffer, and its length is
/// answered; or the buffer is as it was. A fault has line 0 where no line is at fault: there is no word, or the buffer is short.
pub fn assemble(text: &[u8], out: &mut [u8]) -> Result<usize, Fault>
    ensures { assembled_of result out.new ≡ assemble text.now out.old }
{
    let mut table = Table::new();
    let complete = survey::survey(text, &mut table);
    let mut words = [0u32; MOST];
    let labels = Labels {
        text,
        table: &table,
        complete,
    };
    let count = emit::emit(&labels, &mut words)?;
    let regs = [0u32; 16];
    match writer::write(&words[..count], &regs, 0, out) {
        Ok(length) => Ok(length),
        Err(refusal) => Err(Fault { refusal, line: 0 }),
    }
}
