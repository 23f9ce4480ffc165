// Writes an image.
#![tactic(auto)]

mod numbers;
mod sections;

ghost use Rattle.std.specs.Prelude.{◌≡◌, ◌≤◌, length};
ghost use Rattle.answers.specs.Numbers.{answer_of};
ghost use Rattle.rules.specs.Images.{image_bytes, over, write_verdict, write};
ghost use Rattle.writer.specs.Views.{written_of};

use crate::sections::{listed_count, put_section};
use answers::Refusal;

// No image has more words.
const MOST: usize = 2048;

// Whether an image of these can be written.
fn check(words: &[u32], regs: &[u32; 16], entry: u32, out: &[u8]) -> Result<(), Refusal>
    ensures { answer_of result ≡ write_verdict words.now regs.now entry out.now }
{
    let n = words.len();
    if n < 1 || MOST < n {
        return Err(Refusal::BadSize);
    }
    if n <= entry as usize {
        return Err(Refusal::BadEntry);
    }
    let k = listed_count(regs);
    if out.len() < 16 + 4 * n + 4 * k {
        return Err(Refusal::ShortBuffer);
    }
    Ok(())
}

// The three sections, each where the one before ends; answers the length of the image.
fn put_image(out: &mut [u8], words: &[u32], regs: &[u32; 16], entry: u32) -> usize
    requires { (length words.now ≤ 2048) × (length (image_bytes words.now regs.now entry) ≤ length out.old) }
    ensures { (result ≡ length (image_bytes words.now regs.now entry)) × (out.new ≡ over (image_bytes words.now regs.now entry) out.old) }
{
    let k = listed_count(regs);
    let listed = &regs[..k];
    let registers = put_section(out, 0, words);
    let entries = put_section(out, registers, listed);
    put_section(out, entries, &[entry])
}

// Writes the image of exactly these words, the registers up to the last that is not 0, and the entry; answers its length.
pub fn write(words: &[u32], regs: &[u32; 16], entry: u32, out: &mut [u8]) -> Result<usize, Refusal>
    ensures { written_of result out.new ≡ write words.now regs.now entry out.old }
{
    check(words, regs, entry, out)?;
    Ok(put_image(out, words, regs, entry))
}
