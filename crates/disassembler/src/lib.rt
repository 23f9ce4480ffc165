// Writes the listing of words: a text that assembles to them.
#![tactic(auto)]

mod digits;
mod lines;
mod names;
mod operands;

ghost use Rattle.std.specs.Prelude.{◌≡◌};
ghost use Rattle.answers.specs.Numbers.{answer_of};
ghost use Rattle.sources.specs.Listing.{list_verdict, disassemble};
ghost use Rattle.disassembler.specs.Views.{listed_of};

use crate::lines::{has_room, store_listing};
use answers::Refusal;

// No listing is of more words.
const MOST: usize = 2048;

// Whether words can be listed.
fn check(words: &[u32], out: &[u8]) -> Result<(), Refusal>
    ensures { answer_of result ≡ list_verdict words.now out.now }
{
    let n = words.len();
    if n < 1 || MOST < n {
        return Err(Refusal::BadSize);
    }
    if !has_room(words, out.len()) {
        return Err(Refusal::ShortBuffer);
    }
    Ok(())
}

// Writes the listing of exactly these words, one line a word; answers its length.
pub fn disassemble(words: &[u32], out: &mut [u8]) -> Result<usize, Refusal>
    ensures { listed_of result out.new ≡ disassemble words.now out.old }
{
    check(words, out)?;
    Ok(store_listing(out, words))
}
