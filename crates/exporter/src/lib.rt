// Writes words as a text in the Intel HEX format.
#![tactic(auto)]

mod records;
mod words;

ghost use Rattle.std.specs.Prelude.{◌≡◌, ◌≤◌, length};
ghost use Rattle.answers.specs.Numbers.{answer_of};
ghost use Rattle.numerals.specs.Writing.{put};
ghost use Rattle.text.specs.Puts.{put_of};
ghost use Rattle.intel_hex.specs.Exporting.{text_of, export_verdict, export};
ghost use Rattle.exporter.specs.Views.{exported_of};

use crate::records::put_records;
use answers::Refusal;

// No text is of more words.
const MOST: usize = 2048;

// Whether words can be exported. A record has twelve bytes beside two for each byte of data, and so has the end record.
fn check(words: &[u32], out: &[u8]) -> Result<(), Refusal>
    ensures { answer_of result ≡ export_verdict words.now out.now }
{
    let n = words.len();
    if n < 1 || MOST < n {
        return Err(Refusal::BadSize);
    }
    if out.len() < 8 * n + 12 * n.div_ceil(4) + 12 {
        return Err(Refusal::ShortBuffer);
    }
    Ok(())
}

// Puts the records and the end record; answers the length of the text.
fn put_all(out: &mut [u8], words: &[u32]) -> usize
    requires { length words.now ≤ 2048 }
    ensures { put_of result out.new ≡ put (text_of words.now) 0 out.old }
{
    let end = put_records(out, words);
    text::put_text(out, end, b":00000001FF\n")
}

// Writes the text of exactly these words; answers its length.
pub fn export(words: &[u32], out: &mut [u8]) -> Result<usize, Refusal>
    ensures { exported_of result out.new ≡ export words.now out.old }
{
    check(words, out)?;
    Ok(put_all(out, words))
}
