// A line a word.
ghost use Rattle.std.specs.Prelude.{◌≡◌, ◌+◌, ◌≤◌, leb, length};
ghost use Rattle.sources.specs.Listing.{word_text, listing};
ghost use Rattle.disassembler.specs.Stores.{Stored};

use crate::digits::store_number;
use crate::names::store_name;
use crate::operands::store_operands;

// Stores the text of a word: its instruction, or its number where it is none.
fn store_word(out: &mut [u8], at: usize, w: u32) -> usize
    requires { at + length (word_text w) ≤ length out.old }
    ensures { Stored out.old at (word_text w) out.new result }
{
    match instructions::decode(w) {
        Ok(instruction) => {
            let p = store_name(out, at, instruction.op);
            store_operands(out, p, instruction)
        }
        Err(_) => store_number(out, at, w),
    }
}

// How long the text of a word is: no line is longer than fifteen bytes.
fn word_length(w: u32) -> usize
    ensures { result ≡ length (word_text w) }
{
    let mut line = [0u8; 16];
    store_word(&mut line, 0, w)
}

// Whether the listing is no longer than `room`; it need not be measured where every line has room for sixteen bytes.
pub(crate) fn has_room(words: &[u32], room: usize) -> bool
    requires { length words.now ≤ 2048 }
    ensures { result ≡ leb (length (listing words.now)) room }
{
    if 16 * words.len() <= room {
        return true;
    }
    let mut n: usize = 0;
    for word in words {
        n += word_length(*word) + 1;
    }
    n <= room
}

// Stores the lines of all words from the start on; answers the length of the listing.
pub(crate) fn store_listing(out: &mut [u8], words: &[u32]) -> usize
    requires { length (listing words.now) ≤ length out.old }
    ensures { Stored out.old 0 (listing words.now) out.new result }
{
    let mut at: usize = 0;
    for word in words {
        let end = store_word(out, at, *word);
        out[end] = b'\n';
        at = end + 1;
    }
    at
}
