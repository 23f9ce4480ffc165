// Data records of four words, the last perhaps shorter.
ghost use Rattle.std.specs.Prelude.{◌≡◌, [], ◌∷◌, ◌++◌, ◌≤◌, length};
ghost use Rattle.rules.specs.Images.{all_bytes};
ghost use Rattle.numerals.specs.Bytes.{feed};
ghost use Rattle.numerals.specs.Writing.{put};
ghost use Rattle.text.specs.Puts.{put_of};
ghost use Rattle.intel_hex.specs.Exporting.{data_record, records, records_in};

use crate::words::{put_bytes, put_words, words_sum};

// The type of a record of data.
const DATA: u8 = 0;

// Puts a record of these words and its LF: colon, count, address and type, then the data and the checksum.
fn put_record(out: &mut [u8], at: usize, place: u16, words: &[u32]) -> usize
    requires { length words.now ≤ 4 }
    ensures { put_of result out.new ≡ put (data_record place (all_bytes words.now) ++ feed ∷ []) at out.old }
{
    let count = 4 * words.len() as u8;
    let [high, low] = place.to_be_bytes();
    let sum = u32::from(count) + u32::from(high) + u32::from(low) + words_sum(words);
    let check = ((256 - sum % 256) % 256) as u8;
    let head = text::put_text(out, at, b":");
    let data = put_bytes(out, head, &[count, high, low, DATA]);
    let last = put_words(out, data, words);
    let end = put_bytes(out, last, &[check]);
    text::put_text(out, end, b"\n")
}

// Puts all records from the start on; answers the place behind them, or the buffer's end.
pub(crate) fn put_records(out: &mut [u8], words: &[u32]) -> usize
    requires { length words.now ≤ 2048 }
    ensures { put_of result out.new ≡ put (records (all_bytes words.now) 0 (records_in words.now)) 0 out.old }
{
    let mut at = 0;
    for i in 0..words.len().div_ceil(4) {
        let first = 4 * i;
        let end = words.len().min(first + 4);
        at = put_record(out, at, 16 * i as u16, &words[first..end]);
    }
    at
}
