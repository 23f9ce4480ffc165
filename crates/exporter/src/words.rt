// Words as bytes, lowest first: their sum, and their digits.
ghost use Rattle.std.specs.Prelude.{◌≡◌, ◌≤◌, length};
ghost use Rattle.rules.specs.Images.{four_bytes, all_bytes};
ghost use Rattle.numerals.specs.Writing.{put};
ghost use Rattle.text.specs.Puts.{put_of};
ghost use Rattle.intel_hex.specs.Records.{sum};
ghost use Rattle.intel_hex.specs.Exporting.{pairs};

fn byte_sum(w: u32) -> u32
    ensures { result ≡ sum (four_bytes w) }
{
    let [first, second, third, fourth] = w.to_le_bytes();
    u32::from(first) + u32::from(second) + u32::from(third) + u32::from(fourth)
}

// The sum of the bytes of a record's words.
pub(crate) fn words_sum(words: &[u32]) -> u32
    requires { length words.now ≤ 4 }
    ensures { result ≡ sum (all_bytes words.now) }
{
    let mut sum = 0;
    for word in words {
        sum += byte_sum(*word);
    }
    sum
}

// Puts the digits of bytes from a place on; answers the place behind them, or the buffer's end.
pub(crate) fn put_bytes(out: &mut [u8], at: usize, bytes: &[u8]) -> usize
    requires { at ≤ length out.old }
    ensures { put_of result out.new ≡ put (pairs bytes.now) at out.old }
{
    let mut next = at;
    for byte in bytes {
        next = text::put_pair(out, next, u32::from(*byte));
    }
    next
}

// The same of words.
pub(crate) fn put_words(out: &mut [u8], at: usize, words: &[u32]) -> usize
    requires { at ≤ length out.old }
    ensures { put_of result out.new ≡ put (pairs (all_bytes words.now)) at out.old }
{
    let mut next = at;
    for word in words {
        next = put_bytes(out, next, &word.to_le_bytes());
    }
    next
}
