// Names, and one number for the contents of a list.
use crate::reading;

// Shows a text up to a byte that is not above `last`; returns what stands behind that byte.
pub(crate) fn name(rt: HostRuntime, text: &[u8], last: u8) -> &[u8] {
    let n = reading::through(text, last);
    if 0 < n {
        let _ = streams::write_all(&mut rt.stdout(), &text[..n - 1]);
    }
    &text[n..]
}

// A change of one place changes the sum, unless it is by a multiple of 1000003, a prime.
pub(crate) fn mixed(sum: u64, value: u64) -> u64 {
    (sum % 1000003 * 31 + value % 1000003 + 1) % 1000003
}

// One number for the contents of a list of bytes, words or sets.
pub(crate) fn sum<T: Copy + Into<u64>>(list: &[T]) -> u64 {
    list.iter()
        .fold(0, |sum, value| mixed(sum, (*value).into()))
}
