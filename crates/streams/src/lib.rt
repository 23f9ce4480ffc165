// A stream read to its end and a text written whole: short calls go on, interrupted ones are tried again, and one that fails is told.
#![tactic(auto)]

ghost use Rattle.std.specs.Prelude.{◌≡◌, ◌≤◌, min, length};
ghost use Rattle.std.specs.Counts.{IsPrefixLen};
ghost use Rattle.streams.specs.Counted.{IsFrontLen};
ghost use Rattle.streams.specs.Moved.{read_of, written_of};

use std::io::{ErrorKind, Read, Write};

// How many calls are made at most, so that each loop ends. A call moves a byte or more, or a signal came.
const CALLS: u64 = 4294967296;

/// A call failed, or wrote nothing, before all was done; until then `count` bytes were moved.
#[derive(Clone, Copy, Debug, PartialEq, Eq)]
pub struct Cut {
    pub count: usize,
}

/// Reads until the input ends or the buffer is full; answers how many bytes were read.
pub fn read_all<R: Read>(from: &mut R, buf: &mut [u8]) -> Result<usize, Cut>
    ensures { IsPrefixLen (read_of result) buf.new }
{
    let mut count = 0;
    for _ in 0..CALLS {
        if count == buf.len() {
            return Ok(count);
        }
        match from.read(&mut buf[count..]) {
            Ok(0) => return Ok(count),
            Ok(n) => count += n,
            Err(e) if e.kind() == ErrorKind::Interrupted => {}
            Err(_) => return Err(Cut { count }),
        }
    }
    Err(Cut { count })
}

/// Writes all of a text.
pub fn write_all<W: Write>(to: &mut W, text: &[u8]) -> Result<(), Cut>
    ensures { written_of result text.now ≤ length text.now }
{
    let mut count = 0;
    for _ in 0..CALLS {
        if count == text.len() {
            return Ok(());
        }
        match to.write(&text[count..]) {
            Ok(0) => return Err(Cut { count }),
            Ok(n) => count += n,
            Err(e) if e.kind() == ErrorKind::Interrupted => {}
            Err(_) => return Err(Cut { count }),
        }
    }
    Err(Cut { count })
}

/// No more than the list has, so that its front can be lent.
pub fn within<T>(n: usize, list: &[T]) -> usize
    ensures prefix_len { IsFrontLen result list.now }
    ensures value { result ≡ min n (length list.now) }
{
    n.min(list.len())
}

/// A place for a source of 262,144 bytes, and one byte more, which tells that it is longer.
pub fn source_buffer() -> [u8; 262145]
    ensures { 262145 ≡ length result }
{
    [0; 262145]
}
