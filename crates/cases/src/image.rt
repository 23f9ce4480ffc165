// An image put together word by word, apart from the writer.
ghost use Rattle.std.specs.Prelude.{◌≤◌, ◌<◌};

use crate::reading;
use crate::reading::{byte_at, digit};

pub(crate) const ROOM: usize = 8280;

// No case has more words in a memory, nor more numbers on a line.
pub(crate) const MOST: usize = 2050;

// The bytes, how many of them are the image, and where the next are put.
#[derive(Drop)]
pub(crate) struct Image {
    bytes: [u8; ROOM],
    length: usize,
    place: usize,
    ghost in_room: { (length ≤ 8280) × (place ≤ 8280) },
}

// The words that images are filled with.
pub(crate) fn word(i: usize) -> u32 {
    (i % 2048 * 2000003 + 16909060) as u32
}

// The value of the two hexadecimal digits at a place; one that is none counts 16.
fn pair(text: &[u8], at: usize) -> u8
    requires { at < 65536 }
{
    let high = digit(byte_at(text, at)).unwrap_or(16) as u16;
    let low = digit(byte_at(text, at + 1)).unwrap_or(16) as u16;
    ((high * 16 + low) % 256) as u8
}

// How many pairs of digits stand in front, 16 at most.
fn pairs(text: &[u8]) -> usize
    ensures { result ≤ 16 }
{
    (0..16usize)
        .take_while(|k| digit(byte_at(text, 2 * *k)).is_some())
        .count()
}

impl Image {
    pub(crate) fn new() -> Self {
        Image {
            bytes: [0; ROOM],
            length: 0,
            place: 0,
        }
    }

    pub(crate) fn bytes(&self) -> &[u8] {
        &self.bytes[..self.length]
    }

    // Says where the image ends, and where the next bytes are put.
    pub(crate) fn reach(&mut self, length: usize, place: usize) {
        self.length = length.min(ROOM);
        self.place = place.min(ROOM);
    }

    // The next bytes are put at this word.
    pub(crate) fn turn_to(&mut self, word: usize) {
        self.reach(self.length, 4 + 4 * (word % 4096));
    }

    // Puts the bytes that `given` tells, in order; what has no room comes from the image's place on again.
    fn put<F: Fn(usize) -> u8>(&mut self, count: usize, given: F)
        requires { F.IsAlwaysCallable given }
    {
        for k in 0..count {
            let at = self.place + k % ROOM;
            if at < ROOM {
                self.bytes[at] = given(k);
            }
        }
        let end = self.place + count.min(ROOM);
        self.reach(self.length.max(end), end);
    }

    // The number at the front of a line, in hexadecimal, lowest byte first; so many of it where a star and how many follow one of four or
    // eight bytes. Another line gives no bytes.
    pub(crate) fn put_line(&mut self, line: &[u8]) {
        let size = pairs(line);
        if size == 0 {
            return;
        }
        let last = size - 1;
        let count = match line.get(2 * size..) {
            Some([b'*', behind @ ..]) => {
                let times = reading::first_number(behind).min(MOST);
                if size == 8 { 8 * times } else { 4 * times }
            }
            _ => size,
        };
        self.put(count, |k| pair(line, 2 * (last - k % (last + 1))));
    }

    // So many words at the image's place.
    pub(crate) fn fill(&mut self, words: usize) {
        self.put(4 * words.min(MOST), |k| word(k / 4).to_le_bytes()[k % 4]);
    }
}

// The first sixteen words.
pub(crate) fn sixteen(bytes: &[u8]) -> [u32; 16] {
    let mut values = [0u32; 16];
    for (k, value) in values.iter_mut().enumerate() {
        let at = 4 * k;
        *value = u32::from_le_bytes([
            byte_at(bytes, at),
            byte_at(bytes, at + 1),
            byte_at(bytes, at + 2),
            byte_at(bytes, at + 3),
        ]);
    }
    values
}
