// Reads an image: what it says, or why it is refused; and N alone, for a host that has lent nothing yet.
#![tactic(auto)]

mod verdict;

ghost use Rattle.std.specs.Prelude.{◌≡◌, ◌+◌, ◌-◌, ◌*◌, ◌≤◌, [], ◌∷◌, ◌++◌, length, replicate};
ghost use Rattle.rules.specs.Images.{field, fields, check};
ghost use Rattle.reader.specs.Views.{read_of, image_of, checked_of};

use crate::verdict::image_verdict;
use answers::Refusal;

/// What an accepted image says: N, the sixteen registers and the entry.
#[derive(Clone, Copy)]
pub struct Image {
    pub size: u32,
    pub regs: [u32; 16],
    pub entry: u32,
}

// Memories of so many places hold every image.
const PLACES: usize = 2048;

// The number of four bytes, lowest first.
pub fn number(b0: u8, b1: u8, b2: u8, b3: u8) -> u32
    ensures { result ≡ field (b0 ∷ b1 ∷ b2 ∷ b3 ∷ []) 0 }
{
    u32::from_le_bytes([b0, b1, b2, b3])
}

// The number in the four bytes from a place on.
pub(crate) fn field(bytes: &[u8], at: usize) -> u32
    requires { at + 4 ≤ length bytes.now }
    ensures { result ≡ field bytes.now at }
{
    number(bytes[at], bytes[at + 1], bytes[at + 2], bytes[at + 3])
}

// The sixteen registers, of which the first are listed from a place on and the rest are 0.
fn registers(bytes: &[u8], at: usize, count: u32) -> [u32; 16]
    requires { (count ≤ 16) × (at + 4 * count ≤ length bytes.now) }
    ensures { result ≡ fields bytes.now at count ++ replicate (16 - count) 0 }
{
    let mut regs = [0; 16];
    for i in 0..count as usize {
        regs[i] = field(bytes, at + 4 * i);
    }
    regs
}

// Reads an image that is to fill memories of the given length.
pub fn read(bytes: &[u8], lent: usize) -> Result<Image, Refusal>
    ensures { read_of result ≡ image_of lent bytes.now }
{
    image_verdict(bytes, lent)?;
    let size = field(bytes, 0);
    let at = 4 + 4 * (size as usize);
    let count = field(bytes, at);
    let regs = registers(bytes, at + 4, count);
    let entry = field(bytes, at + 8 + 4 * (count as usize));
    Ok(Image { size, regs, entry })
}

// Checks an image, with no memory: what a load into memories of 2,048 places would answer, and N.
pub fn check(bytes: &[u8]) -> Result<u32, Refusal>
    ensures { checked_of result ≡ check bytes.now }
{
    let image = read(bytes, PLACES)?;
    Ok(image.size)
}
