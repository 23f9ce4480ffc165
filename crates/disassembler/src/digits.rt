// Numbers in digits.
ghost use Rattle.std.specs.Prelude.{◌+◌, ◌≤◌, length};
ghost use Rattle.numerals.specs.Numerals.{decimal};
ghost use Rattle.sources.specs.Listing.{number_text};
ghost use Rattle.disassembler.specs.Stores.{Stored};

// Stores a number in decimal digits; answers the place after them.
pub(crate) fn store_decimal(out: &mut [u8], at: usize, n: u32) -> usize
    requires { at + length (decimal n) ≤ length out.old }
    ensures { Stored out.old at (decimal n) out.new result }
{
    text::put_decimal(out, at, n)
}

// Stores a word as "0x" and eight digits.
pub(crate) fn store_number(out: &mut [u8], at: usize, w: u32) -> usize
    requires { at + 10 ≤ length out.old }
    ensures { Stored out.old at (number_text w) out.new result }
{
    out[at] = b'0';
    out[at + 1] = b'x';
    text::put_hexadecimal(out, at + 2, w)
}
