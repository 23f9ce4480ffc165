// The digits of a number.
ghost use Rattle.std.specs.Prelude.{◌≡◌, ◌<◌, ◌≤◌, length};
ghost use Rattle.numerals.specs.Numerals.{glyph, digits, width};

// How many decimal digits a number has.
pub(crate) fn width(n: u32) -> usize
    ensures { result ≡ width n }
{
    let mut k: usize = 1;
    let mut v = n;
    // kept: the new form is no plainer: one digit goes at a time until one is left, and no count is known before
    while 10 <= v {
        v /= 10;
        k += 1;
    }
    k
}

// The byte of a digit: "0" to "9", then "A" to "F".
pub(crate) fn glyph(d: u32) -> u8
    requires { d < 16 }
    ensures { result ≡ glyph d }
{
    if d < 10 {
        b'0' + d as u8
    } else {
        b'A' + (d - 10) as u8
    }
}

// Fills a buffer with the last digits of a number, as many as it has places.
pub(crate) fn fill_digits(out: &mut [u8], base: u32, value: u32)
    requires { (1 < base) × (base ≤ 16) }
    ensures { out.new ≡ digits base (length out.old) value }
{
    let mut left = value;
    for i in (0..out.len()).rev() {
        out[i] = glyph(left % base);
        left /= base;
    }
}
