// Bytes and numbers put into a lent buffer from a place on; what has no place there is left out.
// kept: the new form is no plainer (of a struct with the buffer and the place each contract must also say that it holds the same buffer)
#![tactic(auto)]

mod digits;

ghost use Rattle.std.specs.Prelude.{◌≡◌, ◌<◌, ◌≤◌, min};
ghost use Rattle.numerals.specs.Numerals.{digits, decimal};
ghost use Rattle.numerals.specs.Writing.{put};
ghost use Rattle.text.specs.Puts.{put_of};

use crate::digits::{fill_digits, glyph, width};

// The lesser of two lengths.
// kept: what may not change (theorem `least_once` of claims speaks of it); nothing here calls it
pub fn least(a: usize, b: usize) -> usize
    ensures { result ≡ min a b }
{
    a.min(b)
}

// Puts bytes; answers the place behind them, or the buffer's end.
pub fn put_text(out: &mut [u8], at: usize, text: &[u8]) -> usize
    ensures { put_of result out.new ≡ put text.now at out.old }
{
    let start = at.min(out.len());
    let n = text.len().min(out.len() - start);
    let end = start + n;
    out[start..end].copy_from_slice(&text[..n]);
    end
}

// The same of the last `count` digits of a number.
fn put_digits(out: &mut [u8], at: usize, base: u32, count: usize, value: u32) -> usize
    requires { (1 < base) × (base ≤ 16) × (count ≤ 10) }
    ensures { put_of result out.new ≡ put (digits base count value) at out.old }
{
    let mut digits = [0u8; 10];
    fill_digits(&mut digits[..count], base, value);
    put_text(out, at, &digits[..count])
}

// The same of a number in decimal digits: ten are enough for 32 bits.
pub fn put_decimal(out: &mut [u8], at: usize, n: u32) -> usize
    ensures { put_of result out.new ≡ put (decimal n) at out.old }
{
    put_digits(out, at, 10, width(n), n)
}

// The same of a word in eight hexadecimal digits.
pub fn put_hexadecimal(out: &mut [u8], at: usize, w: u32) -> usize
    ensures { put_of result out.new ≡ put (digits 16 8 w) at out.old }
{
    put_digits(out, at, 16, 8, w)
}

// The same of a byte in two.
pub fn put_pair(out: &mut [u8], at: usize, b: u32) -> usize
    ensures { put_of result out.new ≡ put (digits 16 2 b) at out.old }
{
    let pair = [glyph(b / 16 % 16), glyph(b % 16)];
    if 2 <= out.len().saturating_sub(at) {
        // kept: tried, slower (bar: a text of Intel HEX takes three times as long where the two are copied as a slice)
        out[at] = pair[0];
        out[at + 1] = pair[1];
        return at + 2;
    }
    put_text(out, at, &pair)
}
