// The parts of a record, and what 60, 61 and 62 ask of it.
ghost use Rattle.std.specs.Prelude.{◌≡◌, cond, ◌||◌, ◌+◌, ◌*◌, ◌≤◌, ◌<◌, eqb, get_or, drop, IfSome};
ghost use Rattle.intel_hex.specs.Records.{digit_of, all_digits, octet, offset, type, end_type, base_type, base_of, formed, wrong_count, sums_up, known};
ghost use Rattle.importer.specs.Views.{digit_by};

// The types.
pub(crate) const DATA: u32 = 0;

const END: u32 = 1;

const BASE: u32 = 4;

// What a byte that is no digit counts in a pair.
const NO_DIGIT: u32 = 16;

// The byte at a place, and 0 past the end.
fn byte(pairs: &[u8], at: usize) -> u8
    ensures { result ≡ get_or pairs.now at 0 }
{
    pairs.get(at).copied().unwrap_or(0)
}

// The number of a digit in either case.
#[tactic(auto, using(std::proofs::lemmas::Bool::Decides::nat_tests), unfolding(intel_hex::specs::Records::digit_of))]
fn digit(b: u8) -> Option<u32>
    ensures number { digit_by result ≡ digit_of b }
    ensures below { IfSome result (λ d. d < 16) }
{
    match b {
        b'0'..=b'9' => Some((b - b'0') as u32),
        b'A'..=b'F' => Some((b - b'A') as u32 + 10),
        b'a'..=b'f' => Some((b - b'a') as u32 + 10),
        _ => None,
    }
}

// The byte that a pair of digits says.
pub(crate) fn octet(pairs: &[u8], i: usize) -> u32
    requires { i ≤ 512 }
    ensures { (result ≡ octet pairs.now i) × (result ≤ 272) }
{
    let high = digit(byte(pairs, 2 * i + 1)).unwrap_or(NO_DIGIT);
    let low = digit(byte(pairs, 2 * i + 2)).unwrap_or(NO_DIGIT);
    16 * high + low
}

// Whether all bytes behind the first are digits.
fn all_digits(pairs: &[u8]) -> bool
    ensures { result ≡ all_digits (drop 1 pairs.now) }
{
    for i in 1..pairs.len() {
        if digit(pairs[i]).is_none() {
            return false;
        }
    }
    true
}

// A colon and digits, as many as the count says.
#[tactic(auto, using(std::proofs::lemmas::Bool::Decides::nat_tests), unfolding(intel_hex::specs::Records::formed))]
pub(crate) fn formed(pairs: &[u8]) -> bool
    ensures { result ≡ formed pairs.now }
{
    byte(pairs, 0) == b':'
        && all_digits(pairs)
        && pairs.len() == 2 * (octet(pairs, 0) as usize) + 11
}

// Data in type 01, other than two bytes in type 04.
#[tactic(auto, using(std::proofs::lemmas::Bool::Decides::nat_tests), unfolding(intel_hex::specs::Records::wrong_count))]
pub(crate) fn wrong_count(pairs: &[u8]) -> bool
    ensures { result ≡ wrong_count pairs.now }
{
    let count = octet(pairs, 0);
    match octet(pairs, 3) {
        END => count != 0,
        BASE => count != 2,
        _ => false,
    }
}

// Whether the bytes of a record, the checksum with them, sum up to 0 modulo 256.
pub(crate) fn sums_up(pairs: &[u8]) -> bool
    ensures { result ≡ sums_up pairs.now }
{
    let n = octet(pairs, 0) as usize + 5;
    let mut sum = 0;
    for i in 0..n {
        sum += octet(pairs, i);
    }
    sum % 256 == 0
}

// One of the three types.
#[tactic(auto, using(std::proofs::lemmas::Bool::Decides::nat_tests), unfolding(intel_hex::specs::Records::known))]
pub(crate) fn known(pairs: &[u8]) -> bool
    ensures { result ≡ known pairs.now }
{
    matches!(octet(pairs, 3), DATA | END | BASE)
}

// The address of a data record's first byte, behind this base.
pub(crate) fn address(pairs: &[u8], base: u32) -> usize
    ensures { result ≡ 65536 * base + offset pairs.now }
{
    let offset = 256 * octet(pairs, 1) + octet(pairs, 2);
    65536 * (base as usize) + offset as usize
}

// Whether the end record is read, with this record.
pub(crate) fn ended_by(pairs: &[u8], ended: bool) -> bool
    ensures { result ≡ (ended || eqb (type pairs.now) end_type) }
{
    ended || octet(pairs, 3) == END
}

// Bits 16 to 31 of the addresses behind this record.
pub(crate) fn base_by(pairs: &[u8], base: u32) -> u32
    ensures { result ≡ cond (eqb (type pairs.now) base_type) (base_of pairs.now) base }
{
    if octet(pairs, 3) == BASE {
        256 * octet(pairs, 4) + octet(pairs, 5)
    } else {
        base
    }
}
