// Values of expressions as a sign and a magnitude, or why there is none; and the field that a value goes to.
#![tactic(auto)]

ghost use Rattle.std.specs.Prelude.{◌≡◌, refl, ℕ, eqb};
ghost use Rattle.answers.specs.Numbers as refusals;
ghost use Rattle.answers.specs.declared.Refusal.{Refusal};
ghost use Rattle.values.specs.Values as said;

use answers::Refusal;

// The bounds of every value on the way: -LOWEST to HIGHEST.
const LOWEST: u64 = 2147483648;

const HIGHEST: u64 = 4294967295;

/// A whole number.
// kept: what may not change: the theorems of specs/Integers.antt and edits such as sum_sign_of_less tell of sign and magnitude
#[derive(Clone, Copy, Debug, PartialEq, Eq)]
pub struct Value {
    pub negative: bool,
    pub magnitude: u32,
}

impl Value {
    // The number with the other sign.
    fn opposite(self) -> Value
        ensures { result ≡ said.opposite self }
    {
        Value {
            negative: !self.negative,
            ..self
        }
    }

    fn is_below_zero(self) -> bool
        ensures { result ≡ said.under self.negative self.magnitude }
    {
        self.negative && 0 < self.magnitude
    }
}

/// Why there is no value: a refusal, or a number, and then any number is one.
pub trait NoValue: Copy {
    ghost number: { Self → ℕ };

    ghost of: { Refusal → Self };

    /// The number of this fault.
    fn number(self) -> u32
        ensures { result ≡ number self };

    /// The fault that a refusal is.
    fn of(refusal: Refusal) -> Self
        ensures { result ≡ of refusal };

    // a refusal keeps its number
    ghost kept: { (refusal : Refusal) → number (of refusal) ≡ refusals.number refusal };
}

impl NoValue for Refusal {
    ghost number = { refusals.number };

    ghost of = { λ refusal. refusal };

    ghost kept = { λ _. refl };

    fn number(self) -> u32 {
        u32::from(self)
    }

    fn of(refusal: Refusal) -> Refusal {
        refusal
    }
}

impl NoValue for u32 {
    ghost number = { λ n. n };

    ghost of = { refusals.number };

    ghost kept = { λ _. refl };

    fn number(self) -> u32 {
        self
    }

    fn of(refusal: Refusal) -> u32 {
        u32::from(refusal)
    }
}

// Whether a fault has the number of a refusal.
fn is<F: NoValue>(fault: F, refusal: Refusal) -> bool
    ensures { result ≡ eqb (F.number fault) (refusals.number refusal) }
{
    fault.number() == u32::from(refusal)
}

// The two values, or why there are not two: an unknown label is told before a value outside its bounds, wherever the two stand.
fn both<F: NoValue>(v: Result<Value, F>, w: Result<Value, F>) -> Result<(Value, Value), F>
    ensures { result ≡ said.both F.number v w }
{
    match (v, w) {
        (Ok(a), Ok(b)) => Ok((a, b)),
        (Ok(_), Err(fault)) | (Err(fault), Ok(_)) => Err(fault),
        (Err(_), Err(fault)) if is(fault, Refusal::UnknownLabel) => Err(fault),
        (Err(fault), Err(_)) => Err(fault),
    }
}

fn limit(negative: bool) -> u64
    ensures { result ≡ said.limit negative }
{
    if negative { LOWEST } else { HIGHEST }
}

// A sign and a magnitude, if they are within the bounds.
fn judge<F: NoValue>(negative: bool, magnitude: u64) -> Result<Value, F>
    ensures { result ≡ said.judge F.of negative magnitude }
{
    if limit(negative) < magnitude {
        return Err(F::of(Refusal::ValueOutside));
    }
    Ok(Value {
        negative,
        magnitude: magnitude as u32,
    })
}

fn sum<F: NoValue>(a: Value, b: Value) -> Result<Value, F>
    ensures { result ≡ said.sum F.of a b }
{
    let m = u64::from(a.magnitude);
    let n = u64::from(b.magnitude);
    if a.negative == b.negative {
        judge(a.negative, m + n)
    } else if n <= m {
        judge(a.negative, m - n)
    } else {
        judge(b.negative, n - m)
    }
}

// The value of a number, a label or the dot.
pub fn number<F: NoValue>(n: u64) -> Result<Value, F>
    ensures { result ≡ said.number F.of n }
{
    judge(false, n)
}

// The value of a label that no line defines.
pub fn unknown<F: NoValue>() -> Result<Value, F>
    ensures { result ≡ said.unknown F.of }
{
    Err(F::of(Refusal::UnknownLabel))
}

#[tactic(auto, unfolding(crate::specs::Values::plus))]
pub fn plus<F: NoValue>(v: Result<Value, F>, w: Result<Value, F>) -> Result<Value, F>
    ensures { result ≡ said.plus F.number F.of v w }
{
    let (a, b) = both(v, w)?;
    sum(a, b)
}

#[tactic(auto, unfolding(crate::specs::Values::minus))]
pub fn minus<F: NoValue>(v: Result<Value, F>, w: Result<Value, F>) -> Result<Value, F>
    ensures { result ≡ said.minus F.number F.of v w }
{
    let (a, b) = both(v, w)?;
    sum(a, b.opposite())
}

#[tactic(auto, unfolding(crate::specs::Values::times))]
pub fn times<F: NoValue>(v: Result<Value, F>, w: Result<Value, F>) -> Result<Value, F>
    ensures { result ≡ said.times F.number F.of v w }
{
    let (a, b) = both(v, w)?;
    let signs_differ = a.negative != b.negative;
    judge(
        signs_differ,
        u64::from(a.magnitude) * u64::from(b.magnitude),
    )
}

#[tactic(auto, unfolding(crate::specs::Values::negated))]
pub fn negated<F: NoValue>(v: Result<Value, F>) -> Result<Value, F>
    ensures { result ≡ said.negated F.of v }
{
    let a = v?.opposite();
    judge(a.negative, u64::from(a.magnitude))
}

// Why a field holds nothing: an unknown label is told, and all else is a value outside.
fn refused<F: NoValue>(fault: F) -> F
    ensures { result ≡ said.refused F.number F.of fault }
{
    F::of(if is(fault, Refusal::UnknownLabel) {
        Refusal::UnknownLabel
    } else {
        Refusal::ValueOutside
    })
}

// What a field of `size` values holds for a magnitude below zero; its lowest 32 bits, where it has more.
fn complement(size: u64, magnitude: u32) -> u32
    ensures { result ≡ said.complement size magnitude }
{
    (size.saturating_sub(u64::from(magnitude)) % 4294967296) as u32
}

// What a value from -below to above is in a field of `size` values, two's complement.
#[tactic(auto, unfolding(crate::specs::Values::fit))]
pub fn fit<F: NoValue>(v: Result<Value, F>, below: u32, above: u32, size: u64) -> Result<u32, F>
    ensures { result ≡ said.fit F.number F.of v below above size }
{
    let a = match v {
        Ok(a) => a,
        Err(fault) => return Err(refused(fault)),
    };
    let (most, low) = if a.is_below_zero() {
        (below, complement(size, a.magnitude))
    } else {
        (above, a.magnitude)
    };
    if most < a.magnitude {
        return Err(F::of(Refusal::ValueOutside));
    }
    Ok(low)
}

#[cfg(test)]
mod tests {
    use super::*;

    // Any number is a fault, also one that no refusal has; a field tells 51 as it is and every other as 53.
    #[test]
    fn numbers_are_faults(rt: HostRuntime) {
        let three: Result<Value, u32> = number(3);
        let negative = negated(three);
        assert_eq!(rt; plus(three, negative), number(0));
        assert_eq!(rt; fit(minus(negative, three), 8, 7, 16), Ok(10));
        assert_eq!(rt; number::<u32>(4294967296), Err(53));
        for fault in [19, 53, 4294967295] {
            assert_eq!(rt; times(Err(fault), Err(1)), Err(fault));
            assert_eq!(rt; minus(Err(fault), unknown()), Err(51));
            assert_eq!(rt; plus(three, Err(fault)), Err(fault));
            assert_eq!(rt; negated(Err(fault)), Err(fault));
            assert_eq!(rt; fit(Err(fault), 8, 7, 16), Err(53));
        }
        assert_eq!(rt; fit(unknown::<u32>(), 8, 7, 16), Err(51));
    }
}
