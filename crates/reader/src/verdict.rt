// What is wrong with an image first, by reading alone.
ghost use Rattle.std.specs.Prelude.{◌≡◌, ◌≤◌, cond, length};
ghost use Rattle.common.specs.Answers as answer;
ghost use Rattle.common.specs.Tables.{first_of};
ghost use Rattle.rules.specs.Images.{size_in, registers_at, registers_in, entry_at, entry_checks, last_zero, register_checks, image_verdict};
ghost use Rattle.answers.specs.Numbers.{answer_of};

use crate::field;
use answers::Refusal;

// The rest from the entry's count on, which stands at a place.
#[tactic(auto, using(std::proofs::lemmas::Bool::Decides::nat_tests), unfolding(common::specs::Tables::first_of, rules::specs::Images::entry_checks))]
fn entry_verdict(bytes: &[u8], at: usize, size: u32) -> Result<(), Refusal>
    requires { (at ≡ entry_at bytes.now) × (at ≤ length bytes.now) × (size ≡ size_in bytes.now) }
    ensures { answer_of result ≡ first_of (entry_checks bytes.now) }
{
    if bytes.len() < at + 4 {
        return Err(Refusal::NotWhole);
    }
    let entries = field(bytes, at);
    if entries != 1 {
        return Err(Refusal::BadEntryCount);
    }
    if bytes.len() < at + 8 {
        return Err(Refusal::NotWhole);
    }
    let entry = field(bytes, at + 4);
    if size <= entry {
        return Err(Refusal::BadEntry);
    }
    if bytes.len() != at + 8 {
        return Err(Refusal::BytesLeft);
    }
    Ok(())
}

// The last listed register, if one is listed, which stands before a place.
#[tactic(auto, using(std::proofs::lemmas::Bool::Decides::nat_tests), unfolding(rules::specs::Images::last_zero))]
fn last_verdict(bytes: &[u8], at: usize, count: u32) -> Result<(), Refusal>
    requires { (at ≡ entry_at bytes.now) × (at ≤ length bytes.now) × (count ≡ registers_in bytes.now) }
    ensures { answer_of result ≡ cond (last_zero bytes.now) answer.last_zero answer.done }
{
    if count != 0 && field(bytes, at - 4) == 0 {
        return Err(Refusal::LastZero);
    }
    Ok(())
}

// The rest from the register count on, which stands at a place.
#[tactic(auto, using(std::proofs::lemmas::Bool::Decides::nat_tests), unfolding(common::specs::Tables::first_of, rules::specs::Images::register_checks))]
fn registers_verdict(bytes: &[u8], at: usize, size: u32) -> Result<(), Refusal>
    requires { (at ≡ registers_at bytes.now) × (at ≤ length bytes.now) × (size ≡ size_in bytes.now) }
    ensures { answer_of result ≡ first_of (register_checks bytes.now) }
{
    if bytes.len() < at + 4 {
        return Err(Refusal::NotWhole);
    }
    let count = field(bytes, at);
    if 16 < count {
        return Err(Refusal::ManyRegisters);
    }
    let end = at + 4 + 4 * (count as usize);
    if bytes.len() < end {
        return Err(Refusal::NotWhole);
    }
    last_verdict(bytes, end, count)?;
    entry_verdict(bytes, end, size)
}

// What is wrong with an image first, over memories of the given length.
#[tactic(auto, using(std::proofs::lemmas::Bool::Decides::nat_tests), unfolding(common::specs::Tables::first_of, rules::specs::Images::image_checks, rules::specs::Images::image_verdict))]
pub(crate) fn image_verdict(bytes: &[u8], lent: usize) -> Result<(), Refusal>
    ensures { answer_of result ≡ image_verdict lent bytes.now }
{
    if bytes.len() < 4 {
        return Err(Refusal::NotWhole);
    }
    let size = field(bytes, 0);
    if size < 1 || 2048 < size {
        return Err(Refusal::BadSize);
    }
    let n = size as usize;
    let at = 4 + 4 * n;
    if lent < n {
        return Err(Refusal::ShortMemory);
    }
    if bytes.len() < at {
        return Err(Refusal::NotWhole); // a word
    }
    registers_verdict(bytes, at, size)
}
