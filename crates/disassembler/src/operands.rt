// Operands in the sheet's order.
ghost use Rattle.std.specs.Prelude.{◌++◌, ◌+◌, ◌<◌, ◌≤◌, length};
ghost use Rattle.numerals.specs.Bytes.{bytes};
ghost use Rattle.numerals.specs.Numerals.{decimal};
ghost use Rattle.sources.specs.Listing.{blank, register_text, offset_text, operands};
ghost use Rattle.instructions.specs.Views.{standing};
ghost use Rattle.disassembler.specs.Stores.{Stored};

use crate::digits::store_decimal;
use instructions::Instruction;

// Stores a blank and a register.
fn store_register(out: &mut [u8], at: usize, r: u32) -> usize
    requires { at + length (blank ++ register_text r) ≤ length out.old }
    ensures { Stored out.old at (blank ++ register_text r) out.new result }
{
    out[at] = b' ';
    out[at + 1] = b'r';
    store_decimal(out, at + 2, r)
}

// Stores an offset with its sign.
fn store_offset(out: &mut [u8], at: usize, low: u32) -> usize
    requires { (low < 65536) × (at + length (offset_text low) ≤ length out.old) }
    ensures { Stored out.old at (offset_text low) out.new result }
{
    if low < 32768 {
        return store_decimal(out, at, low);
    }
    out[at] = b'-';
    store_decimal(out, at + 1, 65536 - low)
}

// Const: a number and a register.
fn store_constant(out: &mut [u8], at: usize, low: u32, a: u32) -> usize
    requires { at + length (blank ++ decimal low ++ blank ++ register_text a) ≤ length out.old }
    ensures { Stored out.old at (blank ++ decimal low ++ blank ++ register_text a) out.new result }
{
    out[at] = b' ';
    let p = store_decimal(out, at + 1, low);
    store_register(out, p, a)
}

// Bnz: a register, a comma and an offset.
fn store_branch(out: &mut [u8], at: usize, a: u32, low: u32) -> usize
    requires { (low < 65536) × (at + length (blank ++ register_text a ++ bytes ", " ++ offset_text low) ≤ length out.old) }
    ensures { Stored out.old at (blank ++ register_text a ++ bytes ", " ++ offset_text low) out.new result }
{
    let p = store_register(out, at, a);
    out[p] = b',';
    out[p + 1] = b' ';
    store_offset(out, p + 2, low)
}

// Two registers.
fn store_two(out: &mut [u8], at: usize, a: u32, b: u32) -> usize
    requires { at + length (blank ++ register_text a ++ blank ++ register_text b) ≤ length out.old }
    ensures { Stored out.old at (blank ++ register_text a ++ blank ++ register_text b) out.new result }
{
    let p = store_register(out, at, a);
    store_register(out, p, b)
}

// Three registers.
fn store_three(out: &mut [u8], at: usize, a: u32, b: u32, d: u32) -> usize
    requires { at + length (blank ++ register_text a ++ blank ++ register_text b ++ blank ++ register_text d) ≤ length out.old }
    ensures { Stored out.old at (blank ++ register_text a ++ blank ++ register_text b ++ blank ++ register_text d) out.new result }
{
    let p = store_two(out, at, a, b);
    store_register(out, p, d)
}

// Stores what stands behind an instruction's mnemonic.
pub(crate) fn store_operands(out: &mut [u8], at: usize, i: Instruction) -> usize
    requires { (i.low < 65536) × (at + length (operands (standing i)) ≤ length out.old) }
    ensures { Stored out.old at (operands (standing i)) out.new result }
{
    let op = i.op;
    let a = i.a;
    let b = i.b;
    let low = i.low;
    match op {
        0 | 13 => at, // Nop, Halt
        1 => store_constant(out, at, low, a), // Const
        12 => store_branch(out, at, a, low), // Bnz
        10 | 11 => store_register(out, at, a), // Jump, Jal
        3..=7 => store_three(out, at, a, b, low), // Add to Leq
        _ => store_two(out, at, a, b), // Mov, Load, Store
    }
}
