// The numbers that an instruction makes: the five results of the arithmetic ones, and where a Bnz goes.
#![tactic(auto)]

ghost use Rattle.std.specs.Prelude.{◌≡◌, if◌then◌else◌};
ghost use Rattle.common.specs.Instructions.{arithmetic};
ghost use Rattle.arithmetic.specs.Targets.{branch_target};

use instructions::{ADD, EQ, MUL, SUB};

// One of two numbers, without a jump.
fn pick(t: bool, x: u32, y: u32) -> u32
    ensures { result ≡ (if t then x else y) }
{
    if t { x } else { y }
}

// Add, Sub, Mul, Eq and Leq: opcodes 3 to 7. A jump to each of the first three, and one of the two comparisons picked, cost little
// on a processor and in an emulator.
#[tactic(auto, unfolding(common::specs::Instructions::arithmetic))]
pub fn arith(op: u32, x: u32, y: u32) -> u32
    ensures { result ≡ arithmetic op x y }
{
    match op {
        ADD => x.wrapping_add(y),
        SUB => x.wrapping_sub(y),
        MUL => x.wrapping_mul(y),
        _ => pick(op == EQ, u32::from(x == y), u32::from(x <= y)),
    }
}

// Below 32,768 the low part is added to pc; any other has its distance to 65,536 taken away from pc.
#[tactic(auto, unfolding(crate::specs::Targets::branch_target))]
pub fn branch_target(pc: u32, low: u32) -> u32
    ensures { result ≡ branch_target pc low }
{
    if low < 32768 {
        pc.wrapping_add(low)
    } else {
        pc.wrapping_sub(65536u32.wrapping_sub(low))
    }
}
