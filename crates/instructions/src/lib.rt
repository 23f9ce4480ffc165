// Instruction words both ways, by one table of fourteen rows.
#![tactic(auto)]

ghost use Rattle.std.specs.Prelude.{◌≡◌};
ghost use Rattle.common.specs.Words.{pack, decode, encode};
ghost use Rattle.instructions.specs.Masks.{used_of, fits_in, fields_of};
ghost use Rattle.instructions.specs.Packing.{has_room, Room};
ghost use Rattle.instructions.specs.Views.{decoded, standing, encoded};

use answers::Refusal;

// The opcodes by name, in the order of the table.
pub const NOP: u32 = 0;

pub const CONST: u32 = 1;

pub const MOV: u32 = 2;

pub const ADD: u32 = 3;

pub const SUB: u32 = 4;

pub const MUL: u32 = 5;

pub const EQ: u32 = 6;

pub const LEQ: u32 = 7;

pub const LOAD: u32 = 8;

pub const STORE: u32 = 9;

pub const JUMP: u32 = 10;

pub const JAL: u32 = 11;

pub const BNZ: u32 = 12;

pub const HALT: u32 = 13;

// The bits of each field below the opcode; RD is the register in the lowest 4 bits of the low 16.
const A: u32 = 0xF00000;

const B: u32 = 0x0F0000;

const LOW: u32 = 0x00FFFF;

const RD: u32 = 0x00000F;

// Which fields each opcode uses.
const USED: [u32; 14] = [
    0, // 0 Nop
    A + LOW, // 1 Const
    A + B, // 2 Mov
    A + B + RD, // 3 Add
    A + B + RD, // 4 Sub
    A + B + RD, // 5 Mul
    A + B + RD, // 6 Eq
    A + B + RD, // 7 Leq
    A + B, // 8 Load
    A + B, // 9 Store
    A, // 10 Jump
    A, // 11 Jal
    A + LOW, // 12 Bnz
    0, // 13 Halt
];

/// A word's opcode and fields, as they stand in it. The opcode is a number, since a word that is no instruction has one too.
#[derive(Clone, Copy, Debug, PartialEq, Eq)]
pub struct Instruction {
    pub op: u32,
    pub a: u32,
    pub b: u32,
    pub low: u32,
}

// The row of an opcode.
// kept: tried, slower: an index that varies has the table built anew at each call, so each arm names its row by its own number
#[tactic(auto, unfolding(crate::specs::Masks::used_of, common::specs::Words::row))]
pub fn used(op: u32) -> u32
    ensures { result ≡ used_of op }
{
    match op {
        0 => USED[0],
        1 => USED[1],
        2 => USED[2],
        3 => USED[3],
        4 => USED[4],
        5 => USED[5],
        6 => USED[6],
        7 => USED[7],
        8 => USED[8],
        9 => USED[9],
        10 => USED[10],
        11 => USED[11],
        12 => USED[12],
        13 => USED[13],
        _ => 0,
    }
}

// Whether a word sets no bit below its opcode that an opcode leaves unused.
#[tactic(auto, unfolding(crate::specs::Masks::fits_in))]
pub fn fits(word: u32, op: u32) -> bool
    ensures { result ≡ fits_in word op }
{
    let rest = word % 16777216;
    (rest & used(op)) == rest
}

// The opcode and the fields of a word as they stand, whether it is an instruction or not.
pub fn fields(word: u32) -> Instruction
    ensures { standing result ≡ fields_of word }
{
    Instruction {
        op: word / 16777216,
        a: word / 1048576 % 16,
        b: word / 65536 % 16,
        low: word % 65536,
    }
}

// Whether four numbers have room in a word.
fn has_room(op: u32, a: u32, b: u32, low: u32) -> bool
    ensures { result ≡ has_room op a b low }
{
    op < 14 && a < 16 && b < 16 && low < 65536
}

/// Takes a word apart: the opcode is one of the fourteen, and no unused bit is set; or says which of the two is not so.
pub fn decode(word: u32) -> Result<Instruction, Refusal>
    ensures { decoded result ≡ decode word }
{
    let instruction = fields(word);
    match instruction.op {
        NOP..=HALT if fits(word, instruction.op) => Ok(instruction),
        NOP..=HALT => Err(Refusal::StrayBit),
        _ => Err(Refusal::NoInstruction),
    }
}

// The word with these fields.
fn packed(op: u32, a: u32, b: u32, low: u32) -> u32
    requires { Room op a b low }
    ensures { result ≡ pack op a b low }
{
    op * 16777216 + a * 1048576 + b * 65536 + low
}

/// Puts a word together; any four numbers.
pub fn encode(op: u32, a: u32, b: u32, low: u32) -> Result<u32, Refusal>
    ensures { encoded result ≡ encode op a b low }
{
    if !has_room(op, a, b, low) {
        return Err(Refusal::NoWord);
    }
    let word = packed(op, a, b, low);
    if fits(word, op) {
        Ok(word)
    } else {
        Err(Refusal::NoWord)
    }
}
