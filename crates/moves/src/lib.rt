// What the instruction at pc will write, decided by reading alone.
#![tactic(auto)]

ghost use Rattle.std.specs.Prelude.{◌≡◌, ◌<◌, ◌≤◌, slice_index};
ghost use Rattle.common.specs.Answers as answer;
ghost use Rattle.common.specs.Words.{op_of, decode};
ghost use Rattle.common.specs.Instructions.{plus};
ghost use Rattle.moves.specs.Moves as is;

use instructions::{ADD, BNZ, CONST, HALT, JAL, JUMP, LEQ, LOAD, MOV, NOP, STORE, fields, fits};
use rights::arrival;

// A register to write (16: none) and its value; a place to store to (4294967295: none) and its word; then pc, and how it comes there.
#[derive(Clone, Copy)]
pub struct Move {
    pub answer: u32,
    pub rd: u32,
    pub value: u32,
    pub place: u32,
    pub word: u32,
    pub pc: u32,
    pub arrival: u64,
}

// No register, and no place: N is never above 2,048.
const NO_REGISTER: u32 = 16;

const NOWHERE: u32 = u32::MAX;

// Nothing is written; every move tells the instruction's owner.
fn stop(answer: u32, owner: u32) -> Move
    ensures { result ≡ is.stop answer owner }
{
    Move {
        answer,
        rd: NO_REGISTER,
        value: 0,
        place: NOWHERE,
        word: 0,
        pc: 0,
        arrival: owner as u64,
    }
}

fn puts(owner: u32, pc: u32, rd: u32, value: u32) -> Move
    ensures { result ≡ is.puts owner pc rd value }
{
    Move {
        answer: answers::DONE,
        rd,
        value,
        place: NOWHERE,
        word: 0,
        pc,
        arrival: owner as u64,
    }
}

fn goes(owner: u32, pc: u32) -> Move
    ensures { result ≡ is.goes owner pc }
{
    puts(owner, pc, NO_REGISTER, 0)
}

fn stores(owner: u32, pc: u32, place: u32, word: u32) -> Move
    ensures { result ≡ is.stores owner pc place word }
{
    Move {
        answer: answers::DONE,
        rd: NO_REGISTER,
        value: 0,
        place,
        word,
        pc,
        arrival: owner as u64,
    }
}

fn leaps(owner: u32, pc: u32, rd: u32, value: u32) -> Move
    ensures { result ≡ is.leaps owner pc rd value }
{
    Move {
        answer: answers::DONE,
        rd,
        value,
        place: NOWHERE,
        word: 0,
        pc,
        arrival: owner as u64 + arrival::JUMPED,
    }
}

fn reg(regs: &[u32; 16], i: u32) -> u32
    requires { i < 16 }
    ensures { result ≡ slice_index regs.now i }
{
    regs[i as usize]
}

// Reading is free to all, or in strict mode to the target's owner and its readers.
fn may_read(owner: u32, x: u32, strict: bool, owners: &[u32], readers: &[u64]) -> bool
    ensures { result ≡ is.may_read owner x strict owners.now readers.now }
{
    !strict
        || rights::may_use(
            owner,
            memory::word_at(owners, x),
            memory::set_at(readers, x),
        )
}

#[tactic(auto, unfolding(crate::specs::Moves::load_move))]
fn load_move(
    owner: u32,
    on: u32,
    rd: u32,
    x: u32,
    strict: bool,
    n: u32,
    words: &[u32],
    owners: &[u32],
    readers: &[u64],
) -> Move
    ensures { result ≡ is.load_move owner on rd x strict n words.now owners.now readers.now }
{
    if n <= x {
        return stop(answers::LOAD_OUTSIDE, owner);
    }
    if !may_read(owner, x, strict, owners, readers) {
        return stop(answers::LOAD_FORBIDDEN, owner);
    }
    puts(owner, on, rd, memory::word_at(words, x))
}

#[tactic(auto, unfolding(crate::specs::Moves::store_move))]
fn store_move(owner: u32, on: u32, x: u32, y: u32, n: u32, owners: &[u32], writers: &[u64]) -> Move
    ensures { result ≡ is.store_move owner on x y n owners.now writers.now }
{
    if n <= x {
        return stop(answers::STORE_OUTSIDE, owner);
    }
    if !rights::may_use(
        owner,
        memory::word_at(owners, x),
        memory::set_at(writers, x),
    ) {
        return stop(answers::STORE_FORBIDDEN, owner);
    }
    stores(owner, on, x, y)
}

// pc + 1 is made here, where it is wanted: then the compiler jumps, and what comes next need not wait for x.
#[tactic(auto, using(arithmetic::specs::Targets::is_branch), unfolding(crate::specs::Moves::bnz_move))]
fn bnz_move(owner: u32, pc: u32, low: u32, x: u32) -> Move
    requires { low < 65536 }
    ensures { result ≡ is.bnz_move owner (plus pc 1) pc low x }
{
    if x == 0 {
        goes(owner, pc.wrapping_add(1))
    } else {
        goes(owner, arithmetic::branch_target(pc, low))
    }
}

// 16.
fn stray(owner: u32) -> Move
    ensures { result ≡ is.stop answer.stray_bit owner }
{
    stop(answers::STRAY_BIT, owner)
}

// A word that is none of the arithmetic ones. Each arm asks for its own row of the table, which is then a constant; so an arm's own
// refusal is 16, and 3 is what no arm takes.
fn other(
    word: u32,
    regs: &[u32; 16],
    pc: u32,
    owner: u32,
    strict: bool,
    n: u32,
    words: &[u32],
    owners: &[u32],
    writers: &[u64],
    readers: &[u64],
) -> Move
    requires { 3 ≤ op_of word → op_of word < 8 → ⊥ }
    ensures { result ≡ is.word_move (decode word) regs.now pc owner strict n words.now owners.now writers.now readers.now }
{
    let i = fields(word);
    match i.op {
        NOP => if fits(word, NOP) {
            goes(owner, pc.wrapping_add(1))
        } else {
            stray(owner)
        },
        CONST => if fits(word, CONST) {
            puts(owner, pc.wrapping_add(1), i.a, i.low)
        } else {
            stray(owner)
        },
        MOV => if fits(word, MOV) {
            puts(owner, pc.wrapping_add(1), i.b, reg(regs, i.a))
        } else {
            stray(owner)
        },
        LOAD => if fits(word, LOAD) {
            load_move(
                owner,
                pc.wrapping_add(1),
                i.b,
                reg(regs, i.a),
                strict,
                n,
                words,
                owners,
                readers,
            )
        } else {
            stray(owner)
        },
        STORE => if fits(word, STORE) {
            store_move(
                owner,
                pc.wrapping_add(1),
                reg(regs, i.a),
                reg(regs, i.b),
                n,
                owners,
                writers,
            )
        } else {
            stray(owner)
        },
        JUMP => if fits(word, JUMP) {
            leaps(owner, reg(regs, i.a), NO_REGISTER, 0)
        } else {
            stray(owner)
        },
        JAL => if fits(word, JAL) {
            leaps(owner, reg(regs, i.a), 15, pc.wrapping_add(1))
        } else {
            stray(owner)
        },
        BNZ => if fits(word, BNZ) {
            bnz_move(owner, pc, i.low, reg(regs, i.a))
        } else {
            stray(owner)
        },
        HALT => if fits(word, HALT) {
            stop(answers::HALT, owner)
        } else {
            stray(owner)
        },
        _ => stop(answers::NO_INSTRUCTION, owner),
    }
}

// 3, 16, or the instruction of an owner at pc.
fn execute(
    word: u32,
    regs: &[u32; 16],
    pc: u32,
    owner: u32,
    strict: bool,
    n: u32,
    words: &[u32],
    owners: &[u32],
    writers: &[u64],
    readers: &[u64],
) -> Move
    ensures { result ≡ is.word_move (decode word) regs.now pc owner strict n words.now owners.now writers.now readers.now }
{
    let i = fields(word);
    match i.op {
        ADD..=LEQ => if fits(word, i.op) {
            puts(
                owner,
                pc.wrapping_add(1),
                i.low % 16,
                arithmetic::arith(i.op, reg(regs, i.a), reg(regs, i.b)),
            )
        } else {
            stray(owner)
        },
        _ => other(
            word, regs, pc, owner, strict, n, words, owners, writers, readers,
        ),
    }
}

// At a memory word: 15, 4, 3 and 16, then the instruction. A word of the compartment that just ran, and came here without a jump, is asked
// neither for 15 nor for 4.
pub fn decide(
    regs: &[u32; 16],
    pc: u32,
    arrival: u64,
    next: u32,
    strict: bool,
    n: u32,
    words: &[u32],
    owners: &[u32],
    jumpers: &[u64],
    writers: &[u64],
    readers: &[u64],
) -> Move
    ensures { result ≡ is.move_from arrival regs.now pc next strict n words.now owners.now jumpers.now writers.now readers.now }
{
    let owner = memory::word_at(owners, pc);
    if !arrival::is_home(arrival, owner) {
        if !rights::is_free(strict, owner, next) {
            return stop(answers::BAD_OWNER, owner);
        }
        let prev = arrival::prev_of(arrival);
        if owner != prev
            && !rights::jumped_in(
                prev,
                arrival::jumped_of(arrival),
                memory::set_at(jumpers, pc),
            )
        {
            return stop(answers::NO_ARRIVAL, owner);
        }
    }
    execute(
        memory::word_at(words, pc),
        regs,
        pc,
        owner,
        strict,
        n,
        words,
        owners,
        writers,
        readers,
    )
}
