// A sentence for each answer, with the numbers that `why` found.
#![tactic(auto)]

use answers::Refusal;
use grants::{jumpers_at, tell_members};
use machine::Processor;
use memory::{Memories, set_at, word_at};
use sentences::forms::Spelled;
use std::io;
use why::Reason;

/// Where pc stood before the last step that ran, and the word there.
#[derive(Clone, Copy)]
pub struct Came {
    pub pc: u32,
    pub word: u32,
}

// Why a step stops.
const STOPS: [Refusal; 14] = [
    Refusal::NoPlace,
    Refusal::NoInstruction,
    Refusal::NoArrival,
    Refusal::LoadOutside,
    Refusal::StoreOutside,
    Refusal::StoreForbidden,
    Refusal::BadSet,
    Refusal::EmptySet,
    Refusal::NotWithin,
    Refusal::NotOwned,
    Refusal::NoReturn,
    Refusal::NoNumber,
    Refusal::StrayBit,
    Refusal::LoadForbidden,
];

// The stop that a run's answer is; none of them of an answer that goes on, halts or finds the state not in order.
fn stop_of(answer: u32) -> Option<Refusal> {
    STOPS.iter().find(|stop| **stop as u32 == answer).copied()
}

fn sentence(stop: Refusal) -> &'static str {
    match stop {
        Refusal::NoPlace => "pc is neither a memory word nor a service",
        Refusal::NoInstruction => "no such opcode: the word is probably data",
        Refusal::NoArrival => "arrival is not allowed",
        Refusal::LoadOutside => "a Load from an address outside memory",
        Refusal::StoreOutside => "a Store to an address outside memory",
        Refusal::StoreForbidden => "a Store that is not allowed",
        Refusal::BadSet => "isolate: a set is not in order",
        Refusal::EmptySet => "isolate: A' is empty",
        Refusal::NotWithin => "isolate: a set names an address that the caller may not give",
        Refusal::NotOwned => "the caller does not own the address",
        Refusal::NoReturn => "the service could not return to its caller",
        Refusal::NoNumber => "isolate: all 64 compartment numbers are used",
        Refusal::StrayBit => "a stray bit: a known opcode with a bit set that it does not use",
        Refusal::LoadForbidden => "a Load that is not allowed",
        _ => "the state is not in order",
    }
}

/// What the answer is, in a sentence.
pub fn tell_answer(rt: &impl Print, answer: u32) -> io::Result<()> {
    rt.print(match answer {
        0 => "the budget is used",
        1 => "Halt",
        _ => sentence(stop_of(answer).unwrap_or(Refusal::BadForm)),
    })
}

fn tell_owner(rt: &impl Print, owner: u32) -> io::Result<()> {
    match owner {
        64 => print!(rt; "which is neither a word nor a service"),
        _ => print!(rt; "which is owned by {owner}"),
    }
}

fn tell_instruction(rt: &impl Print, pc: u32, word: u32, owner: u32) -> io::Result<()> {
    let spelled = Spelled(word);
    println!(rt; "  the instruction at {pc} is {spelled}, of compartment {owner}")
}

// Of an opcode that is none no bits are told.
fn tell_word(rt: &impl Print, w: &Reason) -> io::Result<()> {
    let opcode = w.value >> 24;
    print!(rt;
        "  the word at {} is 0x{:08X}; its opcode, {opcode}, ",
        w.place, w.value
    )?;
    match w.bits {
        0 => println!(rt; "is none of the fourteen"),
        bits => println!(rt; "does not use the bits 0x{bits:08X}"),
    }
}

// What brought pc there, where something ran, and who may arrive.
fn tell_arrival(
    rt: &impl Print,
    w: &Reason,
    cpu: Processor,
    granted: u64,
    came: Option<Came>,
) -> io::Result<()> {
    if let Some(Came { pc, word }) = came {
        tell_instruction(rt, pc, word, cpu.prev)?;
    }
    if !cpu.jumped {
        println!(rt; "  that is no jump, so pc may not leave the compartment")?;
    }
    print!(rt; "  pc is {}, ", w.place)?;
    tell_owner(rt, w.owner)?;
    tell_members(rt, "; by a jump may arrive there: ", granted)?;
    println!(rt; "; compartment {} came", cpu.prev)
}

fn tell_outside(rt: &impl Print, w: &Reason) -> io::Result<()> {
    println!(rt;
        "  it names the address {}, and memory has {} words",
        w.place, w.value
    )
}

// granted are the writers or the readers of the target.
fn tell_target(rt: &impl Print, w: &Reason, lead: &str, granted: u64) -> io::Result<()> {
    print!(rt; "  its target is {}, ", w.place)?;
    tell_owner(rt, w.owner)?;
    tell_members(rt, lead, granted)?;
    println!(rt; "")
}

fn set_name(set: u32) -> &'static str {
    match set {
        1 => "A'",
        2 => "J'",
        3 => "S'",
        _ => "R'",
    }
}

fn tell_set(rt: &impl Print, w: &Reason) -> io::Result<()> {
    let fault = match w.fault {
        1 => "is outside memory",
        2 => "begins a pair with first >= past",
        _ => "may not be read by the caller",
    };
    println!(rt;
        "  the set is {}; its word at {} {fault}",
        set_name(w.set),
        w.place
    )
}

fn tell_gift(rt: &impl Print, w: &Reason) -> io::Result<()> {
    print!(rt; "  the set is {}; it names {}, ", set_name(w.set), w.place)?;
    tell_owner(rt, w.owner)?;
    println!(rt; "")
}

// An address in a register, and who owns it.
fn tell_register(rt: &impl Print, register: u32, w: &Reason, caller: u32) -> io::Result<()> {
    print!(rt; "  r{register} is {}, ", w.place)?;
    tell_owner(rt, w.owner)?;
    match w.fault {
        2 => println!(rt; "; the caller is {caller}, and A' takes the word from it"),
        _ => println!(rt; "; the caller is {caller}"),
    }
}

/// The cause of an answer, in lines of their own; `came` is none where nothing ran.
pub fn tell_cause(
    rt: &impl Print,
    w: &Reason,
    cpu: Processor,
    lent: &Memories<'_>,
    came: Option<Came>,
) -> io::Result<()> {
    let Some(stop) = stop_of(w.answer) else {
        return Ok(());
    };
    if matches!(
        stop,
        Refusal::LoadOutside
            | Refusal::StoreOutside
            | Refusal::StoreForbidden
            | Refusal::LoadForbidden
    ) {
        let pc = cpu.pc;
        tell_instruction(rt, pc, word_at(lent.words, pc), word_at(lent.owners, pc))?;
    }
    match stop {
        Refusal::NoInstruction | Refusal::StrayBit => tell_word(rt, w),
        Refusal::NoArrival => {
            tell_arrival(rt, w, cpu, jumpers_at(cpu, lent.jumpers, w.place), came)
        }
        Refusal::LoadOutside | Refusal::StoreOutside => tell_outside(rt, w),
        Refusal::StoreForbidden => {
            tell_target(rt, w, "; its writers: ", set_at(lent.writers, w.place))
        }
        Refusal::LoadForbidden => {
            tell_target(rt, w, "; its readers: ", set_at(lent.readers, w.place))
        }
        Refusal::BadSet => tell_set(rt, w),
        Refusal::EmptySet => println!(rt; "  A' stands at {}, and its count is 0", w.place),
        Refusal::NotWithin => tell_gift(rt, w),
        Refusal::NotOwned => tell_register(rt, 1, w, cpu.prev),
        Refusal::NoReturn => tell_register(rt, 15, w, cpu.prev),
        Refusal::NoNumber => {
            println!(rt; "  there are {}, and the next would be the 65th", w.value)
        }
        _ => Ok(()),
    }
}
