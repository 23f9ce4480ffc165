// A line for each step, written as it is made.
use causes::tell_answer;
use grants::{Grant, list};
use lines::status::Status;
use loader::room::Room;
use machine::Processor;
use memory::{Memories, word_at};
use sentences::forms::Spelled;
use sentences::offsets::tell_refusal;
use std::io;

fn service_name(pc: u32) -> &'static str {
    match pc {
        modes::ISOLATE => "isolate",
        modes::ADD_JUMP_TARGET => "add jump target",
        modes::ADD_STORE_TARGET => "add store target",
        modes::ADD_READ_TARGET => "add read target",
        _ => "is no place",
    }
}

// The step's number, pc, the owner and the instruction, or the service.
fn tell_head(
    rt: &impl Print,
    number: u32,
    cpu: Processor,
    owner: u32,
    word: u32,
) -> io::Result<()> {
    let pc = cpu.pc;
    if pc < cpu.n {
        print!(rt; "{number}: {pc} of {owner}: {}", Spelled(word))
    } else {
        print!(rt; "{number}: {pc} {}", service_name(pc))
    }
}

// The first register that the step changed, as "; r2 = 7".
fn tell_register(rt: &impl Print, was: &[u32; 16], is: &[u32; 16]) -> io::Result<()> {
    for (i, (was, is)) in was.iter().zip(is).enumerate() {
        if was != is {
            return print!(rt; "; r{i} = {is}");
        }
    }
    Ok(())
}

// "; [5] = 42" where the instruction was a Store.
fn tell_store(rt: &impl Print, word: u32, regs: &[u32; 16]) -> io::Result<()> {
    match instructions::decode(word) {
        Ok(i) if i.op == instructions::STORE => {
            print!(rt; "; [{}] = {}", word_at(regs, i.a), word_at(regs, i.b))
        }
        _ => Ok(()),
    }
}

// What a step that ran changed, behind what it was.
fn tell_effect(rt: &impl Print, before: Processor, after: Processor, word: u32) -> io::Result<()> {
    if before.pc < before.n {
        tell_store(rt, word, &before.regs)?;
        tell_register(rt, &before.regs, &after.regs)
    } else if before.pc == modes::ISOLATE {
        print!(rt; "; next {}", after.next)
    } else {
        let place = before.regs[1];
        print!(rt; "; {} joins {place}", before.prev)
    }
}

// What the new compartment owns, where there is one.
fn tell_new(
    rt: &impl Print,
    before: Processor,
    after: Processor,
    lent: &Memories<'_>,
) -> io::Result<()> {
    if after.next != before.next {
        list(rt, Grant::Owns, before.next, ", owns ", after, lent)?;
    }
    Ok(())
}

// What came of a step, behind what it was.
fn tell_step(
    rt: &impl Print,
    answer: u32,
    word: u32,
    before: Processor,
    after: Processor,
    lent: &Memories<'_>,
) -> io::Result<()> {
    if answer == 0 {
        tell_effect(rt, before, after, word)?;
        tell_new(rt, before, after, lent)?;
    } else {
        print!(rt; "; answer {answer}: ")?;
        tell_answer(rt, answer)?;
    }
    println!(rt; "")
}

// Makes one step and tells it; answers the step's answer.
fn trace_step(
    rt: &impl Print,
    number: u32,
    cpu: &mut Processor,
    room: &mut Room<2048>,
) -> io::Result<u32> {
    let before = *cpu;
    let word = word_at(&room.words, before.pc);
    let owner = word_at(&room.owners, before.pc);
    tell_head(rt, number, before, owner, word)?;
    let s = room.step(before);
    tell_step(rt, s.answer, word, before, s.cpu, &room.lent())?;
    *cpu = s.cpu;
    Ok(s.answer)
}

// Steps from number `from` on, at most `steps` of them.
fn trace_steps(
    rt: &impl Print,
    from: u32,
    steps: u32,
    mut cpu: Processor,
    room: &mut Room<2048>,
) -> io::Result<Status> {
    for i in 0..steps {
        let answer = trace_step(rt, from.wrapping_add(i), &mut cpu, room)?;
        if answer != 0 {
            return Ok(Status::of(answer));
        }
    }
    Ok(Status::UsedUp)
}

/// Traces an image's run in a mode: the first `from` steps are made and not told, then at most `steps` are; answers its status. A run that
/// ends before `from` is told by the step that ended it.
pub fn trace(
    rt: &impl Print,
    strict: bool,
    bytes: &[u8],
    from: u32,
    steps: u32,
) -> io::Result<Status> {
    let mut room = Room::<2048>::new();
    let l = room.load(strict, bytes);
    if let Err(refusal) = l.answer {
        tell_refusal(rt, u32::from(refusal), bytes)?;
        return Ok(Status::Refused);
    }
    let r = room.run(l.cpu, from);
    trace_steps(rt, r.count, steps, r.cpu, &mut room)
}
