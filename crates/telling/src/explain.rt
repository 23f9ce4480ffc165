// How a run ended, in plain words with every number that matters.
use causes::{Came, tell_answer, tell_cause};
use grants::tell_compartments;
use lines::status::Status;
use loader::room::Room;
use machine::Ran;
use memory::{Memories, word_at};
use sentences::offsets::tell_refusal;
use std::io;

// Where pc stood before the last of `count` steps, where that was a word: the image is loaded again and run one step less.
fn came_from(strict: bool, bytes: &[u8], count: u32) -> Option<Came> {
    let budget = count.checked_sub(1)?;
    let mut room = Room::<2048>::new();
    let l = room.load(strict, bytes);
    let before = room.run(l.cpu, budget).cpu;
    let pc = before.pc;
    if pc < before.n {
        let word = word_at(&room.words, pc);
        Some(Came { pc, word })
    } else {
        None
    }
}

fn tell_registers(rt: &impl Print, regs: &[u32; 16]) -> io::Result<()> {
    let mut lead = "registers: ";
    for (i, value) in regs.iter().enumerate() {
        if *value != 0 {
            print!(rt; "{lead}r{i} = {value}")?;
            lead = ", ";
        }
    }
    if regs.iter().all(|value| *value == 0) {
        print!(rt; "registers: all are 0")?;
    }
    println!(rt; "")
}

// The words that are no more as the image has them.
fn tell_changes(rt: &impl Print, words: &[u32], first: &[u32; 2048]) -> io::Result<()> {
    for (x, (word, was)) in words.iter().zip(first).enumerate() {
        if word != was {
            println!(rt; "word {x} is {word}, and was {was} in the image")?;
        }
    }
    Ok(())
}

// All that is told of a run.
fn tell_run(
    rt: &impl Print,
    ran: Ran,
    came: Option<Came>,
    lent: &Memories<'_>,
    first: &[u32; 2048],
) -> io::Result<()> {
    let cpu = ran.cpu;
    print!(rt;
        "answer {} after {} steps, at pc {}: ",
        ran.answer, ran.count, cpu.pc
    )?;
    tell_answer(rt, ran.answer)?;
    println!(rt; "")?;
    if ran.answer != 0 {
        let w = why::why(cpu, lent);
        tell_cause(rt, &w, cpu, lent, came)?;
    }
    tell_registers(rt, &cpu.regs)?;
    tell_changes(rt, lent.words, first)?;
    tell_compartments(rt, cpu, lent)
}

/// Explains an image's run in a mode, of at most `budget` steps; answers its status.
pub fn explain(rt: &impl Print, strict: bool, bytes: &[u8], budget: u32) -> io::Result<Status> {
    let mut room = Room::<2048>::new();
    let l = room.load(strict, bytes);
    if let Err(refusal) = l.answer {
        tell_refusal(rt, u32::from(refusal), bytes)?;
        return Ok(Status::Refused);
    }
    let first = room.words;
    let ran = room.run(l.cpu, budget);
    let came = came_from(strict, bytes, ran.count);
    tell_run(rt, ran, came, &room.lent(), &first)?;
    Ok(Status::of(ran.answer))
}
