// What is done with a loaded image: it is run, from a record whose next is handed in, or written again.
use crate::writing;
use loader::room::Room;
use machine::{Processor, Ran};

// As many places in each memory as an image may have words.
const PLACES: usize = 2048;

fn show_ran(rt: HostRuntime, r: Ran) {
    let cpu = r.cpu;
    let _ = println!(rt;
        " answer {} steps {} pc {} prev {} jumped {} next {}",
        r.answer, r.count, cpu.pc, cpu.prev, cpu.jumped as u8, cpu.next
    );
}

// What follows the load.
#[derive(Clone, Copy)]
pub(crate) enum After {
    // a run from a record with this next, with this budget
    Run { next: u32, budget: u32 },
    // a trip to the writer
    Write,
}

pub(crate) fn show_loaded_and(rt: HostRuntime, strict: bool, bytes: &[u8], after: After) {
    let mut room = Room::<PLACES>::new();
    let l = room.load(strict, bytes);
    match after {
        After::Write => writing::show_rewritten(rt, bytes, &room.words, l.cpu),
        After::Run { next, budget } => {
            let cpu = Processor { next, ..l.cpu };
            show_ran(rt, room.run(cpu, budget));
        }
    }
}
