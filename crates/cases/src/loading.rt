// A load in a mode, over memories that hold marks: all that it hands back and leaves. And a check, which is lent none.
use crate::image::MOST;
use crate::showing::sum;
use answers::Refusal;
use machine::Processor;

// What the memories hold before a load.
const WORD_MARK: u32 = 11;

const OWNER_MARK: u32 = 22;

const JUMPERS_MARK: u64 = 33;

const WRITERS_MARK: u64 = 44;

const READERS_MARK: u64 = 55;

// The sums of the memories' contents.
#[derive(Clone, Copy, PartialEq, Eq)]
pub(crate) struct Sums {
    words: u64,
    owners: u64,
    jumpers: u64,
    writers: u64,
    readers: u64,
}

// What a load hands back, and the memories' sums behind it.
#[derive(Clone, Copy)]
pub(crate) struct Loaded {
    pub(crate) answer: Result<(), Refusal>,
    cpu: Processor,
    pub(crate) left: Sums,
}

impl Sums {
    // Those of so many places that hold their marks.
    pub(crate) fn of_marks(places: usize) -> Self {
        let places = places.min(MOST);
        Sums {
            words: sum(&[WORD_MARK; MOST][..places]),
            owners: sum(&[OWNER_MARK; MOST][..places]),
            jumpers: sum(&[JUMPERS_MARK; MOST][..places]),
            writers: sum(&[WRITERS_MARK; MOST][..places]),
            readers: sum(&[READERS_MARK; MOST][..places]),
        }
    }
}

// The sets of the services that there are.
fn sum_of_services(cpu: Processor) -> u64 {
    let services = cpu.services;
    if cpu.strict {
        sum(&services)
    } else {
        sum(&services[..3])
    }
}

// Loads into memories of five lengths: words, owners, jumpers, writers, readers.
pub(crate) fn loaded_over_marks(strict: bool, bytes: &[u8], lengths: [usize; 5]) -> Loaded {
    let mut words = [WORD_MARK; MOST];
    let mut owners = [OWNER_MARK; MOST];
    let mut jumpers = [JUMPERS_MARK; MOST];
    let mut writers = [WRITERS_MARK; MOST];
    let mut readers = [READERS_MARK; MOST];
    let words = &mut words[..lengths[0].min(MOST)];
    let owners = &mut owners[..lengths[1].min(MOST)];
    let jumpers = &mut jumpers[..lengths[2].min(MOST)];
    let writers = &mut writers[..lengths[3].min(MOST)];
    let readers = &mut readers[..lengths[4].min(MOST)];
    let l = loader::load(strict, bytes, words, owners, jumpers, writers, readers);
    Loaded {
        answer: l.answer,
        cpu: l.cpu,
        left: Sums {
            words: sum(words),
            owners: sum(owners),
            jumpers: sum(jumpers),
            writers: sum(writers),
            readers: sum(readers),
        },
    }
}

// The readers are shown in strict mode alone.
pub(crate) fn show_loaded(rt: HostRuntime, strict: bool, bytes: &[u8], lengths: [usize; 5]) {
    let l = loaded_over_marks(strict, bytes, lengths);
    let cpu = l.cpu;
    let regs = cpu.regs;
    let left = l.left;
    let _ = print!(rt;
        " answer {} n {} regs {} pc {} prev {} jumped {} next {} services {}",
        answers::answer_of(&l.answer),
        cpu.n,
        sum(&regs),
        cpu.pc,
        cpu.prev,
        cpu.jumped as u8,
        cpu.next,
        sum_of_services(cpu)
    );
    let _ = print!(rt;
        " words {} owners {} jumpers {} writers {}",
        left.words, left.owners, left.jumpers, left.writers
    );
    if strict {
        let _ = print!(rt; " readers {}", left.readers);
    }
    let _ = println!(rt; "");
}

pub(crate) fn show_checked(rt: HostRuntime, bytes: &[u8]) {
    let read = reader::check(bytes);
    let _ = println!(rt;
        " check {} n {}",
        answers::answer_of(&read),
        read.unwrap_or(0)
    );
}
