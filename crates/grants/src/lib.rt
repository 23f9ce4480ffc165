// What a compartment owns and may do, as ranges of addresses.
#![tactic(auto)]

ghost use Rattle.std.specs.Prelude.{◌≡◌};
ghost use Rattle.grants.specs.Kinds.{grant_of};

use compartments::Set;
use machine::Processor;
use memory::Memories;
use reach::Caller;
use std::convert::AsSlice;
use std::io;

/// What is listed of a compartment.
#[derive(Clone, Copy, Debug, PartialEq, Eq)]
pub enum Grant {
    Owns,
    JumpsTo,
    StoresTo,
    Reads,
}

impl From<u32> for Grant {
    ghost from_gives = { λ kind grant. grant ≡ grant_of kind };

    fn from(kind: u32) -> Grant {
        match kind {
            0 => Grant::Owns,
            1 => Grant::JumpsTo,
            2 => Grant::StoresTo,
            _ => Grant::Reads,
        }
    }
}

// The last service is at 4099.
const PAST: u32 = 4100;

/// The set I of a word or of a service, and the empty set elsewhere.
pub fn jumpers_at(cpu: Processor, jumpers: &[u64], x: u32) -> u64 {
    if x < cpu.n {
        memory::set_at(jumpers, x)
    } else if modes::is_service(cpu.strict, x) {
        memory::set_at(&cpu.services, x.wrapping_sub(modes::ISOLATE))
    } else {
        0
    }
}

// The set of a word, and the empty set elsewhere.
fn set_below(n: u32, sets: &[u64], x: u32) -> u64 {
    if x < n { memory::set_at(sets, x) } else { 0 }
}

impl Grant {
    // Whether compartment c owns x, or is among the jumpers, the writers or the readers there.
    fn has(self, c: u32, x: u32, cpu: Processor, lent: &Memories<'_>) -> bool {
        match self {
            Grant::Owns => {
                let caller = Caller {
                    strict: cpu.strict,
                    n: cpu.n,
                    number: c,
                };
                caller.owns(lent.owners, x)
            }
            Grant::JumpsTo => Set(jumpers_at(cpu, lent.jumpers, x)).contains(c),
            Grant::StoresTo => Set(set_below(cpu.n, lent.writers, x)).contains(c),
            Grant::Reads => Set(set_below(cpu.n, lent.readers, x)).contains(c),
        }
    }
}

// The addresses from `first` to the one before `past`, behind what parts them from others; a single one as itself.
fn tell_range(rt: &impl Print, between: &str, first: u32, past: u32) -> io::Result<()> {
    let last = past.wrapping_sub(1);
    if first == last {
        print!(rt; "{between}{first}")
    } else {
        print!(rt; "{between}{first}-{last}")
    }
}

/// The addresses of one kind as ranges, behind a text, whose bytes may be any; nothing where there is none. Answers whether there is one.
pub fn list(
    rt: &impl Print,
    grant: impl Into<Grant>,
    c: u32,
    lead: impl AsSlice<u8> + Drop,
    cpu: Processor,
    lent: &Memories<'_>,
) -> io::Result<bool> {
    let grant: Grant = grant.into();
    let mut told = false;
    let mut open = None;
    // nobody has anything between memory and the services
    let words = 0..=cpu.n.min(PAST);
    let services = cpu.n.saturating_add(1).max(modes::ISOLATE)..=PAST;
    for x in words.chain(services) {
        let here = x < PAST && grant.has(c, x, cpu, lent);
        match open {
            None if here => open = Some(x),
            Some(first) if !here => {
                if !told {
                    rt.write_all(lead.as_slice())?;
                }
                tell_range(rt, if told { ", " } else { "" }, first, x)?;
                told = true;
                open = None;
            }
            _ => {}
        }
    }
    Ok(told)
}

// A line for a compartment.
fn tell_compartment(
    rt: &impl Print,
    c: u32,
    cpu: Processor,
    lent: &Memories<'_>,
) -> io::Result<()> {
    print!(rt; "{c}: owns ")?;
    if !list(rt, Grant::Owns, c, "", cpu, lent)? {
        print!(rt; "nothing")?;
    }
    list(rt, Grant::JumpsTo, c, "; may jump to ", cpu, lent)?;
    list(rt, Grant::StoresTo, c, "; may store to ", cpu, lent)?;
    if cpu.strict {
        list(rt, Grant::Reads, c, "; may read ", cpu, lent)?;
    }
    println!(rt; "")
}

/// A line for each compartment below next.
pub fn tell_compartments(rt: &impl Print, cpu: Processor, lent: &Memories<'_>) -> io::Result<()> {
    for c in 0..cpu.next {
        tell_compartment(rt, c, cpu, lent)?;
    }
    Ok(())
}

/// The numbers in a set, or nobody, behind a text, whose bytes may be any.
pub fn tell_members(rt: &impl Print, lead: impl AsSlice<u8> + Drop, set: u64) -> io::Result<()> {
    rt.write_all(lead.as_slice())?;
    if set == 0 {
        return print!(rt; "nobody");
    }
    let mut between = "";
    for c in 0..64 {
        if Set(set).contains(c) {
            print!(rt; "{between}{c}")?;
            between = ", ";
        }
    }
    Ok(())
}
