// A step at a service: 2, 4, the service's own checks, then its work on the tags.
#![tactic(auto)]

ghost use Rattle.std.specs.Prelude.{◌≡◌};
ghost use Rattle.monitor.specs.Outcomes.{called_by, isolating_of, adding_of};
ghost use Rattle.service.specs.Served.{state_by, served_of, serving, isolated_by, added_by};

use answers::Refusal;
use monitor::Isolated;
use reach::Call;

/// Whether the call stopped, and why; the service's number, the first unused compartment number, the sets I of the four services, and which
/// compartment gained how many addresses, jump targets and store targets.
#[derive(Clone, Copy)]
pub struct Served {
    // kept: what may not change: `serve` promises the other numbers on a stop, too
    pub answer: Result<(), Refusal>,
    pub number: u32,
    pub next: u32,
    pub services: [u64; 4],
    pub to: u32,
    pub owned: u32,
    pub jump: u32,
    pub store: u32,
}

// At 4096.
#[tactic(auto, unfolding(crate::specs::Served::isolated_by))]
fn isolate(
    call: &Call,
    jumped: bool,
    words: &[u32],
    owners: &mut [u32],
    jumpers: &mut [u64],
    writers: &mut [u64],
    readers: &mut [u64],
) -> Result<Isolated, Refusal>
    ensures { isolating_of call.now.services result owners.new jumpers.new writers.new readers.new ≡ isolated_by jumped (called_by call.now words.now owners.old jumpers.old writers.old readers.old) }
{
    if !rights::jumped_in(call.caller.number, jumped, call.services[0]) {
        return Err(Refusal::NoArrival);
    }
    monitor::isolate(call, words, owners, jumpers, writers, readers)
}

// At 4097 over the jumpers, at 4098 over the writers, at 4099 over the readers; gate is the service's set.
#[tactic(auto, unfolding(crate::specs::Served::added_by, monitor::specs::Outcomes::adding, rules::specs::Laws::Tested::add_verdict, rules::specs::State::owns, rules::specs::State::has_owner, rules::specs::State::owner_at, rules::specs::State::in_memory))]
fn add_target(
    call: &Call,
    jumped: bool,
    gate: u64,
    owners: &[u32],
    sets: &mut [u64],
) -> Result<u32, Refusal>
    ensures { adding_of result sets.new ≡ added_by call.now.caller.strict call.now.regs.now call.now.caller.n call.now.caller.number jumped gate owners.now sets.old }
{
    if !rights::jumped_in(call.caller.number, jumped, gate) {
        return Err(Refusal::NoArrival);
    }
    monitor::add_target(call, owners, sets)
}

// A step where pc is not below N: 2, or a service.
pub fn serve(
    call: &Call,
    pc: u32,
    jumped: bool,
    words: &[u32],
    owners: &mut [u32],
    jumpers: &mut [u64],
    writers: &mut [u64],
    readers: &mut [u64],
) -> Served
    ensures { served_of result owners.new jumpers.new writers.new readers.new ≡ serving (state_by call.now pc jumped words.now owners.old jumpers.old writers.old readers.old) }
{
    let services = call.services;
    let strict = call.caller.strict;
    // where nothing is gained
    let still = Served {
        answer: Ok(()),
        number: 0,
        next: call.next,
        services,
        to: call.caller.number,
        owned: 0,
        jump: 0,
        store: 0,
    };
    match pc {
        modes::ISOLATE => {
            let asked = Served {
                number: 1,
                to: call.next,
                ..still
            };
            // its own copy, so that the call of an add, which is inlined, need not stand in memory
            let call = *call;
            match isolate(&call, jumped, words, owners, jumpers, writers, readers) {
                Ok(made) => {
                    let services = made.services;
                    Served {
                        next: call.next.wrapping_add(1),
                        services,
                        owned: made.owned,
                        jump: made.jump,
                        store: made.store,
                        ..asked
                    }
                }
                Err(refusal) => Served {
                    answer: Err(refusal),
                    ..asked
                },
            }
        }
        modes::ADD_JUMP_TARGET => {
            let added = add_target(call, jumped, services[1], owners, jumpers);
            Served {
                answer: added.and(Ok(())),
                number: 2,
                jump: added.unwrap_or(0),
                ..still
            }
        }
        modes::ADD_STORE_TARGET => {
            let added = add_target(call, jumped, services[2], owners, writers);
            Served {
                answer: added.and(Ok(())),
                number: 3,
                store: added.unwrap_or(0),
                ..still
            }
        }
        modes::ADD_READ_TARGET if strict => {
            // readers are not counted
            let added = add_target(call, jumped, services[3], owners, readers);
            Served {
                answer: added.and(Ok(())),
                number: 4,
                ..still
            }
        }
        _ => Served {
            answer: Err(Refusal::NoPlace),
            to: 0,
            ..still
        },
    }
}
