// The monitor's services over the caller's numbers and the lent memories: every check by reading first, then the tags are written.
#![tactic(auto)]

ghost use Rattle.std.specs.Prelude.{◌≡◌, [], if◌then◌else◌};
ghost use Rattle.rules.specs.Laws.Tested.{isolate_verdict};
ghost use Rattle.rules.specs.Step.{joined};
ghost use Rattle.answers.specs.Numbers.{answer_of};
ghost use Rattle.address_sets.specs.SetLaws.{set_of};
ghost use Rattle.monitor.specs.Outcomes.{called_by, lent_with, isolating, isolating_of, adding, adding_of};

use address_sets::AddressSet;
use answers::Refusal;
use memory::Memories;
use reach::Call;

// Compartment numbers are below this.
const NUMBERS: u32 = 64;

/// The sets I of the four services, and what the new compartment gained: addresses, which its caller lost, jump targets and store targets.
#[derive(Clone, Copy)]
pub struct Isolated {
    pub services: [u64; 4],
    pub owned: u32,
    pub jump: u32,
    pub store: u32,
}

// The checks of isolate in the sheet's order.
#[tactic(auto, using(reach::specs::ReachLaws::good_with, reach::specs::ReachLaws::returns_with), unfolding(rules::specs::Laws::Tested::isolate_verdict))]
pub fn isolate_verdict(call: &Call, services: &[u64], lent: &Memories) -> Result<(), Refusal>
    ensures { answer_of result ≡ isolate_verdict (lent_with call.now services.now lent.now) call.now.caller.number }
{
    if !call.all_good(lent) {
        return Err(Refusal::BadSet);
    }
    if call.set(1, lent.words).is_empty() {
        return Err(Refusal::EmptySet);
    }
    if !call.all_within(services, lent) {
        return Err(Refusal::NotWithin);
    }
    if !call.returns(lent) {
        return Err(Refusal::NoReturn);
    }
    if call.next == NUMBERS {
        return Err(Refusal::NoNumber);
    }
    Ok(())
}

// A number joins the readers at the words of the set, in strict mode alone.
fn join_readers(strict: bool, readers: &mut [u64], n: u32, set: &AddressSet, number: u32)
    ensures { readers.new ≡ (if strict then joined n (set_of set.now) number readers.old else readers.old) }
{
    if strict {
        tags::join(readers, n, set, number);
    }
}

// Makes a compartment of what the caller's registers point at, if every check passes. Apart from the loop of a run, whose registers its
// walks would take.
#[inline(never)]
pub fn isolate(
    call: &Call,
    words: &[u32],
    owners: &mut [u32],
    jumpers: &mut [u64],
    writers: &mut [u64],
    readers: &mut [u64],
) -> Result<Isolated, Refusal>
    ensures { isolating_of call.now.services result owners.new jumpers.new writers.new readers.new ≡ isolating (called_by call.now words.now owners.old jumpers.old writers.old readers.old) }
{
    let lent = Memories {
        words,
        owners,
        jumpers,
        writers,
        readers,
    };
    isolate_verdict(call, &call.services, &lent)?;
    let n = call.caller.n;
    let strict = call.caller.strict;
    let child = call.next;
    let jumps = call.set(2, words);
    let owned = tags::own(owners, n, &call.set(1, words), child);
    let jump = tags::join(jumpers, n, &jumps, child);
    let store = tags::join(writers, n, &call.set(3, words), child);
    join_readers(strict, readers, n, &call.set(4, words), child);
    let services = tags::join_services(call.services, &jumps, child);
    let gates = tags::services_joined(strict, call.services, services);
    Ok(Isolated {
        services,
        owned,
        jump: jump.wrapping_add(gates),
        store,
    })
}

// The caller joins the set at the address in r1, if it owns that address and the one to return to; the result is 1 where it was not in the
// set, and else 0.
#[tactic(auto, unfolding(crate::specs::Outcomes::adding, rules::specs::Laws::Tested::add_verdict, rules::specs::State::owns, rules::specs::State::has_owner, rules::specs::State::owner_at, rules::specs::State::in_memory))]
pub fn add_target(call: &Call, owners: &[u32], sets: &mut [u64]) -> Result<u32, Refusal>
    ensures { adding_of result sets.new ≡ adding (called_by call.now [] owners.now [] [] []) sets.old }
{
    let target = call.regs[1];
    let back = call.regs[15];
    if !call.caller.owns(owners, target) {
        return Err(Refusal::NotOwned);
    }
    if !call.caller.owns(owners, back) {
        return Err(Refusal::NoReturn);
    }
    Ok(tags::join_at(sets, target, call.caller.number))
}
