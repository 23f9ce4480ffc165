// The tags at the addresses of a set, written: owners, and sets of compartment numbers.
#![tactic(auto)]

ghost use Rattle.std.specs.Prelude.{◌≡◌, [], ◌∷◌, ◌≤◌, get_or};
ghost use Rattle.common.specs.Instructions.{bit};
ghost use Rattle.common.specs.Services.{service_count};
ghost use Rattle.rules.specs.Laws.CountLaws.{differs, differing};
ghost use Rattle.rules.specs.Step.{owned, joined, joined_services, join_at};
ghost use Rattle.address_sets.specs.SetLaws.{pair_of, set_of};
ghost use Rattle.tags.specs.TagLaws.{joined_if};

use address_sets::{AddressSet, Pair, clipped};
use compartments::Set;
use modes::{ADD_JUMP_TARGET, ADD_READ_TARGET, ADD_STORE_TARGET, ISOLATE};

// 1 where two tags differ, and else 0.
fn differs(a: u64, b: u64) -> u32
    ensures { (result ≡ bit (differs a b)) × (result ≤ 1) }
{
    u32::from(a != b)
}

// The words of the pair get an owner; the result is how many had another.
fn own_pair(owners: &mut [u32], n: u32, pair: Pair, number: u32) -> u32
    ensures { (owners.new ≡ owned n (pair_of pair ∷ []) number owners.old) × (result ≡ differing n owners.old owners.new) }
{
    let end = clipped(pair.past, n, owners.len());
    let mut changes = 0;
    for x in pair.first as usize..end {
        changes += differs(u64::from(owners[x]), u64::from(number));
        owners[x] = number;
    }
    changes
}

// kept: the new form is no plainer: one function for this and own_pair needs a trait that says an owner and a set as numbers.
// A number joins the sets at the words of the pair; the result is how many did not have it.
fn join_pair(sets: &mut [u64], n: u32, pair: Pair, number: u32) -> u32
    ensures { (sets.new ≡ joined n (pair_of pair ∷ []) number sets.old) × (result ≡ differing n sets.old sets.new) }
{
    let end = clipped(pair.past, n, sets.len());
    let mut changes = 0;
    for x in pair.first as usize..end {
        let set = Set(sets[x]).insert(number);
        changes += differs(sets[x], set.0);
        sets[x] = set.0;
    }
    changes
}

// The words of the set get an owner; the result is how many had another, those of two pairs counted once.
pub fn own(owners: &mut [u32], n: u32, set: &AddressSet, number: u32) -> u32
    ensures { (owners.new ≡ owned n (set_of set.now) number owners.old) × (result ≡ differing n owners.old owners.new) }
{
    let mut changes = 0;
    for j in 0..set.count() {
        changes += own_pair(owners, n, set.pair(j), number);
    }
    changes
}

// A number joins the sets at the words of the set; the result is how many did not have it.
pub fn join(sets: &mut [u64], n: u32, set: &AddressSet, number: u32) -> u32
    ensures { (sets.new ≡ joined n (set_of set.now) number sets.old) × (result ≡ differing n sets.old sets.new) }
{
    let mut changes = 0;
    for j in 0..set.count() {
        changes += join_pair(sets, n, set.pair(j), number);
    }
    changes
}

// A number joins one set, if it is to.
fn join_if(joins: bool, set: u64, number: u32) -> u64
    ensures { result ≡ joined_if joins set number }
{
    if joins {
        Set(set).insert(number).0
    } else {
        set
    }
}

// A number joins the sets of the services that the set has.
pub fn join_services(services: [u64; 4], set: &AddressSet, number: u32) -> [u64; 4]
    ensures { result ≡ joined_services (set_of set.now) number services }
{
    let isolate = join_if(set.contains(ISOLATE), services[0], number);
    let add_jump = join_if(set.contains(ADD_JUMP_TARGET), services[1], number);
    let add_store = join_if(set.contains(ADD_STORE_TARGET), services[2], number);
    let add_read = join_if(set.contains(ADD_READ_TARGET), services[3], number);
    [isolate, add_jump, add_store, add_read]
}

// At how many of the mode's services the sets are not as they were.
pub fn services_joined(strict: bool, before: [u64; 4], after: [u64; 4]) -> u32
    ensures { result ≡ differing (service_count strict) before after }
{
    let isolate = differs(before[0], after[0]);
    let add_jump = differs(before[1], after[1]);
    let add_store = differs(before[2], after[2]);
    let three = isolate + add_jump + add_store;
    if strict {
        three + differs(before[3], after[3])
    } else {
        three
    }
}

// A number joins the set at x; the result is 1 where the set did not have it.
pub fn join_at(sets: &mut [u64], x: u32, number: u32) -> u32
    ensures { (sets.new ≡ join_at sets.old x number) × (result ≡ bit (differs (get_or sets.old x 0) (get_or sets.new x 0))) }
{
    let i = x as usize;
    if i >= sets.len() {
        return 0;
    }
    let old = sets[i];
    let set = Set(old).insert(number);
    sets[i] = set.0;
    differs(old, set.0)
}
