// The counts that the run program prints: how many addresses a compartment owns, may jump to and may store to, and how many may
// write to the most widely writable word. For any state: where a list is shorter than N, its end ends the count.
#![tactic(auto)]

ghost use Rattle.std.specs.Prelude.{◌≡◌, []};
ghost use Rattle.common.specs.Instructions.{bit};
ghost use Rattle.rules.specs.Counts.{owned_count, jump_count, store_count, writer_count, widest};
ghost use Rattle.machine.specs.Views.{state_of};
ghost use Rattle.report.specs.CountLaws.{places_owned, places_with, outside, four};

use compartments::Set;
use machine::Processor;
use modes::{ADD_JUMP_TARGET, ADD_READ_TARGET, ADD_STORE_TARGET, ISOLATE};
use std::cmp::{max, min};

// How many places below N the number owns.
fn places_owned(owners: &[u32], n: u32, number: u32) -> u32
    ensures { result ≡ places_owned owners.now n number }
{
    let places = min(n as usize, owners.len());
    let mut count = 0;
    for owner in &owners[..places] {
        count += u32::from(*owner == number);
    }
    count
}

// How many of the sets at places below N have the number.
fn places_with(sets: &[u64], n: u32, number: u32) -> u32
    ensures { result ≡ places_with sets.now n number }
{
    let places = min(n as usize, sets.len());
    let mut count = 0;
    for set in &sets[..places] {
        count += u32::from(Set(*set).contains(number));
    }
    count
}

// 1 for a service at x that has the number and that N does not reach, else 0.
#[tactic(auto, unfolding(crate::specs::CountLaws::outside))]
fn service(n: u32, x: u32, has: bool) -> u32
    ensures { result ≡ bit (outside n x has) }
{
    u32::from(n <= x && has)
}

// How many of the services have the number; the fourth is one in strict mode alone.
#[tactic(auto, using(crate::specs::CountLaws::service_most, crate::specs::CountLaws::no_fourth, crate::specs::CountLaws::with_fourth))]
fn services(strict: bool, n: u32, isolate: bool, jump: bool, store: bool, read: bool) -> u32
    ensures { result ≡ four strict n isolate jump store read }
{
    let three = service(n, ISOLATE, isolate)
        + service(n, ADD_JUMP_TARGET, jump)
        + service(n, ADD_STORE_TARGET, store);
    if strict {
        three + service(n, ADD_READ_TARGET, read)
    } else {
        three
    }
}

// The addresses that a compartment owns, services counted.
pub fn owned(cpu: Processor, owners: &[u32], number: u32) -> u32
    ensures { result ≡ owned_count (state_of cpu [] owners.now [] [] []) number }
{
    // the numbers from 1 on own a service each
    let isolate = number == 1;
    let jump = number == 2;
    let store = number == 3;
    let read = number == 4;
    places_owned(owners, cpu.n, number) + services(cpu.strict, cpu.n, isolate, jump, store, read)
}

// The addresses that a compartment may jump to, services counted.
pub fn jumps(cpu: Processor, jumpers: &[u64], number: u32) -> u32
    ensures { result ≡ jump_count (state_of cpu [] [] jumpers.now [] []) number }
{
    let isolate = Set(cpu.services[0]).contains(number);
    let jump = Set(cpu.services[1]).contains(number);
    let store = Set(cpu.services[2]).contains(number);
    let read = Set(cpu.services[3]).contains(number);
    places_with(jumpers, cpu.n, number) + services(cpu.strict, cpu.n, isolate, jump, store, read)
}

// The addresses that a compartment may store to. No service is among them.
pub fn stores(cpu: Processor, writers: &[u64], number: u32) -> u32
    ensures { result ≡ store_count (state_of cpu [] [] [] writers.now []) number }
{
    places_with(writers, cpu.n, number)
}

// How many compartments may write to a word: its owner joins its writers; one from 64 on is in no set, and is one more.
#[tactic(auto, using(crate::specs::CountLaws::joined_most), unfolding(rules::specs::Counts::writer_count))]
fn writer_count(owner: u32, writers: u64) -> u32
    ensures { result ≡ writer_count owner writers }
{
    let joined = Set(writers).insert(owner).count();
    joined + u32::from(owner >= 64)
}

// The most compartments that may write to any one word below N, its owner counted once.
pub fn widest(cpu: Processor, owners: &[u32], writers: &[u64]) -> u32
    ensures { result ≡ widest (state_of cpu [] owners.now [] writers.now []) }
{
    let places = min(cpu.n as usize, min(owners.len(), writers.len()));
    let mut most = 0;
    for x in 0..places {
        most = max(most, writer_count(owners[x], writers[x]));
    }
    most
}
