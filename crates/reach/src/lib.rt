// What a compartment reaches by the tags, and the checks of it: the sets that it may hand over (8), what it may give away (10) and the
// address to return to (12).
#![tactic(auto)]

ghost use Rattle.std.specs.Prelude.{◌≡◌, [], ◌-◌};
ghost use Rattle.common.specs.Instructions.{reg};
ghost use Rattle.common.specs.AddressSets.{set_at, all_from, good_set, within};
ghost use Rattle.rules.specs.State.{owns, jumpers_at, reads};
ghost use Rattle.rules.specs.Checks.{good_in, good_sets, sets_within, returns};
ghost use Rattle.address_sets.specs.SetLaws.{set_of};
ghost use Rattle.reach.specs.Called.{asked, asked_by, reading, reaches, lent_to, lent_with};

use address_sets::{AddressSet, Pair, clipped};
use compartments::Set;
use memory::{Memories, set_at, word_at};

// The address before the services, which are owned by the compartments from 1 on.
const BEFORE: u32 = modes::ISOLATE - 1;

/// The tags that decide a reach: the owners, and the sets of compartment numbers at words and at services.
#[derive(Clone, Copy)]
pub struct Tags<'a> {
    pub owners: &'a [u32],
    pub sets: &'a [u64],
    pub services: &'a [u64],
}

/// A compartment that asks, and the mode and the N by which it is answered.
#[derive(Clone, Copy)]
pub struct Caller {
    pub strict: bool,
    pub n: u32,
    pub number: u32,
}

impl Caller {
    // Whether the caller owns x, a memory word or a service.
    #[tactic(auto, using(common::proofs::Laws::ServiceLaws::service_range), unfolding(common::specs::Services::service_at, rules::specs::State::owns, rules::specs::State::has_owner, rules::specs::State::owner_at, rules::specs::State::in_memory))]
    pub fn owns(self, owners: &[u32], x: u32) -> bool
        ensures { result ≡ owns (asked self.strict self.n owners.now [] []) self.number x }
    {
        if x < self.n {
            word_at(owners, x) == self.number
        } else {
            modes::is_service(self.strict, x) && x - BEFORE == self.number
        }
    }

    // The set of compartment numbers at x: a word's, a service's, or the empty one.
    #[tactic(auto, using(common::proofs::Laws::ServiceLaws::service_range), unfolding(rules::specs::State::jumpers_at, rules::specs::State::in_memory))]
    fn numbers_at(self, tags: &Tags, x: u32) -> u64
        ensures { result ≡ jumpers_at (asked self.strict self.n [] tags.now.sets.now tags.now.services.now) x }
    {
        if x < self.n {
            set_at(tags.sets, x)
        } else if modes::is_service(self.strict, x) {
            set_at(tags.services, x - modes::ISOLATE)
        } else {
            0
        }
    }

    // Whether the caller owns x or is in the set at x.
    pub fn reaches(self, tags: &Tags, x: u32) -> bool
        ensures { result ≡ reaches (asked_by self tags.now) self.number x }
    {
        self.owns(tags.owners, x) || Set(self.numbers_at(tags, x)).contains(self.number)
    }

    // Whether the caller reaches every address of the pair. The first that it does not ends the walk, and nobody reaches an address that
    // is neither a word nor a service: no walk is longer than memory.
    fn reaches_all(self, tags: &Tags, pair: Pair) -> bool
        ensures { result ≡ all_from (reaches (asked_by self tags.now) self.number) pair.first (pair.past - pair.first) }
    {
        let first = pair.first as usize;
        let end = clipped(pair.past, self.n, tags.owners.len());
        // the words, most of which are the caller's own
        for x in first..end {
            if tags.owners[x] != self.number
                && !Set(set_at(tags.sets, x as u32)).contains(self.number)
            {
                return false;
            }
        }
        // the rest
        for x in first.max(end)..pair.past as usize {
            if !self.reaches(tags, x as u32) {
                return false;
            }
        }
        true
    }

    // Whether the caller reaches every address of the set.
    pub fn within(self, set: &AddressSet, tags: &Tags) -> bool
        ensures { result ≡ within (set_of set.now) (reaches (asked_by self tags.now) self.number) }
    {
        (0..set.count()).all(|j| self.reaches_all(tags, set.pair(j)))
    }

    // Whether the set is inside memory and in order, and in strict mode the caller may read its words, count and pairs.
    pub fn good(self, set: &AddressSet, owners: &[u32], readers: &[u64]) -> bool
        ensures { result ≡ good_set set.now.words.now self.n (reads (reading self.strict self.n owners.now readers.now) self.number) set.now.at }
    {
        if !set.is_in_order(self.n) {
            return false;
        }
        if !self.strict {
            return true;
        }
        let past = set.at + 1 + 2 * set.count();
        let pair = Pair {
            first: set.at,
            past,
        };
        let tags = Tags {
            owners,
            sets: readers,
            services: &[],
        };
        self.reaches_all(&tags, pair)
    }
}

/// A call of a service: who calls, its registers, the first unused compartment number and the sets of the services.
#[derive(Clone, Copy)]
pub struct Call<'a> {
    pub caller: Caller,
    pub regs: &'a [u32; 16],
    pub next: u32,
    pub services: [u64; 4],
}

impl Call<'_> {
    // The set that register r points at.
    pub fn set<'a>(&self, r: usize, words: &'a [u32]) -> AddressSet<'a>
        ensures { result ≡ record { words = words.entry; at = reg self.now.regs.now r } }
    {
        let regs = self.regs;
        AddressSet {
            words,
            at: regs.get(r).copied().unwrap_or(0),
        }
    }

    // Whether the set that register r points at is good. Made a part of its caller, each set takes a fifth fewer instructions.
    #[inline]
    #[tactic(auto, unfolding(rules::specs::State::reads, rules::specs::State::owns, rules::specs::State::has_owner, rules::specs::State::owner_at, rules::specs::State::may_read, rules::specs::State::readers_at, rules::specs::State::in_memory))]
    fn good(&self, r: usize, lent: &Memories) -> bool
        ensures { result ≡ good_in (lent_to self.now lent.now) self.now.caller.number r }
    {
        self.caller
            .good(&self.set(r, lent.words), lent.owners, lent.readers)
    }

    // Whether the sets that the caller points at are good: three, and in strict mode R' too.
    #[tactic(auto, unfolding(rules::specs::Checks::good_sets))]
    pub fn all_good(&self, lent: &Memories) -> bool
        ensures { result ≡ good_sets (lent_to self.now lent.now) self.now.caller.number }
    {
        self.good(1, lent)
            && self.good(2, lent)
            && self.good(3, lent)
            && (!self.caller.strict || self.good(4, lent))
    }

    // Whether the set that register r points at is within what the caller reaches by these tags.
    fn within(&self, r: usize, lent: &Memories, tags: &Tags) -> bool
        ensures { result ≡ within (set_at lent.now.words.now (reg self.now.regs.now r)) (reaches (asked_by self.now.caller tags.now) self.now.caller.number) }
    {
        self.caller.within(&self.set(r, lent.words), tags)
    }

    // Whether the caller may give the sets away: all of A' is its own, and all of J', of S' and in strict mode of R' is its own or open to
    // it by grants; `services` has the sets of the services.
    #[tactic(auto, using(crate::specs::ReachLaws::sets_within_lem))]
    pub fn all_within(&self, services: &[u64], lent: &Memories) -> bool
        ensures { result ≡ sets_within (lent_with self.now services.now lent.now) self.now.caller.number }
    {
        let owned = Tags {
            owners: lent.owners,
            sets: &[],
            services: &[],
        };
        let jumped = Tags {
            sets: lent.jumpers,
            services,
            ..owned
        };
        let stored = Tags {
            sets: lent.writers,
            ..owned
        };
        let read = Tags {
            sets: lent.readers,
            ..owned
        };
        self.within(1, lent, &owned)
            && self.within(2, lent, &jumped)
            && self.within(3, lent, &stored)
            && (!self.caller.strict || self.within(4, lent, &read))
    }

    // Whether r15 is a memory word that the caller owns and keeps when A' is taken away.
    #[tactic(auto, using(crate::specs::ReachLaws::leaves))]
    pub fn returns(&self, lent: &Memories) -> bool
        ensures { result ≡ returns (lent_to self.now lent.now) self.now.caller.number }
    {
        let back = self.regs[15];
        back < self.caller.n
            && self.caller.owns(lent.owners, back)
            && !self.set(1, lent.words).contains(back)
    }
}
