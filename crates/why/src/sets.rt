// Which of the caller's sets is at fault, and where: 8 and 10.
ghost use Rattle.std.specs.Prelude.{◌≡◌, Bool, false, ℕ, ◌<◌};
ghost use Rattle.common.specs.AddressSets.{ordered, good_set, within};
ghost use Rattle.rules.specs.State.{reads};
ghost use Rattle.reasons.specs.First.{first_disordered, first_set};
ghost use Rattle.reasons.specs.Why.{set_fault, fault_at, bad_set, wide_set, out_at, set_by, may_give};
ghost use Rattle.reasons.specs.Laws.FirstLaws.{Failing};
ghost use Rattle.address_sets.specs.SetLaws.{set_of};
ghost use Rattle.why.specs.Views.{before, set_number, fault_number};
ghost use Rattle.why.specs.Giving.{gives};
ghost use Rattle.why.specs.WalkLaws.{IsFirstNot};

use crate::next_step::{NewSet, NextStep};
use address_sets::AddressSet;

// What is wrong with a set.
#[derive(Clone, Copy)]
pub(crate) enum SetFault {
    Outside = 1,
    Disordered = 2,
    Unreadable = 3,
}

// The first of A', J' and S' that does not pass; R' where all three do.
#[tactic(auto, unfolding(reasons::specs::First::first_set))]
fn first_set<F: Fn(NewSet) -> bool>(passes: F) -> NewSet
    requires { F.IsAlwaysCallable passes }
    ensures { (test : ℕ → Bool) → ((set : _) (r : Bool) → set_number set < 4 → F.post passes set r → r ≡ test (set_number set)) → set_number result ≡ first_set test }
{
    if !passes(NewSet::Owned) {
        NewSet::Owned
    } else if !passes(NewSet::Jump) {
        NewSet::Jump
    } else if !passes(NewSet::Store) {
        NewSet::Store
    } else {
        NewSet::Read
    }
}

// How many pairs of a set stand before the first that has first >= past; there is one.
fn first_disordered(set: &AddressSet) -> u32
    requires { ordered (set_of set.now) ≡ false }
    ensures { result ≡ first_disordered (set_of set.now) }
{
    let disordered = (0..set.count()).find(|&j| {
        let pair = set.pair(j);
        pair.past <= pair.first
    });
    disordered.unwrap_or(0)
}

impl NextStep<'_> {
    // The first set that is not good.
    pub(crate) fn bad_set(&self) -> NewSet
        ensures { set_number result ≡ bad_set (before self.now) }
    {
        first_set(|set| self.is_good(set))
    }

    // The first set that the caller may not give as a whole.
    pub(crate) fn wide_set(&self) -> NewSet
        ensures { set_number result ≡ wide_set (before self.now) }
    {
        first_set(|set| self.gives_all(set))
    }

    // The first address from `first` on and before `past` that the caller may not give away in a set. It may give away no address that is
    // neither a word nor a service, so no walk is longer than memory.
    fn first_not(&self, set: NewSet, first: u32, past: u32) -> Option<u32>
        ensures { IsFirstNot (gives set (before self.now)) first past result }
    {
        // the tags are the same at every address
        let caller = self.caller();
        let tags = self.tags(set);
        (first..past).find(|&x| !caller.reaches(&tags, x))
    }

    // The first address of a set that the caller may not give away in it; there is one.
    pub(crate) fn out_at(&self, set: NewSet) -> u32
        requires { Failing self.now.cpu.strict (λ i. within (set_by (before self.now) i) (may_give (before self.now) self.now.cpu.prev i)) (set_number set) }
        ensures { result ≡ out_at (before self.now) self.now.cpu.prev (set_number set) }
    {
        let given = self.set_at(self.pointer(set));
        for j in 0..given.count() {
            let pair = given.pair(j);
            if let Some(x) = self.first_not(set, pair.first, pair.past) {
                return x;
            }
        }
        0
    }

    // What is wrong with a set that is not good, and its first word that is at fault.
    pub(crate) fn set_fault(&self, set: &AddressSet) -> (SetFault, u32)
        requires { good_set set.now.words.now self.now.cpu.n (reads (before self.now) self.now.cpu.prev) set.now.at ≡ false }
        ensures fault { fault_number result.0 ≡ set_fault set.now.words.now self.now.cpu.n set.now.at }
        ensures place { result.1 ≡ fault_at set.now.words.now self.now.cpu.n (reads (before self.now) self.now.cpu.prev) set.now.at }
    {
        let n = self.cpu.n;
        let q = set.at;
        if n <= q {
            return (SetFault::Outside, q);
        }
        let k = set.count();
        if (n - q - 1) / 2 < k {
            return (SetFault::Outside, n);
        }
        if !set.is_in_order(n) {
            let j = first_disordered(set);
            return (SetFault::Disordered, q + 1 + 2 * j);
        }
        let unread = self.first_not(NewSet::Read, q, q + 1 + 2 * k);
        (SetFault::Unreadable, unread.unwrap_or(q))
    }
}
