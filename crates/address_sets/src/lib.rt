// Sets of addresses where they stand in memory, "a count k, then k pairs (first, past)", read at any place: beyond the end it reads 0.
#![tactic(auto)]

ghost use Rattle.std.specs.Prelude.{◌≡◌, ◌+◌, min, get_or};
ghost use Rattle.common.specs.AddressSets.{ordered, is_empty, in_pair, in_set};
ghost use Rattle.address_sets.specs.SetLaws.{pair_of, pair_at, set_of, in_order};

/// The addresses first .. past - 1.
#[derive(Clone, Copy)]
pub struct Pair {
    pub first: u32,
    pub past: u32,
}

impl Pair {
    // Whether x is one of the addresses.
    pub fn contains(self, x: u32) -> bool
        ensures { result ≡ in_pair (pair_of self) x }
    {
        self.first <= x && x < self.past
    }
}

/// The set at a place of the words.
#[derive(Clone, Copy)]
pub struct AddressSet<'a> {
    pub words: &'a [u32],
    pub at: u32,
}

impl AddressSet<'_> {
    // A word, at a place counted on from the set's: it may be past 32 bits.
    fn word(&self, place: usize) -> u32
        ensures { result ≡ get_or self.now.words.now place 0 }
    {
        self.words.get(place).copied().unwrap_or(0)
    }

    // How many pairs the set has.
    pub fn count(&self) -> u32
        ensures { result ≡ get_or self.now.words.now self.now.at 0 }
    {
        self.word(self.at as usize)
    }

    // Whether it has none.
    pub fn is_empty(&self) -> bool
        ensures { result ≡ is_empty (set_of self.now) }
    {
        self.count() == 0
    }

    // Pair j.
    pub fn pair(&self, j: u32) -> Pair
        ensures { pair_of result ≡ pair_at self.now.words.now (self.now.at + 1) j }
    {
        let place = self.at as usize + 1 + 2 * (j as usize);
        Pair {
            first: self.word(place),
            past: self.word(place + 1),
        }
    }

    // Whether every pair has first < past.
    fn is_ordered(&self) -> bool
        ensures { result ≡ ordered (set_of self.now) }
    {
        (0..self.count()).all(|j| {
            let pair = self.pair(j);
            pair.first < pair.past
        })
    }

    // Whether the set is wholly inside memory and in order. The count is held against the room behind its place, so nothing wraps.
    pub fn is_in_order(&self, n: u32) -> bool
        ensures { result ≡ in_order self.now.words.now n self.now.at }
    {
        self.at < n && self.count() <= (n - self.at - 1) / 2 && self.is_ordered()
    }

    // Whether x is in the set.
    pub fn contains(&self, x: u32) -> bool
        ensures { result ≡ in_set (set_of self.now) x }
    {
        (0..self.count()).any(|j| self.pair(j).contains(x))
    }
}

// Where a walk over a memory ends: at past, at n, or at the end of what is lent.
pub fn clipped(past: u32, n: u32, len: usize) -> usize
    ensures { result ≡ min (min past n) len }
{
    (past.min(n) as usize).min(len)
}
