// The first labels of a text, in a table of fixed size with hashed chains: a label is found in a few steps, however many there are.
#![tactic(auto)]

ghost use Rattle.std.specs.Prelude.{◌≡◌, ◌<◌, leb};
ghost use Rattle.grammar.specs.Laws.Runs.{name_at};
ghost use Rattle.label_table.specs.Table.{most, hash, count, looked, found, inserted, empty};

use tokens::{folded, same_name};

/// How many labels a table can hold.
pub const MOST: usize = 2048;

/// How many chains a table has.
pub const CHAINS: usize = 1024;

/// Where a label is defined: how many lines and how many words stand before its line.
#[derive(Clone, Copy, Debug, PartialEq, Eq)]
pub struct Definition {
    pub line: u64,
    pub words: u64,
}

/// A label that was put in.
#[derive(Clone, Copy)]
pub struct Entry {
    /// The place of its name in the text.
    pub place: usize,
    /// Where it is defined.
    pub definition: Definition,
    /// The number of the entry of the same chain that was put in before it.
    pub older: Option<u16>,
}

const BLANK: Entry = Entry {
    place: 0,
    definition: Definition { line: 0, words: 0 },
    older: None,
};

/// The labels of a text that were put in, and the newest of each chain. A caller may fill the fields with anything.
// kept: a rule of the project (fixed memory): no map, whose memory is not fixed
#[derive(Clone, Copy)]
pub struct Table {
    /// How many labels were put in.
    pub count: usize,
    /// The number of the newest entry of each chain.
    pub newest: [Option<u16>; CHAINS],
    /// The labels, in the order in which they were put in.
    pub entries: [Entry; MOST],
}

// The chain of the name at a place.
fn hash(text: &[u8], place: usize) -> usize
    ensures { (result ≡ hash (name_at text.now place)) × (result < 1024) }
{
    let mut h = 0;
    for p in place..text.len() {
        let b = text[p];
        if folded(b).is_none() {
            return h;
        }
        h = (h * 131 + usize::from(b)) % CHAINS;
    }
    h
}

impl Table {
    /// A table with no label.
    pub fn new() -> Table
        ensures { result ≡ empty }
    {
        Table {
            count: 0,
            newest: [None; CHAINS],
            entries: [BLANK; MOST],
        }
    }

    /// Whether there is room for no more labels.
    pub fn is_full(&self) -> bool
        ensures { result ≡ leb most (count self.now) }
    {
        MOST <= self.count
    }

    /// The label whose name stands at a place. The walk is bounded, so it ends whatever the table holds.
    pub fn find(&self, text: &[u8], place: usize) -> Option<Definition>
        ensures { result ≡ found (looked text.now self.now (name_at text.now place)) }
    {
        let mut next = self.newest[hash(text, place)];
        for _turn in 0..MOST {
            let entry = self.entries.get(next? as usize)?;
            if same_name(text, place, entry.place) {
                return Some(entry.definition);
            }
            next = entry.older;
        }
        None
    }

    /// Puts a label in, at the front of its chain; a full table stays as it is.
    pub fn insert(&mut self, text: &[u8], place: usize, definition: Definition)
        ensures { self.new ≡ inserted text.now self.old place definition.line definition.words }
    {
        if self.is_full() {
            return;
        }
        let n = self.count;
        let h = hash(text, place);
        let older = self.newest[h];
        self.entries[n] = Entry {
            place,
            definition,
            older,
        };
        self.newest[h] = Some(n as u16);
        self.count = n + 1;
    }
}
