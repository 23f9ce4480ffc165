// Reading and writing any place of a lent memory and any register: a place beyond the end reads as 0 and is not written.
#![tactic(auto)]

ghost use Rattle.std.specs.Prelude.{◌≡◌, get_or};
ghost use Rattle.memory.specs.Places.{put_reg, put_word};

/// The five lent memories, for reading: a word, its owner, and the sets of those that may jump to it, store to it and read it.
#[derive(Clone, Copy)]
pub struct Memories<'a> {
    pub words: &'a [u32],
    pub owners: &'a [u32],
    pub jumpers: &'a [u64],
    pub writers: &'a [u64],
    pub readers: &'a [u64],
}

// A word or an owner.
pub fn word_at(words: &[u32], at: u32) -> u32
    ensures { result ≡ get_or words.now at 0 }
{
    words.get(at as usize).copied().unwrap_or(0)
}

// A set of compartment numbers.
pub fn set_at(sets: &[u64], at: u32) -> u64
    ensures { result ≡ get_or sets.now at 0 }
{
    sets.get(at as usize).copied().unwrap_or(0)
}

// Writes a register; one past 15 is none.
// kept: tried, the proof did not close: behind `get_mut`, here and in put_word, no fact says what the list becomes
#[tactic(auto, unfolding(crate::specs::Places::put_reg))]
pub fn put_reg(regs: &mut [u32; 16], rd: u32, value: u32)
    ensures { regs.new ≡ put_reg regs.old rd value }
{
    let i = rd as usize;
    if i < regs.len() {
        regs[i] = value;
    }
}

// Writes a word below N; a place from N on is none.
#[tactic(auto, unfolding(crate::specs::Places::put_word))]
pub fn put_word(words: &mut [u32], n: u32, place: u32, word: u32)
    ensures { words.new ≡ put_word words.old n place word }
{
    let i = place as usize;
    if place < n && i < words.len() {
        words[i] = word;
    }
}
