// The text record by record: each is checked behind what was said before, and then said with it.
ghost use Rattle.std.specs.Prelude.{◌≡◌, ◌≤◌, length, take, replicate};
ghost use Rattle.answers.specs.Numbers.{answer_of};
ghost use Rattle.intel_hex.specs.Records.{line, body};
ghost use Rattle.intel_hex.specs.Reading.{reading};
ghost use Rattle.importer.specs.Views.{said, read_of};
ghost use Rattle.importer.specs.Steps.{verdict_by, step_of, stepped, data_verdict, Fits, memory_by};

use crate::places::{ROOM, given, put};
use crate::records::{
    DATA, address, base_by, ended_by, formed, known, octet, sums_up, wrong_count,
};
use answers::{Fault, Refusal};

/// What is said so far, beside the bytes: whether the end record is read, and bits 16 to 31 of the addresses.
#[derive(Clone, Copy)]
pub(crate) struct Said {
    pub(crate) ended: bool,
    pub(crate) base: u32,
}

// A line's record: a CR right before the LF is no part of it.
fn body_length(bytes: &[u8]) -> usize
    ensures { (result ≤ length bytes.now) × (take result bytes.now ≡ body bytes.now) }
{
    let n = bytes.len();
    if n != 0 && bytes[n - 1] == b'\r' {
        n - 1
    } else {
        n
    }
}

impl Said {
    // What 63 and 64 ask of a data record.
    fn check_data(self, pairs: &[u8], memory: &[u16; ROOM]) -> Result<(), Refusal>
        ensures { answer_of result ≡ data_verdict self.base memory.now pairs.now }
    {
        let n = octet(pairs, 0) as usize;
        if n == 0 {
            return Ok(());
        }
        let at = address(pairs, self.base);
        if ROOM - n < at {
            return Err(Refusal::BeyondMemory);
        }
        if given(memory, at, n) {
            return Err(Refusal::ByteTwice);
        }
        Ok(())
    }

    // The checks of a line's record.
    #[tactic(auto, using(std::proofs::lemmas::Bool::Decides::nat_tests), unfolding(crate::specs::Steps::verdict_by, crate::specs::Steps::data_verdict))]
    fn check(self, pairs: &[u8], whole: bool, memory: &[u16; ROOM]) -> Result<(), Refusal>
        ensures { answer_of result ≡ verdict_by (said self.ended self.base memory.now) whole pairs.now }
    {
        if self.ended {
            return Err(Refusal::AfterEnd);
        }
        if !whole || !formed(pairs) || wrong_count(pairs) {
            return Err(Refusal::BadRecord);
        }
        if !sums_up(pairs) {
            return Err(Refusal::BadSum);
        }
        if !known(pairs) {
            return Err(Refusal::OtherType);
        }
        if octet(pairs, 3) != DATA {
            return Ok(());
        }
        self.check_data(pairs, memory)
    }

    // Puts the bytes of a data record to their places.
    fn keep(self, pairs: &[u8], memory: &mut [u16; ROOM])
        requires { Fits self.base pairs.now }
        ensures { memory.new ≡ memory_by self.base pairs.now memory.old }
    {
        let n = octet(pairs, 0) as usize;
        if octet(pairs, 3) == DATA && n != 0 {
            put(memory, address(pairs, self.base), pairs, n);
        }
    }

    // One line: its checks and, where none refuses it, what is said with it.
    fn take_line(
        &mut self,
        bytes: &[u8],
        whole: bool,
        memory: &mut [u16; ROOM],
    ) -> Result<(), Refusal>
        ensures { step_of result self.new memory.new ≡ stepped (said self.old.ended self.old.base memory.old) (line bytes.now whole) }
    {
        let pairs = &bytes[..body_length(bytes)];
        self.check(pairs, whole, memory)?;
        self.keep(pairs, memory);
        self.ended = ended_by(pairs, self.ended);
        self.base = base_by(pairs, self.base);
        Ok(())
    }
}

// All lines, up to the first at fault.
pub(crate) fn read(text: &[u8], memory: &mut [u16; ROOM]) -> Result<Said, Fault>
    requires { memory.old ≡ replicate 8192 256 }
    ensures { read_of result memory.new ≡ reading text.now }
{
    let mut said = Said {
        ended: false,
        base: 0,
    };
    let mut at = 0;
    let mut line: u64 = 0;
    // kept: the new form is no plainer: each line begins behind the end of the one before, which a call tells
    while at < text.len() {
        let end = tokens::line_end(text, at);
        let bytes = &text[at..end];
        line += 1;
        if let Err(refusal) = said.take_line(bytes, end < text.len(), memory) {
            return Err(Fault { refusal, line });
        }
        at = end + 1;
    }
    Ok(said)
}
