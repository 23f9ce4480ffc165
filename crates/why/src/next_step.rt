// The step that comes next, seen whole: the processor, and the memories that it is lent. Here it is asked what the crates below answer by
// the parts, and what its caller may do.
ghost use Rattle.std.specs.Prelude.{◌≡◌};
ghost use Rattle.common.specs.AddressSets.{within};
ghost use Rattle.rules.specs.State.{owns};
ghost use Rattle.rules.specs.Checks.{instruction_at, named, good_in};
ghost use Rattle.instructions.specs.Views.{decoded};
ghost use Rattle.form.specs.Form.{lengths_of, form_of};
ghost use Rattle.reasons.specs.Why.{word_at, pointer, set_by};
ghost use Rattle.reach.specs.Called.{asked_by};
ghost use Rattle.why.specs.Views.{before, caller_of, set_number};
ghost use Rattle.why.specs.Giving.{open_in, gives};

use address_sets::AddressSet;
use answers::Refusal;
use instructions::Instruction;
use machine::Processor;
use memory::Memories;
use reach::{Caller, Tags};

#[derive(Clone, Copy)]
pub(crate) struct NextStep<'a> {
    pub(crate) cpu: Processor,
    pub(crate) lent: Memories<'a>,
}

/// The sets that a caller of isolate points at, each by the register of its number: A', J', S' and R'.
#[derive(Clone, Copy)]
pub(crate) enum NewSet {
    Owned = 1,
    Jump = 2,
    Store = 3,
    Read = 4,
}

impl NextStep<'_> {
    // ---- 14

    pub(crate) fn is_formed(&self) -> bool
        ensures { result ≡ form_of (before self.now) }
    {
        let cpu = &self.cpu;
        let lent = &self.lent;
        form::is_formed(
            cpu.strict,
            cpu.n,
            cpu.pc,
            cpu.prev,
            cpu.next,
            lent.words.len(),
            lent.owners.len(),
            lent.jumpers.len(),
            lent.writers.len(),
            lent.readers.len(),
        )
    }

    pub(crate) fn same_lengths(&self) -> bool
        ensures { result ≡ lengths_of self.now.cpu.strict (before self.now) }
    {
        let lent = &self.lent;
        form::same_lengths(
            self.cpu.strict,
            lent.words.len(),
            lent.owners.len(),
            lent.jumpers.len(),
            lent.writers.len(),
            lent.readers.len(),
        )
    }

    // ---- words

    pub(crate) fn word_at(&self, x: u32) -> u32
        ensures { result ≡ word_at (before self.now) x }
    {
        memory::word_at(self.lent.words, x)
    }

    // The instruction at pc, or why there is none.
    #[tactic(auto, unfolding(rules::specs::Checks::instruction_at))]
    pub(crate) fn instruction(&self) -> Result<Instruction, Refusal>
        ensures { decoded result ≡ instruction_at (before self.now) }
    {
        instructions::decode(self.word_at(self.cpu.pc))
    }

    // The address in the register that the word at pc names first.
    pub(crate) fn named(&self) -> u32
        ensures { result ≡ named (before self.now) }
    {
        let a = self.instruction().map_or(0, |i| i.a);
        self.cpu.regs.get(a as usize).copied().unwrap_or(0)
    }

    // ---- the caller, which is the compartment that ran last

    pub(crate) fn caller(&self) -> Caller
        ensures { result ≡ caller_of self.now }
    {
        Caller {
            strict: self.cpu.strict,
            n: self.cpu.n,
            number: self.cpu.prev,
        }
    }

    #[tactic(auto, unfolding(rules::specs::State::owns, rules::specs::State::has_owner, rules::specs::State::owner_at, rules::specs::State::in_memory))]
    pub(crate) fn owns(&self, x: u32) -> bool
        ensures { result ≡ owns (before self.now) self.now.cpu.prev x }
    {
        self.caller().owns(self.lent.owners, x)
    }

    // The set at a place of memory.
    pub(crate) fn set_at(&self, place: u32) -> AddressSet<'_>
        ensures { result ≡ record { words = self.now.lent.words; at = place } }
    {
        AddressSet {
            words: self.lent.words,
            at: place,
        }
    }

    // Where a set of the caller's stands.
    pub(crate) fn pointer(&self, set: NewSet) -> u32
        ensures { result ≡ pointer (before self.now) (set_number set) }
    {
        self.cpu.regs[set as usize]
    }

    #[tactic(auto, unfolding(rules::specs::State::reads, rules::specs::State::owns, rules::specs::State::has_owner, rules::specs::State::owner_at, rules::specs::State::may_read, rules::specs::State::readers_at, rules::specs::State::in_memory))]
    pub(crate) fn is_good(&self, set: NewSet) -> bool
        ensures { result ≡ good_in (before self.now) self.now.cpu.prev (set_number set) }
    {
        let given = self.set_at(self.pointer(set));
        self.caller()
            .good(&given, self.lent.owners, self.lent.readers)
    }

    // The tags by which the caller may give an address away in a set: its own, and in J', S' and R' what is open to it.
    pub(crate) fn tags(&self, set: NewSet) -> Tags<'_>
        ensures { asked_by (caller_of self.now) result ≡ open_in set (before self.now) }
    {
        let owned = Tags {
            owners: self.lent.owners,
            sets: &[],
            services: &[],
        };
        match set {
            NewSet::Owned => owned,
            NewSet::Jump => Tags {
                sets: self.lent.jumpers,
                services: &self.cpu.services,
                ..owned
            },
            NewSet::Store => Tags {
                sets: self.lent.writers,
                ..owned
            },
            NewSet::Read => Tags {
                sets: self.lent.readers,
                ..owned
            },
        }
    }

    // Whether the caller may give every address of a set away in it; R' is asked in strict mode alone.
    pub(crate) fn gives_all(&self, set: NewSet) -> bool
        ensures { result ≡ within (set_by (before self.now) (set_number set)) (gives set (before self.now)) }
    {
        let given = self.set_at(self.pointer(set));
        self.caller().within(&given, &self.tags(set))
    }
}
