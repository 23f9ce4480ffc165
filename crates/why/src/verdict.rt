// What a step does, by reading alone: the checks, in their order. The run decides for itself, so that its decision has one caller and
// stands inside its loop.
ghost use Rattle.std.specs.Prelude.{◌≡◌};
ghost use Rattle.rules.specs.Checks.{instruction_at, verdict};
ghost use Rattle.rules.specs.Laws.Tested.{load_verdict, store_verdict, word_verdict, add_verdict, isolate_verdict};
ghost use Rattle.why.specs.Views.{before, verdict_of};
ghost use Rattle.why.specs.VerdictLaws.{place_answer, service_answer};

use crate::next_step::NextStep;
use answers::Refusal;
use memory::{set_at, word_at};
use reach::Call;

const LOAD: u32 = 8;

const STORE: u32 = 9;

const HALT: u32 = 13;

/// What a step does that nothing refuses.
#[derive(Clone, Copy)]
pub(crate) enum Outcome {
    Done,
    Halt,
}

pub(crate) type Verdict = Result<Outcome, Refusal>;

impl NextStep<'_> {
    // 5 and 17.
    #[tactic(auto, unfolding(rules::specs::Laws::Tested::load_verdict, rules::specs::State::in_memory), using(crate::specs::VerdictLaws::reads_word))]
    fn load_verdict(&self, owner: u32, x: u32) -> Verdict
        ensures { verdict_of result ≡ load_verdict (before self.now) owner x }
    {
        let lent = &self.lent;
        if self.cpu.n <= x {
            return Err(Refusal::LoadOutside);
        }
        if self.cpu.strict
            && !rights::may_use(owner, word_at(lent.owners, x), set_at(lent.readers, x))
        {
            return Err(Refusal::LoadForbidden);
        }
        Ok(Outcome::Done)
    }

    // 6 and 7.
    #[tactic(auto, unfolding(rules::specs::Laws::Tested::store_verdict, rules::specs::State::in_memory), using(crate::specs::VerdictLaws::stores_word))]
    fn store_verdict(&self, owner: u32, x: u32) -> Verdict
        ensures { verdict_of result ≡ store_verdict (before self.now) owner x }
    {
        let lent = &self.lent;
        if self.cpu.n <= x {
            return Err(Refusal::StoreOutside);
        }
        if !rights::may_use(owner, word_at(lent.owners, x), set_at(lent.writers, x)) {
            return Err(Refusal::StoreForbidden);
        }
        Ok(Outcome::Done)
    }

    // 3 and 16, then the instruction of an owner.
    #[tactic(auto, unfolding(rules::specs::Laws::Tested::word_verdict, rules::specs::Laws::Tested::instruction_verdict))]
    fn word_verdict(&self, owner: u32) -> Verdict
        ensures { verdict_of result ≡ word_verdict (before self.now) owner (instruction_at (before self.now)) }
    {
        let instruction = self.instruction()?;
        match instruction.op {
            LOAD => self.load_verdict(owner, self.named()),
            STORE => self.store_verdict(owner, self.named()),
            HALT => Ok(Outcome::Halt),
            _ => Ok(Outcome::Done),
        }
    }

    // At a memory word: 15 and 4, then the word.
    #[tactic(auto, unfolding(crate::specs::VerdictLaws::place_answer))]
    fn place_verdict(&self) -> Verdict
        ensures { verdict_of result ≡ place_answer (before self.now) }
    {
        let cpu = &self.cpu;
        let owner = word_at(self.lent.owners, cpu.pc);
        if !rights::is_free(cpu.strict, owner, cpu.next) {
            return Err(Refusal::BadOwner);
        }
        let jumpers = set_at(self.lent.jumpers, cpu.pc);
        if owner != cpu.prev && !rights::jumped_in(cpu.prev, cpu.jumped, jumpers) {
            return Err(Refusal::NoArrival);
        }
        self.word_verdict(owner)
    }

    // The checks of the three calls that add a target.
    #[tactic(auto, unfolding(rules::specs::Laws::Tested::add_verdict))]
    fn add_verdict(&self) -> Verdict
        ensures { verdict_of result ≡ add_verdict (before self.now) self.now.cpu.prev }
    {
        if !self.owns(self.cpu.regs[1]) {
            return Err(Refusal::NotOwned);
        }
        if !self.owns(self.cpu.regs[15]) {
            return Err(Refusal::NoReturn);
        }
        Ok(Outcome::Done)
    }

    fn isolate_verdict(&self) -> Verdict
        ensures { verdict_of result ≡ isolate_verdict (before self.now) self.now.cpu.prev }
    {
        let call = Call {
            caller: self.caller(),
            regs: &self.cpu.regs,
            next: self.cpu.next,
            services: self.cpu.services,
        };
        monitor::isolate_verdict(&call, &call.services, &self.lent)?;
        Ok(Outcome::Done)
    }

    // Where pc is not below N: 2, or a service.
    #[tactic(auto, unfolding(crate::specs::VerdictLaws::service_answer))]
    fn service_verdict(&self) -> Verdict
        ensures { verdict_of result ≡ service_answer (before self.now) }
    {
        let cpu = &self.cpu;
        if !modes::is_service(cpu.strict, cpu.pc) {
            return Err(Refusal::NoPlace);
        }
        let gate = set_at(&cpu.services, cpu.pc - modes::ISOLATE);
        if !rights::jumped_in(cpu.prev, cpu.jumped, gate) {
            return Err(Refusal::NoArrival);
        }
        if cpu.pc == modes::ISOLATE {
            self.isolate_verdict()
        } else {
            self.add_verdict()
        }
    }

    #[tactic(auto, using(crate::specs::VerdictLaws::bad_form_lem, crate::specs::VerdictLaws::at_service, crate::specs::VerdictLaws::at_word))]
    pub(crate) fn verdict(&self) -> Verdict
        ensures { verdict_of result ≡ verdict (before self.now) }
    {
        if !self.is_formed() {
            return Err(Refusal::BadForm);
        }
        if self.cpu.n <= self.cpu.pc {
            self.service_verdict()
        } else {
            self.place_verdict()
        }
    }
}
