// Who owns an address, what is wrong with the one to return to, and the bits of a word that its opcode leaves unused.
ghost use Rattle.std.specs.Prelude.{◌≡◌, ◌<◌, unwrap_or};
ghost use Rattle.rules.specs.State.{owner_at};
ghost use Rattle.reasons.specs.Why.{owner_or, no_one, beyond, stray_bits, return_fault};
ghost use Rattle.why.specs.Views.{before, return_number};

use crate::next_step::NextStep;

// The address before the services, which are owned by the compartments from 1 on.
const BEFORE: u32 = modes::ISOLATE - 1;

// What is wrong with the address to return to.
#[derive(Clone, Copy)]
pub(crate) enum ReturnFault {
    NotOwn = 1,
    Taken = 2,
}

impl NextStep<'_> {
    // The owner of a word, or the number of the service at x.
    #[tactic(auto, unfolding(rules::specs::State::owner_at, rules::specs::State::in_memory, common::specs::Services::service_at))]
    pub(crate) fn owner_at(&self, x: u32) -> u32
        ensures { result ≡ owner_at (before self.now) x }
    {
        if x < self.cpu.n {
            memory::word_at(self.lent.owners, x)
        } else {
            x.saturating_sub(BEFORE)
        }
    }

    // Who owns x, if it is a word or a service.
    #[tactic(auto, unfolding(reasons::specs::Why::owner_or, rules::specs::State::has_owner, rules::specs::State::in_memory))]
    pub(crate) fn owner(&self, x: u32) -> Option<u32>
        ensures { unwrap_or result no_one ≡ owner_or (before self.now) x }
    {
        if x < self.cpu.n || modes::is_service(self.cpu.strict, x) {
            Some(self.owner_at(x))
        } else {
            None
        }
    }

    // Whether the caller would return to a word of its own, which A' then takes.
    #[tactic(auto, unfolding(reasons::specs::Why::return_fault, rules::specs::State::in_memory))]
    pub(crate) fn return_fault(&self) -> ReturnFault
        ensures { return_number result ≡ return_fault (before self.now) }
    {
        let back = self.cpu.regs[15];
        if back < self.cpu.n && self.owns(back) {
            ReturnFault::Taken
        } else {
            ReturnFault::NotOwn
        }
    }
}

// What of a field is above its largest value.
fn beyond(x: u32, most: u32) -> u32
    requires { most < 65536 }
    ensures { result ≡ beyond x most }
{
    x - x % (most + 1)
}

// The bits below the opcode that are not 0 and that the opcode leaves unused.
pub(crate) fn stray_bits(word: u32) -> u32
    ensures { result ≡ stray_bits word }
{
    let i = instructions::fields(word);
    let op = i.op;
    if 13 < op {
        return 0;
    }
    let used = instructions::used(op);
    let a = beyond(i.a, used / 1048576 % 16);
    let b = beyond(i.b, used / 65536 % 16);
    let low = beyond(i.low, used % 65536);
    a * 1048576 + b * 65536 + low
}
