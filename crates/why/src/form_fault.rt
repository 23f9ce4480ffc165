// The first part of the form that is not in order.
ghost use Rattle.std.specs.Prelude.{◌≡◌};
ghost use Rattle.reasons.specs.Why.{form_fault};
ghost use Rattle.why.specs.Views.{before, form_number};

use crate::next_step::NextStep;

#[derive(Clone, Copy)]
pub(crate) enum FormFault {
    Lengths = 1,
    Size = 2,
    Numbering = 3,
    Number = 4,
    Seat = 5,
}

impl NextStep<'_> {
    #[tactic(auto, unfolding(reasons::specs::Why::form_fault, rules::specs::Checks::lengths_differ))]
    pub(crate) fn form_fault(&self) -> FormFault
        ensures { form_number result ≡ form_fault (before self.now) }
    {
        let cpu = &self.cpu;
        if !self.same_lengths() {
            FormFault::Lengths
        } else if cpu.n < 1 || 2048 < cpu.n || self.lent.words.len() < cpu.n as usize {
            FormFault::Size
        } else if cpu.next < modes::first_number(cpu.strict) || 64 < cpu.next {
            FormFault::Numbering
        } else if cpu.prev < cpu.next {
            FormFault::Seat
        } else {
            FormFault::Number
        }
    }
}
