// Why a step would answer its number: the answer, and the numbers that show its cause. Nothing is written.
#![tactic(auto)]

mod form_fault;
mod next_step;
mod places;
mod sets;
mod verdict;

ghost use Rattle.std.specs.Prelude.{◌≡◌};
ghost use Rattle.rules.specs.Checks.{verdict};
ghost use Rattle.answers.specs.Numbers.{number};
ghost use Rattle.reasons.specs.Why.{plain, rows, row_of, why};
ghost use Rattle.why.specs.Views.{state_by, before, why_of};

use crate::next_step::{NewSet, NextStep};
use crate::places::stray_bits;
use crate::verdict::Outcome;
use answers::Refusal;
use machine::Processor;
use memory::Memories;

// All compartment numbers are used.
const NUMBERS: u32 = 64;

// Told in an owner's place where there is none.
const NO_ONE: u32 = 64;

/// What is told; a number that says nothing of an answer is 0 there.
// kept: the C interface: kl_why_of hands out these seven numbers, each under the number that C reads there
#[derive(Clone, Copy, Debug, PartialEq, Eq)]
pub struct Reason {
    pub answer: u32,
    // 8, 9 and 10: 1 A', 2 J', 3 S', 4 R'
    pub set: u32,
    // what is wrong: 8, 12 and 14
    pub fault: u32,
    // the address that the answer is about
    pub place: u32,
    // who owns it
    pub owner: u32,
    // 3 and 16: the word; 5 and 6: N; 8: the word at the place; 13: 64
    pub value: u32,
    // 3 and 16: the bits that the opcode leaves unused and that are not 0
    pub bits: u32,
}

impl Reason {
    // An answer of which nothing else is told.
    fn plain(answer: u32) -> Reason
        ensures { why_of result ≡ plain answer }
    {
        Reason {
            answer,
            set: 0,
            fault: 0,
            place: 0,
            owner: 0,
            value: 0,
            bits: 0,
        }
    }
}

impl NextStep<'_> {
    // What is told of a refusal that is the step's.
    #[tactic(auto, unfolding(reasons::specs::Why::row_of, reasons::specs::Why::rows))]
    fn reason(&self, refusal: Refusal) -> Reason
        requires { number refusal ≡ verdict (before self.now) }
        ensures { why_of result ≡ row_of (number refusal) (rows (before self.now)) }
    {
        let cpu = &self.cpu;
        let plain = Reason::plain(u32::from(refusal));
        match refusal {
            Refusal::NoPlace => Reason {
                place: cpu.pc,
                ..plain
            },
            Refusal::NoInstruction | Refusal::StrayBit => {
                let value = self.word_at(cpu.pc);
                Reason {
                    place: cpu.pc,
                    value,
                    bits: stray_bits(value),
                    ..plain
                }
            }
            Refusal::NoArrival => Reason {
                place: cpu.pc,
                owner: self.owner_at(cpu.pc),
                ..plain
            },
            Refusal::LoadOutside | Refusal::StoreOutside => Reason {
                place: self.named(),
                value: cpu.n,
                ..plain
            },
            Refusal::StoreForbidden | Refusal::LoadForbidden => {
                let place = self.named();
                Reason {
                    place,
                    owner: memory::word_at(self.lent.owners, place),
                    ..plain
                }
            }
            Refusal::BadSet => {
                let set = self.bad_set();
                let (fault, place) = self.set_fault(&self.set_at(self.pointer(set)));
                Reason {
                    set: set as u32,
                    fault: fault as u32,
                    place,
                    value: self.word_at(place),
                    ..plain
                }
            }
            Refusal::EmptySet => Reason {
                set: NewSet::Owned as u32,
                place: self.pointer(NewSet::Owned),
                ..plain
            },
            Refusal::NotWithin => {
                let set = self.wide_set();
                let place = self.out_at(set);
                Reason {
                    set: set as u32,
                    place,
                    owner: self.owner(place).unwrap_or(NO_ONE),
                    ..plain
                }
            }
            Refusal::NotOwned => Reason {
                place: cpu.regs[1],
                owner: self.owner(cpu.regs[1]).unwrap_or(NO_ONE),
                ..plain
            },
            Refusal::NoReturn => Reason {
                fault: self.return_fault() as u32,
                place: cpu.regs[15],
                owner: self.owner(cpu.regs[15]).unwrap_or(NO_ONE),
                ..plain
            },
            Refusal::NoNumber => Reason {
                value: NUMBERS,
                ..plain
            },
            Refusal::BadForm => Reason {
                fault: self.form_fault() as u32,
                ..plain
            },
            Refusal::BadOwner => Reason {
                place: cpu.pc,
                owner: memory::word_at(self.lent.owners, cpu.pc),
                ..plain
            },
            _ => plain,
        }
    }
}

// What a step of this state would answer, and why.
pub fn why(cpu: Processor, lent: &Memories) -> Reason
    ensures { why_of result ≡ why (state_by cpu lent.now) }
{
    let step = NextStep { cpu, lent: *lent };
    match step.verdict() {
        Ok(Outcome::Done) => Reason::plain(answers::DONE),
        Ok(Outcome::Halt) => Reason::plain(answers::HALT),
        Err(refusal) => step.reason(refusal),
    }
}
