// The tagged machine: the processor record, one step, and a run with a budget.
#![tactic(auto)]

ghost use Rattle.std.specs.Prelude.{◌≡◌};
ghost use Rattle.rules.specs.Step.{step};
ghost use Rattle.rules.specs.Run.{run};
ghost use Rattle.rules.specs.Rows.{lent_step, lent_run};
ghost use Rattle.rights.specs.Arrivals.{prev_of, jumped_of};
ghost use Rattle.rows.specs.Views.{table};
ghost use Rattle.machine.specs.Views.{state_of, stepped_of, ran_of, stepped_with, ran_with};

use reach::{Call, Caller};
use rights::arrival;
use rows::{ROWS, Row};

#[repr(C)]
#[derive(Clone, Copy)]
pub struct Processor {
    // N, the number of words in memory
    pub n: u32,
    pub regs: [u32; 16],
    pub pc: u32,
    // the pc number: the compartment that ran last
    pub prev: u32,
    // whether the last step was a Jump, a Jal or a service
    pub jumped: bool,
    // the mode: whether reading is fenced
    pub strict: bool,
    // the first unused compartment number
    pub next: u32,
    // the set I of each service; in 01's mode there are three, and the last set is neither looked at nor changed
    pub services: [u64; 4],
}

// The record after a step, and the step's answer.
#[derive(Clone, Copy)]
pub struct Stepped {
    pub cpu: Processor,
    pub answer: u32,
}

// The record after a run, the answer that ended it, and how many steps answered 0.
#[derive(Clone, Copy)]
pub struct Ran {
    pub cpu: Processor,
    pub answer: u32,
    pub count: u32,
}

// The numbers that a run ends with.
fn ended(
    n: u32,
    strict: bool,
    regs: [u32; 16],
    pc: u32,
    arrival: u64,
    next: u32,
    services: [u64; 4],
    answer: u32,
    count: u32,
) -> Ran
    ensures { result ≡ record { cpu = record { n = n; regs = regs; pc = pc; prev = prev_of arrival; jumped = jumped_of arrival; strict = strict; next = next; services = services }; answer = answer; count = count } }
{
    let prev = arrival::prev_of(arrival);
    let jumped = arrival::jumped_of(arrival);
    Ran {
        cpu: Processor {
            n,
            regs,
            pc,
            prev,
            jumped,
            strict,
            next,
            services,
        },
        answer,
        count,
    }
}

impl Processor {
    // Steps until the first nonzero answer or until the budget is used. What 14 and 18 look at cannot change on the way, so it is
    // looked at before the first step. The record is taken apart, and the steps at memory words have a loop of their own inside the
    // one over services, so that they keep their numbers where they are cheap.
    pub fn run_rows(
        self,
        words: &mut [u32],
        owners: &mut [u32],
        jumpers: &mut [u64],
        writers: &mut [u64],
        readers: &mut [u64],
        budget: u32,
        rows: &mut [Row],
    ) -> Ran
        ensures { ran_with result words.new owners.new jumpers.new writers.new readers.new rows.new ≡ lent_run budget (state_of self words.old owners.old jumpers.old writers.old readers.old) (table rows.old) }
    {
        let mut count: u32 = 0;
        if budget == 0 {
            return Ran {
                cpu: self,
                answer: answers::DONE,
                count,
            };
        }
        let n = self.n;
        let strict = self.strict;
        let mut pc = self.pc;
        let prev = self.prev;
        let mut next = self.next;
        if !form::is_formed(
            strict,
            n,
            pc,
            prev,
            next,
            words.len(),
            owners.len(),
            jumpers.len(),
            writers.len(),
            readers.len(),
        ) {
            return Ran {
                cpu: self,
                answer: answers::BAD_FORM,
                count,
            };
        }
        if rows.len() != ROWS {
            return Ran {
                cpu: self,
                answer: answers::BAD_ROWS,
                count,
            };
        }
        let jumped = self.jumped;
        let mut arrival = arrival::unasked(prev, jumped);
        let mut regs = self.regs;
        let mut services = self.services;
        // kept: the new form is no plainer: the steps go on until an answer or the budget ends them, in two loops that share one count
        while count < budget {
            while pc < n {
                if budget <= count {
                    break;
                }
                let m = moves::decide(
                    &regs, pc, arrival, next, strict, n, words, owners, jumpers, writers, readers,
                );
                let answer = m.answer;
                if answer != answers::DONE {
                    return ended(n, strict, regs, pc, arrival, next, services, answer, count);
                }
                memory::put_reg(&mut regs, m.rd, m.value);
                memory::put_word(words, n, m.place, m.word);
                pc = m.pc;
                arrival = m.arrival;
                count += 1;
            }
            if budget <= count {
                break;
            }
            let caller = arrival::prev_of(arrival);
            let call = Call {
                caller: Caller {
                    strict,
                    n,
                    number: caller,
                },
                regs: &regs,
                next,
                services,
            };
            let jumped = arrival::jumped_of(arrival);
            let s = service::serve(&call, pc, jumped, words, owners, jumpers, writers, readers);
            let answer = answers::answer_of(&s.answer);
            if answer != answers::DONE {
                return ended(n, strict, regs, pc, arrival, next, services, answer, count);
            }
            rows::settle(rows, caller, s.to, s.owned, s.jump, s.store);
            pc = regs[15];
            arrival = arrival::unasked(s.number, true);
            next = s.next;
            services = s.services;
            count += 1;
        }
        ended(
            n,
            strict,
            regs,
            pc,
            arrival,
            next,
            services,
            answers::DONE,
            count,
        )
    }

    // One step: a run of budget 1.
    // kept: what may not change: the sheet asks for methods with self and with mut self (B-80)
    pub fn step_rows(
        mut self,
        words: &mut [u32],
        owners: &mut [u32],
        jumpers: &mut [u64],
        writers: &mut [u64],
        readers: &mut [u64],
        rows: &mut [Row],
    ) -> Stepped
        ensures { stepped_with result words.new owners.new jumpers.new writers.new readers.new rows.new ≡ lent_step (state_of self words.old owners.old jumpers.old writers.old readers.old) (table rows.old) }
    {
        let r = self.run_rows(words, owners, jumpers, writers, readers, 1, rows);
        self = r.cpu;
        Stepped {
            cpu: self,
            answer: r.answer,
        }
    }

    // A run of which nobody asks the rows: they are wrong, and move unseen.
    pub fn run(
        self,
        words: &mut [u32],
        owners: &mut [u32],
        jumpers: &mut [u64],
        writers: &mut [u64],
        readers: &mut [u64],
        budget: u32,
    ) -> Ran
        ensures { ran_of result words.new owners.new jumpers.new writers.new readers.new ≡ run budget (state_of self words.old owners.old jumpers.old writers.old readers.old) }
    {
        let mut rows = [Row::NONE; ROWS];
        self.run_rows(words, owners, jumpers, writers, readers, budget, &mut rows)
    }

    // One step: a run of budget 1.
    // kept: what may not change: the sheet asks for methods with self and with mut self (B-80)
    pub fn step(
        mut self,
        words: &mut [u32],
        owners: &mut [u32],
        jumpers: &mut [u64],
        writers: &mut [u64],
        readers: &mut [u64],
    ) -> Stepped
        ensures { stepped_of result words.new owners.new jumpers.new writers.new readers.new ≡ step (state_of self words.old owners.old jumpers.old writers.old readers.old) }
    {
        let r = self.run(words, owners, jumpers, writers, readers, 1);
        self = r.cpu;
        Stepped {
            cpu: self,
            answer: r.answer,
        }
    }
}
