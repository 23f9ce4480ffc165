// Runs an image and makes the text that the run program prints, in a lent buffer.
#![tactic(auto)]

pub mod lines;

ghost use Rattle.std.specs.Prelude.{◌≡◌, ◌+◌, ◌*◌, ◌≤◌, length};
ghost use Rattle.numerals.specs.Writing.{put};
ghost use Rattle.text.specs.Puts.{put_of};
ghost use Rattle.rows.specs.Views.{table};
ghost use Rattle.printed.specs.Text.{text};
ghost use Rattle.printed.specs.Outcome.{outcome, ended_by, print};
ghost use Rattle.printer.specs.Endings.{status_of};
ghost use Rattle.printer.specs.Views.{ran_by, made_of, meant_of, printed_of};

use crate::lines::{put_first, put_refused, put_rows};
use answers::Refusal;
use machine::Ran;
use rows::{ROWS, Row};

// How many steps an image may take, and how many places its memories have.
pub const BUDGET: u32 = 100000;

pub const PLACES: usize = 2048;

// No text is longer: 108 bytes of a first line, and 44 of each of 64 compartments.
pub const LONGEST: usize = 2924;

/// How an image ended; and that it could not be run, which no call of this crate answers.
#[derive(Clone, Copy, Debug, PartialEq, Eq)]
pub enum Ending {
    Halted = 0,
    Stopped = 1,
    Refused = 2,
    BudgetUsed = 3,
    NotRun = 4,
}

impl From<Ending> for u32 {
    ghost from_gives = { λ ending n. n ≡ status_of ending };

    fn from(ending: Ending) -> u32 {
        ending as u32
    }
}

// The length of the text, or that the buffer has no room for it; and how the image ended, whatever the buffer.
#[derive(Clone, Copy)]
pub struct Printed {
    pub length: Result<usize, Refusal>,
    pub ending: Ending,
}

// The length of an image's text, and how the image ended.
#[derive(Clone, Copy)]
struct Made {
    length: usize,
    ending: Ending,
}

#[tactic(auto, unfolding(printed::specs::Outcome::ended_by))]
fn ended_by(answer: u32) -> Ending
    ensures { status_of result ≡ ended_by answer }
{
    match answer {
        answers::DONE => Ending::BudgetUsed,
        answers::HALT => Ending::Halted,
        _ => Ending::Stopped,
    }
}

// The text of a run.
fn put_ran(out: &mut [u8], r: Ran, owners: &[u32], writers: &[u64], rows: &[Row]) -> usize
    ensures written { put_of result out.new ≡ put (text (ran_by r owners.now writers.now (table rows.now))) 0 out.old }
    ensures bounded { length (text (ran_by r owners.now writers.now (table rows.now))) ≤ 108 + 44 * r.cpu.next }
{
    let widest = report::widest(r.cpu, owners, writers);
    let end = put_first(out, r, widest);
    put_rows(out, end, r.cpu.next, rows)
}

// Loads an image, runs it, and puts the text of what came of it.
fn make(strict: bool, bytes: &[u8], out: &mut [u8]) -> Made
    ensures written { made_of result out.new ≡ meant_of (outcome strict bytes.now) out.old }
    ensures bounded { length (text (outcome strict bytes.now)) ≤ 2924 }
{
    let mut words = [0u32; PLACES];
    let mut owners = [0u32; PLACES];
    let mut jumpers = [0u64; PLACES];
    let mut writers = [0u64; PLACES];
    let mut readers = [0u64; PLACES];
    let mut rows = [Row::NONE; ROWS];
    let l = loader::load_rows(
        strict,
        bytes,
        &mut words,
        &mut owners,
        &mut jumpers,
        &mut writers,
        &mut readers,
        &mut rows,
    );
    if let Err(refusal) = l.answer {
        return Made {
            length: put_refused(out, u32::from(refusal)),
            ending: Ending::Refused,
        };
    }
    let cpu = l.cpu;
    let r = cpu.run_rows(
        &mut words,
        &mut owners,
        &mut jumpers,
        &mut writers,
        &mut readers,
        BUDGET,
        &mut rows,
    );
    Made {
        length: put_ran(out, r, &owners, &writers, &rows),
        ending: ended_by(r.answer),
    }
}

// Runs an image in a mode, and writes the text of what came of it to the front of the buffer.
pub fn print(strict: bool, bytes: &[u8], out: &mut [u8]) -> Printed
    ensures { printed_of result out.new ≡ print strict bytes.now out.old }
{
    let mut made = [0u8; LONGEST];
    let Made { length, ending } = make(strict, bytes, &mut made);
    if out.len() < length {
        return Printed {
            length: Err(Refusal::ShortBuffer),
            ending,
        };
    }
    text::put_text(out, 0, &made[..length]);
    Printed {
        length: Ok(length),
        ending,
    }
}
