// The sheet of a night of images: the line of an image, totals with a line more, and the totals' line.
#![tactic(auto)]

mod counting;
mod lines;

ghost use Rattle.std.specs.Prelude.{◌≡◌, ◌≤◌, [], length};
ghost use Rattle.numerals.specs.Writing.{put};
ghost use Rattle.text.specs.Puts.{put_of};
ghost use Rattle.machine.specs.Views.{ran_of};
ghost use Rattle.printer.specs.Endings.{status_of};
ghost use Rattle.sheets.specs.Lines.{ran_entry, entry, line_text};
ghost use Rattle.sheets.specs.Totals.{status};
ghost use Rattle.sheets.specs.Told as told;
ghost use Rattle.sheet.specs.Views.{made_of, meant_of, told_of, lined_of, note_of, totals_of};

use crate::counting::{count, put_totals};
use crate::lines::{place, put_end, target_writers};
use answers::Refusal;
use machine::Ran;
use printer::Ending;
use printer::lines::{put_fields, put_refused};

// No line of an image is longer, and none of the totals.
pub const LONGEST: usize = 308;

pub const LONGEST_TOTALS: usize = 350;

// What the totals take of a line: the loader's number where the image was refused, else the run's, and how many steps ran.
// kept: what may not change (`add` takes any note, also one that is refused and has steps, which an enum could not say)
#[derive(Clone, Copy)]
pub struct Note {
    pub refused: bool,
    pub answer: u32,
    pub steps: u32,
}

// The length of an image's line, or that the lent buffer has no room for it; and its note, whatever the buffer.
#[derive(Clone, Copy)]
pub struct Lined {
    pub told: Result<usize, Refusal>,
    pub note: Note,
}

// The totals of some lines; the runs are counted by their answer.
#[derive(Clone, Copy)]
pub struct Totals {
    pub images: u32,
    pub refused: u32,
    pub ended: [u32; 18],
    pub steps: u32,
}

// The length of a line's text, and its note.
#[derive(Clone, Copy)]
struct Made {
    length: usize,
    note: Note,
}

// The line of a run.
fn put_ran(out: &mut [u8], r: Ran, words: &[u32], owners: &[u32], writers: &[u64]) -> usize
    ensures written { put_of result out.new ≡ put (line_text (ran_entry (ran_of r words.now owners.now [] writers.now []))) 0 out.old }
    ensures bounded { length (line_text (ran_entry (ran_of r words.now owners.now [] writers.now []))) ≤ 308 }
{
    let widest = report::widest(r.cpu, owners, writers);
    let set = target_writers(r.cpu, words, writers);
    let end = put_fields(out, r, widest);
    put_end(out, end, r.answer, set)
}

// Loads an image into fresh memories, runs it, and puts its line. Here alone a sheet loads and runs.
fn make(strict: bool, bytes: &[u8], out: &mut [u8]) -> Made
    ensures written { made_of result out.new ≡ meant_of (entry strict bytes.now) out.old }
    ensures bounded { length (line_text (entry strict bytes.now)) ≤ 308 }
{
    let mut words = [0u32; printer::PLACES];
    let mut owners = [0u32; printer::PLACES];
    let mut jumpers = [0u64; printer::PLACES];
    let mut writers = [0u64; printer::PLACES];
    let mut readers = [0u64; printer::PLACES];
    let l = loader::load(
        strict,
        bytes,
        &mut words,
        &mut owners,
        &mut jumpers,
        &mut writers,
        &mut readers,
    );
    if let Err(refusal) = l.answer {
        let answer = u32::from(refusal);
        return Made {
            length: put_refused(out, answer),
            note: Note {
                refused: true,
                answer,
                steps: 0,
            },
        };
    }
    let cpu = l.cpu;
    let r = cpu.run(
        &mut words,
        &mut owners,
        &mut jumpers,
        &mut writers,
        &mut readers,
        printer::BUDGET,
    );
    Made {
        length: put_ran(out, r, &words, &owners, &writers),
        note: Note {
            refused: false,
            answer: r.answer,
            steps: r.count,
        },
    }
}

// Runs an image in a mode and writes its line to the front of the buffer; what the totals take of it is told whatever the buffer.
pub fn line(strict: bool, bytes: &[u8], out: &mut [u8]) -> Lined
    ensures { lined_of result out.new ≡ told.line strict bytes.now out.old }
{
    let mut made = [0u8; LONGEST];
    let Made { length, note } = make(strict, bytes, &mut made);
    let told = place(out, &made[..length]);
    Lined { told, note }
}

// The totals of no lines.
#[tactic(auto, unfolding(sheets::specs::Told::none))]
pub fn none() -> Totals
    ensures { totals_of result ≡ told.none }
{
    Totals {
        images: 0,
        refused: 0,
        ended: [0; 18],
        steps: 0,
    }
}

// The totals with a line more.
pub fn add(t: Totals, n: Note) -> Totals
    ensures { totals_of result ≡ told.added (totals_of t) (note_of n) }
{
    let mut ended = t.ended;
    count(&mut ended, n);
    Totals {
        images: t.images.wrapping_add(1),
        refused: t.refused.wrapping_add(u32::from(n.refused)),
        ended,
        steps: t.steps.wrapping_add(n.steps),
    }
}

// Writes the totals' line to the front of the buffer; in strict mode 17 is listed too.
pub fn total(strict: bool, t: Totals, out: &mut [u8]) -> Result<usize, Refusal>
    ensures { told_of result out.new ≡ told.total strict (totals_of t) out.old }
{
    let mut made = [0u8; LONGEST_TOTALS];
    let length = put_totals(&mut made, strict, t);
    place(out, &made[..length])
}

// How the night ended: halted where every image did.
pub fn ended(t: Totals) -> Ending
    ensures { status_of result ≡ status (totals_of t) }
{
    if t.ended[1] == t.images {
        Ending::Halted
    } else {
        Ending::Stopped
    }
}
