// The parts of a line, and a text moved to the lent buffer.
ghost use Rattle.std.specs.Prelude.{◌≡◌, ◌≤◌, [], ◌++◌, length};
ghost use Rattle.numerals.specs.Writing.{put};
ghost use Rattle.text.specs.Puts.{put_of};
ghost use Rattle.machine.specs.Views.{state_of};
ghost use Rattle.printed.specs.Text.{line_end};
ghost use Rattle.sheets.specs.Lines.{members, target_writers, numbers_text, writers_text};
ghost use Rattle.sheets.specs.Told.{tell};
ghost use Rattle.sheet.specs.LineLaws.{one_text};
ghost use Rattle.sheet.specs.Views.{told_of};

use answers::Refusal;
use compartments::Set;
use machine::Processor;
use printer::lines::put_field;

// The answer of a run whose line tells the writers.
const STORE_FORBIDDEN: u32 = Refusal::StoreForbidden as u32;

// W of the word that the Store at pc names.
pub(crate) fn target_writers(cpu: Processor, words: &[u32], writers: &[u64]) -> u64
    ensures { result ≡ target_writers (state_of cpu words.now [] [] writers.now []) }
{
    let register = match instructions::decode(memory::word_at(words, cpu.pc)) {
        Ok(instruction) => instruction.a,
        Err(_) => 0,
    };
    let x = memory::word_at(&cpu.regs, register);
    memory::set_at(writers, x)
}

// A space and a number below 64; a higher one is in no set.
fn put_number(out: &mut [u8], at: usize, c: u32) -> usize
    requires { at ≤ length out.old }
    ensures { put_of result out.new ≡ put (one_text c) at out.old }
{
    if c < 64 {
        put_field(out, at, b" ", c)
    } else {
        at
    }
}

// The numbers in a set, a space before each: the lowest of those from `from` on is told by trailing zeros.
fn put_numbers(out: &mut [u8], at: usize, set: u64) -> usize
    requires { at ≤ length out.old }
    ensures { put_of result out.new ≡ put (numbers_text (members set)) at out.old }
{
    let mut p = at;
    let mut from: u32 = 0;
    // kept: the new form is no plainer (a `for` goes through 64 numbers, and this from one in the set to the next)
    while from < 64 {
        let c = from + Set(set >> from).lowest();
        p = put_number(out, p, c);
        from = c + 1;
    }
    p
}

// ` writers` and their numbers where the answer is 7, else nothing.
fn put_writers(out: &mut [u8], at: usize, answer: u32, set: u64) -> usize
    requires { at ≤ length out.old }
    ensures { put_of result out.new ≡ put (writers_text answer (members set)) at out.old }
{
    if answer != STORE_FORBIDDEN {
        return at;
    }
    let p = text::put_text(out, at, b" writers");
    put_numbers(out, p, set)
}

// What stands behind the fields of a line.
pub(crate) fn put_end(out: &mut [u8], at: usize, answer: u32, set: u64) -> usize
    requires { at ≤ length out.old }
    ensures { put_of result out.new ≡ put (writers_text answer (members set) ++ line_end) at out.old }
{
    let p = put_writers(out, at, answer, set);
    text::put_text(out, p, b"\n")
}

// A text to the front of the lent buffer, where it has room; answers its length.
pub(crate) fn place(out: &mut [u8], made: &[u8]) -> Result<usize, Refusal>
    ensures { told_of result out.new ≡ tell made.now out.old }
{
    let length = made.len();
    if out.len() < length {
        return Err(Refusal::ShortBuffer);
    }
    text::put_text(out, 0, made);
    Ok(length)
}
