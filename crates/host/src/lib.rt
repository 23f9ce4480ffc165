// The calls of a host program, which keeps one processor record and lends it to each. Crate host_c hands each on to C, under its name.
#![tactic(auto)]

ghost use Rattle.std.specs.Prelude.{◌≡◌, []};
ghost use Rattle.std.specs.Result.{result_unwrap_or};
ghost use Rattle.answers.specs.Numbers.{answer_of};
ghost use Rattle.common.specs.Words.{decode, encode};
ghost use Rattle.rules.specs.Rows.{lent_load, lent_step, lent_run};
ghost use Rattle.reasons.specs.Why.{why};
ghost use Rattle.rules.specs.Images.{check, write};
ghost use Rattle.rules.specs.Counts.{owned_count, jump_count, store_count, widest};
ghost use Rattle.sources.specs.Meaning.{assemble};
ghost use Rattle.sources.specs.Listing.{disassemble};
ghost use Rattle.intel_hex.specs.Exporting.{export};
ghost use Rattle.intel_hex.specs.Importing.{import};
ghost use Rattle.rows.specs.Views.{table};
ghost use Rattle.machine.specs.Views.{state_of};
ghost use Rattle.loader.specs.Views.{lent};
ghost use Rattle.host.specs.Views.{loaded_by, checked_by, stepped_by, ran_by, decoded_by, laid_out, told_by, all_told, encoded_by, written_by, assembled_by, imported_by};

use answers::{Refusal, answer_of};
use machine::Processor;
use memory::Memories;
use rows::Row;

// Loads an image over whatever the record and the table held, for a run in a mode; a refused load leaves the blank record of that mode, and
// the table as it was.
pub fn kl_load(
    cpu: &mut Processor,
    strict: bool,
    bytes: &[u8],
    words: &mut [u32],
    owners: &mut [u32],
    jumpers: &mut [u64],
    writers: &mut [u64],
    readers: &mut [u64],
    rows: &mut [Row],
) -> u32
    ensures { loaded_by cpu.new result words.new owners.new jumpers.new writers.new readers.new rows.new ≡ lent_load strict bytes.now (lent words.old owners.old jumpers.old writers.old readers.old) (table rows.old) }
{
    let l = loader::load_rows(
        strict, bytes, words, owners, jumpers, writers, readers, rows,
    );
    *cpu = l.cpu;
    answer_of(&l.answer)
}

// Checks an image, with no memory: what a load into memories of 2,048 places would answer. n is N, or 0 where the image is refused.
pub fn kl_check(bytes: &[u8], n: &mut u32) -> u32
    ensures { checked_by result n.new ≡ check bytes.now }
{
    let read = reader::check(bytes);
    *n = read.unwrap_or(0);
    answer_of(&read)
}

// One step; the rows move by what the counts move.
pub fn kl_step(
    cpu: &mut Processor,
    words: &mut [u32],
    owners: &mut [u32],
    jumpers: &mut [u64],
    writers: &mut [u64],
    readers: &mut [u64],
    rows: &mut [Row],
) -> u32
    ensures { stepped_by cpu.new result words.new owners.new jumpers.new writers.new readers.new rows.new ≡ lent_step (state_of cpu.old words.old owners.old jumpers.old writers.old readers.old) (table rows.old) }
{
    let s = cpu.step_rows(words, owners, jumpers, writers, readers, rows);
    *cpu = s.cpu;
    s.answer
}

// Steps until the first nonzero answer or until the budget is used, and moves the rows with each; count is how many answered 0.
pub fn kl_run(
    cpu: &mut Processor,
    words: &mut [u32],
    owners: &mut [u32],
    jumpers: &mut [u64],
    writers: &mut [u64],
    readers: &mut [u64],
    rows: &mut [Row],
    budget: u32,
    count: &mut u32,
) -> u32
    ensures { ran_by cpu.new result count.new words.new owners.new jumpers.new writers.new readers.new rows.new ≡ lent_run budget (state_of cpu.old words.old owners.old jumpers.old writers.old readers.old) (table rows.old) }
{
    let r = cpu.run_rows(words, owners, jumpers, writers, readers, budget, rows);
    *cpu = r.cpu;
    *count = r.count;
    r.answer
}

// Why the next step would answer its number: the answer, and in told the seven numbers of it. The record comes in its parts, each lent or
// by value; nothing of the state changes.
pub fn kl_why_of(
    n: u32,
    regs: &[u32; 16],
    pc: u32,
    prev: u32,
    jumped: bool,
    strict: bool,
    next: u32,
    services: &[u64; 4],
    words: &[u32],
    owners: &[u32],
    jumpers: &[u64],
    writers: &[u64],
    readers: &[u64],
    told: &mut [u32; 7],
) -> u32
    ensures { told_by result told.new ≡ all_told (why (state_of (record { n = n; regs = regs.now; pc = pc; prev = prev; jumped = jumped; strict = strict; next = next; services = services.now }) words.now owners.now jumpers.now writers.now readers.now)) }
{
    let cpu = Processor {
        n,
        regs: *regs,
        pc,
        prev,
        jumped,
        strict,
        next,
        services: *services,
    };
    let lent = Memories {
        words,
        owners,
        jumpers,
        writers,
        readers,
    };
    let w = why::why(cpu, &lent);
    *told = [w.answer, w.set, w.fault, w.place, w.owner, w.value, w.bits];
    w.answer
}

// Takes a word apart: opcode, field a, field b, low 16 bits.
pub fn kl_decode(word: u32, fields: &mut [u32; 4]) -> u32
    ensures { decoded_by result fields.new ≡ laid_out (decode word) }
{
    match instructions::decode(word) {
        Ok(i) => {
            *fields = [i.op, i.a, i.b, i.low];
            answers::DONE
        }
        Err(refusal) => {
            *fields = [0; 4];
            refusal.into()
        }
    }
}

// Puts a word together.
pub fn kl_encode(op: u32, a: u32, b: u32, low: u32, word: &mut u32) -> u32
    ensures { encoded_by result word.new ≡ encode op a b low }
{
    let made = instructions::encode(op, a, b, low);
    *word = made.unwrap_or(0);
    answer_of(&made)
}

// The number of an answer; length is how many bytes were written, 0 where it is a refusal.
fn tell(written: Result<usize, Refusal>, length: &mut usize) -> u32
    ensures answered { result ≡ answer_of written }
    ensures told { length.new ≡ result_unwrap_or written 0 }
{
    *length = written.unwrap_or(0);
    answer_of(&written)
}

// Writes an image to the front of a buffer; length is how many bytes it takes.
pub fn kl_write(
    words: &[u32],
    regs: &[u32; 16],
    entry: u32,
    out: &mut [u8],
    length: &mut usize,
) -> u32
    ensures { written_by result length.new out.new ≡ write words.now regs.now entry out.old }
{
    tell(writer::write(words, regs, entry, out), length)
}

// Assembles a source to the front of a buffer; line is the line at fault, and length how many bytes the image takes.
pub fn kl_assemble(text: &[u8], out: &mut [u8], line: &mut u64, length: &mut usize) -> u32
    ensures { assembled_by result line.new length.new out.new ≡ assemble text.now out.old }
{
    match assembler::assemble(text, out) {
        Ok(image_length) => {
            *line = 0;
            *length = image_length;
            answers::DONE
        }
        Err(fault) => {
            *line = fault.line;
            *length = 0;
            fault.refusal.into()
        }
    }
}

// Imports a text of Intel HEX to the front of a buffer, with registers and an entry; line is the record at fault, and length how many
// bytes the image takes.
pub fn kl_import(
    text: &[u8],
    regs: &[u32; 16],
    entry: u32,
    out: &mut [u8],
    line: &mut u64,
    length: &mut usize,
) -> u32
    ensures { imported_by result line.new length.new out.new ≡ import text.now regs.now entry out.old }
{
    match importer::import(text, regs, entry, out) {
        Ok(made) => {
            *line = 0;
            *length = made;
            answers::DONE
        }
        Err(at) => {
            *line = at.line;
            *length = 0;
            at.refusal.into()
        }
    }
}

// Writes a source of words to the front of a buffer; length is how many bytes it takes.
pub fn kl_disassemble(words: &[u32], out: &mut [u8], length: &mut usize) -> u32
    ensures { written_by result length.new out.new ≡ disassemble words.now out.old }
{
    tell(disassembler::disassemble(words, out), length)
}

// Writes words as a text in the Intel HEX format to the front of a buffer; length is how many bytes it takes.
pub fn kl_export(words: &[u32], out: &mut [u8], length: &mut usize) -> u32
    ensures { written_by result length.new out.new ≡ export words.now out.old }
{
    tell(exporter::export(words, out), length)
}

// The addresses that a compartment owns, services counted.
pub fn kl_owned(cpu: &Processor, owners: &[u32], number: u32) -> u32
    ensures { result ≡ owned_count (state_of cpu.now [] owners.now [] [] []) number }
{
    report::owned(*cpu, owners, number)
}

// The addresses that a compartment may jump to, services counted.
pub fn kl_jumps(cpu: &Processor, jumpers: &[u64], number: u32) -> u32
    ensures { result ≡ jump_count (state_of cpu.now [] [] jumpers.now [] []) number }
{
    report::jumps(*cpu, jumpers, number)
}

// The addresses that a compartment may store to. No service is among them.
pub fn kl_stores(cpu: &Processor, writers: &[u64], number: u32) -> u32
    ensures { result ≡ store_count (state_of cpu.now [] [] [] writers.now []) number }
{
    report::stores(*cpu, writers, number)
}

// The most compartments that may write to any one word below N, its owner counted once.
pub fn kl_widest(cpu: &Processor, owners: &[u32], writers: &[u64]) -> u32
    ensures { result ≡ widest (state_of cpu.now [] owners.now [] writers.now []) }
{
    report::widest(*cpu, owners, writers)
}
