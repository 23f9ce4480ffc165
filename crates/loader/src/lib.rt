// Loads an image into lent memories.
#![tactic(auto)]

mod filling;
pub mod room;

ghost use Rattle.std.specs.Prelude.{◌≡◌, Err};
ghost use Rattle.rules.specs.Rows.{lent_load};
ghost use Rattle.rows.specs.Views.{table};
ghost use Rattle.rules.specs.Images.{blank, load, fresh};
ghost use Rattle.machine.specs.Views.{cpu_of};
ghost use Rattle.loader.specs.Views.{loaded_of, loaded_with, lent};

use crate::filling::fill_words;
use answers::Refusal;
use compartments::Set;
use machine::Processor;
use rows::{ROWS, Row};

/// The processor as after loading, or a refusal and the blank one.
#[derive(Clone, Copy)]
pub struct Loaded {
    pub cpu: Processor,
    pub answer: Result<(), Refusal>,
}

// The owner of every word after loading: the main compartment.
const MAIN: u32 = 0;

// The processor as after loading in a mode; N = 0 makes the blank one.
fn fresh(strict: bool, n: u32, regs: [u32; 16], pc: u32) -> Processor
    ensures { cpu_of result ≡ fresh strict n regs pc }
{
    let main = Set::none().insert(MAIN);
    let jumpers = main.0;
    let services = [jumpers; 4];
    let next = modes::first_number(strict);
    Processor {
        n,
        regs,
        pc,
        prev: MAIN,
        jumped: false,
        strict,
        next,
        services,
    }
}

// A refusal, and the blank record.
fn refused(strict: bool, refusal: Refusal) -> Loaded
    ensures { (cpu_of result.cpu ≡ blank strict) × (result.answer ≡ Err refusal) }
{
    Loaded {
        cpu: fresh(strict, 0, [0; 16], 0),
        answer: Err(refusal),
    }
}

// Loads an image into lent memories, for a run in a mode, and into no table. All checks come first: a refused image fills nothing.
pub fn load(
    strict: bool,
    bytes: &[u8],
    words: &mut [u32],
    owners: &mut [u32],
    jumpers: &mut [u64],
    writers: &mut [u64],
    readers: &mut [u64],
) -> Loaded
    ensures { loaded_of result words.new owners.new jumpers.new writers.new readers.new ≡ load strict bytes.now (lent words.old owners.old jumpers.old writers.old readers.old) }
{
    if !form::same_lengths(
        strict,
        words.len(),
        owners.len(),
        jumpers.len(),
        writers.len(),
        readers.len(),
    ) {
        return refused(strict, Refusal::LengthsDiffer);
    }
    let image = match reader::read(bytes, words.len()) {
        Ok(image) => image,
        Err(refusal) => return refused(strict, refusal),
    };
    let services = Set::of_services(strict);
    let none = Set::none();
    let n = image.size as usize;
    fill_words(words, bytes, n);
    owners[..n].fill(MAIN);
    jumpers[..n].fill(services.0);
    writers[..n].fill(none.0);
    if strict {
        readers[..n].fill(none.0);
    }
    Loaded {
        cpu: fresh(strict, image.size, image.regs, image.entry),
        answer: Ok(()),
    }
}

// Loads an image into lent memories and a lent table, for a run in a mode; a refused image leaves the table as it was.
pub fn load_rows(
    strict: bool,
    bytes: &[u8],
    words: &mut [u32],
    owners: &mut [u32],
    jumpers: &mut [u64],
    writers: &mut [u64],
    readers: &mut [u64],
    rows: &mut [Row],
) -> Loaded
    ensures { loaded_with result words.new owners.new jumpers.new writers.new readers.new rows.new ≡ lent_load strict bytes.now (lent words.old owners.old jumpers.old writers.old readers.old) (table rows.old) }
{
    let same_lengths = form::same_lengths(
        strict,
        words.len(),
        owners.len(),
        jumpers.len(),
        writers.len(),
        readers.len(),
    );
    if same_lengths && rows.len() != ROWS {
        return refused(strict, Refusal::BadRows);
    }
    let loaded = load(strict, bytes, words, owners, jumpers, writers, readers);
    if loaded.answer.is_ok() {
        rows::fill(rows, strict, loaded.cpu.n);
    }
    loaded
}
