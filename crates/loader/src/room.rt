// Five memories of one's own, all of one length: room for an image to be loaded and run.
ghost use Rattle.std.specs.Prelude.{◌≡◌, replicate};
ghost use Rattle.rules.specs.Images.{load};
ghost use Rattle.rules.specs.Step.{step};
ghost use Rattle.rules.specs.Run.{run};
ghost use Rattle.rules.specs.Rows.{lent_load, lent_run};
ghost use Rattle.rows.specs.Views.{table};
ghost use Rattle.machine.specs.Views.{state_of, stepped_of, ran_of, ran_with};
ghost use Rattle.loader.specs.Views.{loaded_of, loaded_with, lent};

use crate::Loaded;
use machine::{Processor, Ran, Stepped};
use memory::Memories;
use rows::Row;

/// The words, their owners, and the sets of those that may jump to them, store to them and read them.
#[derive(Clone, Copy)]
pub struct Room<const N: usize> {
    pub words: [u32; N],
    pub owners: [u32; N],
    pub jumpers: [u64; N],
    pub writers: [u64; N],
    pub readers: [u64; N],
}

impl<const N: usize> Room<N> {
    /// Every word is 0 and the main compartment's, and nobody else is in a set.
    pub fn new() -> Self
        ensures { result ≡ record { words = replicate N 0; owners = replicate N 0; jumpers = replicate N 0; writers = replicate N 0; readers = replicate N 0 } }
    {
        Room {
            words: [0; N],
            owners: [0; N],
            jumpers: [0; N],
            writers: [0; N],
            readers: [0; N],
        }
    }

    /// Lends the memories for reading.
    pub fn lent(&self) -> Memories<'_>
        ensures words { result.words.now ≡ self.now.words }
        ensures owners { result.owners.now ≡ self.now.owners }
        ensures jumpers { result.jumpers.now ≡ self.now.jumpers }
        ensures writers { result.writers.now ≡ self.now.writers }
        ensures readers { result.readers.now ≡ self.now.readers }
    {
        Memories {
            words: &self.words,
            owners: &self.owners,
            jumpers: &self.jumpers,
            writers: &self.writers,
            readers: &self.readers,
        }
    }

    /// Loads an image, for a run in a mode.
    pub fn load(&mut self, strict: bool, bytes: &[u8]) -> Loaded
        ensures { loaded_of result self.new.words self.new.owners self.new.jumpers self.new.writers self.new.readers ≡ load strict bytes.now (lent self.old.words self.old.owners self.old.jumpers self.old.writers self.old.readers) }
    {
        crate::load(
            strict,
            bytes,
            &mut self.words,
            &mut self.owners,
            &mut self.jumpers,
            &mut self.writers,
            &mut self.readers,
        )
    }

    /// The same, with a table of rows.
    pub fn load_rows(&mut self, strict: bool, bytes: &[u8], rows: &mut [Row]) -> Loaded
        ensures { loaded_with result self.new.words self.new.owners self.new.jumpers self.new.writers self.new.readers rows.new ≡ lent_load strict bytes.now (lent self.old.words self.old.owners self.old.jumpers self.old.writers self.old.readers) (table rows.old) }
    {
        crate::load_rows(
            strict,
            bytes,
            &mut self.words,
            &mut self.owners,
            &mut self.jumpers,
            &mut self.writers,
            &mut self.readers,
            rows,
        )
    }

    /// Runs from a record, with a budget.
    pub fn run(&mut self, cpu: Processor, budget: u32) -> Ran
        ensures { ran_of result self.new.words self.new.owners self.new.jumpers self.new.writers self.new.readers ≡ run budget (state_of cpu self.old.words self.old.owners self.old.jumpers self.old.writers self.old.readers) }
    {
        cpu.run(
            &mut self.words,
            &mut self.owners,
            &mut self.jumpers,
            &mut self.writers,
            &mut self.readers,
            budget,
        )
    }

    /// The same, with a table of rows.
    pub fn run_rows(&mut self, cpu: Processor, budget: u32, rows: &mut [Row]) -> Ran
        ensures { ran_with result self.new.words self.new.owners self.new.jumpers self.new.writers self.new.readers rows.new ≡ lent_run budget (state_of cpu self.old.words self.old.owners self.old.jumpers self.old.writers self.old.readers) (table rows.old) }
    {
        cpu.run_rows(
            &mut self.words,
            &mut self.owners,
            &mut self.jumpers,
            &mut self.writers,
            &mut self.readers,
            budget,
            rows,
        )
    }

    /// One step from a record.
    pub fn step(&mut self, cpu: Processor) -> Stepped
        ensures { stepped_of result self.new.words self.new.owners self.new.jumpers self.new.writers self.new.readers ≡ step (state_of cpu self.old.words self.old.owners self.old.jumpers self.old.writers self.old.readers) }
    {
        cpu.step(
            &mut self.words,
            &mut self.owners,
            &mut self.jumpers,
            &mut self.writers,
            &mut self.readers,
        )
    }
}
