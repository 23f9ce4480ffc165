// The work of the sheet program: the names on standard input are read, each file's image is run, and its line and then the totals are
// written. What the system reads and writes no contract can say; lines and totals come from calls whose promises are whole.
#![tactic(auto)]

ghost use Rattle.std.specs.Prelude.{◌≤◌};
ghost use Rattle.std.specs.Counts.{IsPrefixLen};

use answers::Refusal;
use printer::Ending;
use sheet::Totals;
use std::fs::File;
use streams::Cut;

// After so many names the list ends, and no name is longer than so many bytes.
const NAMES: u32 = 10000;

const NAME: usize = 255;

// How many times the list is read at most, so that the loop ends.
const READS: u64 = 4294967296;

// How far the list has come: the bytes of the name that is not ended, the names that are, and the totals.
#[derive(Drop)]
struct Night {
    strict: bool,
    name: [u8; 256],
    used: usize,
    names: u32,
    totals: Totals,
    ghost kept: { used ≤ 256 },
}

// The image in a file, or nothing where it cannot be read to its end or is longer than any image: nothing is refused as 20.
fn take(rt: HostRuntime, name: &[u8], bytes: &mut [u8]) -> usize
    ensures { IsPrefixLen result bytes.new }
{
    if name.is_empty() || NAME < name.len() {
        return 0;
    }
    let Ok(path) = std::str::from_utf8(name) else {
        return 0;
    };
    let Ok(mut file) = File::open(&rt, path) else {
        return 0;
    };
    streams::read_all(&mut file, bytes).unwrap_or(0)
}

// Writes a line that was put into a buffer.
fn write(rt: HostRuntime, text: &[u8], told: Result<usize, Refusal>) -> Result<(), Cut> {
    let n = streams::within(told.unwrap_or(0), text);
    streams::write_all(&mut rt.stdout(), &text[..n])
}

impl Night {
    fn new(strict: bool) -> Self {
        Night {
            strict,
            name: [0; 256],
            used: 0,
            names: 0,
            totals: sheet::none(),
        }
    }

    // Whether the list goes on.
    fn goes_on(&self) -> bool {
        self.names < NAMES
    }

    // Writes the line of the file with the name that has ended. The loader answers of a longer file what it answers of its first 8,273
    // bytes.
    fn run_name(&mut self, rt: HostRuntime) -> Result<(), Cut> {
        let mut bytes = [0; 8273];
        let mut out = [0; sheet::LONGEST];
        let n = take(rt, &self.name[..self.used], &mut bytes);
        let line = sheet::line(self.strict, &bytes[..n], &mut out);
        self.used = 0;
        self.names = self.names.wrapping_add(1);
        self.totals = sheet::add(self.totals, line.note);
        write(rt, &out, line.told)
    }

    // Takes a byte more of the list: one of a name, of which no more than 256 are kept, or its end.
    fn take_byte(&mut self, rt: HostRuntime, byte: u8) -> Result<(), Cut> {
        if !self.goes_on() {
            return Ok(());
        }
        if byte == b'\n' {
            return self.run_name(rt);
        }
        if self.used < 256 {
            self.name[self.used] = byte;
            self.used += 1;
        }
        Ok(())
    }

    // Takes the bytes of the list that were read.
    fn take_bytes(&mut self, rt: HostRuntime, bytes: &[u8]) -> Result<(), Cut> {
        for byte in bytes {
            self.take_byte(rt, *byte)?;
        }
        Ok(())
    }

    // The list has ended: its last name may lack its line feed. Then come the totals.
    fn finish(&mut self, rt: HostRuntime) -> Result<Ending, Cut> {
        if 0 < self.used && self.goes_on() {
            self.run_name(rt)?;
        }
        let mut out = [0; sheet::LONGEST_TOTALS];
        let told = sheet::total(self.strict, self.totals, &mut out);
        write(rt, &out, told)?;
        Ok(sheet::ended(self.totals))
    }

    // Reads the list to its end, and writes the sheet; answers how it ended, or nothing where the list could not be read.
    fn make(&mut self, rt: HostRuntime) -> Result<Option<Ending>, Cut> {
        let mut bytes = [0; 4096];
        for _ in 0..READS {
            if !self.goes_on() {
                return self.finish(rt).map(Some);
            }
            match streams::read_all(&mut rt.stdin(), &mut bytes) {
                Ok(0) => return self.finish(rt).map(Some),
                Ok(n) => self.take_bytes(rt, &bytes[..n])?,
                Err(_) => return Ok(None),
            }
        }
        Ok(None)
    }
}

// Makes the sheet of the list on standard input.
pub fn make_sheet(rt: HostRuntime, strict: bool) {
    let mut night = Night::new(strict);
    let ending = match night.make(rt) {
        Ok(Some(ending)) => ending,
        Ok(None) => {
            card::say(rt, b"the list could not be read\n");
            Ending::NotRun
        }
        Err(_) => {
            card::say(rt, b"the sheet could not be written\n");
            Ending::NotRun
        }
    };
    card::tell(rt, ending.into());
}
