// The work of the run program and of the check program: an image is read, and what came of it written. What the system reads and writes
// no contract can say; the run's text and how it ended, and the check's answer, come from calls whose promises are whole.
#![tactic(auto)]

ghost use Rattle.std.specs.Counts.{IsPrefixLen};
ghost use Rattle.printed.specs.Outcome.{outcome, Ends};
ghost use Rattle.printer.specs.Endings.{status_of};
ghost use Rattle.streams.specs.Moved.{read_of};

use printer::Ending;
use streams::Cut;

// What is said is for people.
pub fn say(rt: HostRuntime, sentence: &[u8]) {
    let _ = streams::write_all(&mut rt.stderr(), sentence);
}

// Runs an image in a mode and writes the text of what came of it to standard output; answers how it ended.
fn show(rt: HostRuntime, strict: bool, bytes: &[u8]) -> Ending
    ensures { Ends (outcome strict bytes.now) (status_of result) }
{
    let mut made = [0; printer::LONGEST];
    let p = printer::print(strict, bytes, &mut made);
    let n = streams::within(p.length.unwrap_or(0), &made);
    if streams::write_all(&mut rt.stdout(), &made[..n]).is_err() {
        say(rt, b"the text could not be written\n");
        return Ending::NotRun;
    }
    p.ending
}

// Runs an image and writes its text, as the run program does.
pub fn run_image(rt: HostRuntime, strict: bool, bytes: &[u8]) {
    show(rt, strict, bytes);
}

// Says the status, as the last line on standard error: a program has no other way to tell it.
pub fn tell(rt: HostRuntime, status: u32) {
    let _ = eprintln!(rt; "status {status}");
}

// Reads the image on standard input. No image is longer than 8,272 bytes, and the loader answers of a longer input what it answers of its
// first 8,273 bytes (crates/images/specs/Prefix.antt); so does the check.
fn read_image(rt: HostRuntime, bytes: &mut [u8]) -> Result<usize, Cut>
    ensures { IsPrefixLen (read_of result) bytes.new }
{
    let got = streams::read_all(&mut rt.stdin(), bytes);
    if got.is_err() {
        say(rt, b"the image could not be read\n");
        tell(rt, Ending::NotRun.into());
    }
    got
}

// Runs the image on standard input in a mode.
pub fn run_input(rt: HostRuntime, strict: bool) {
    let mut bytes = [0; 8273];
    if let Ok(n) = read_image(rt, &mut bytes) {
        tell(rt, show(rt, strict, &bytes[..n]).into());
    }
}

// Checks an image: `N words` goes to standard output, or `refused R` to standard error; answers how it ended, and nothing where no fault
// was found.
fn check_image(rt: HostRuntime, bytes: &[u8]) -> Result<(), Ending> {
    match reader::check(bytes) {
        Ok(size) => println!(rt; "{size} words").map_err(|_| {
            say(rt, b"the text could not be written\n");
            Ending::NotRun
        }),
        Err(refusal) => {
            let _ = eprintln!(rt; "refused {}", u32::from(refusal));
            Err(Ending::Refused)
        }
    }
}

// Checks the image on standard input.
pub fn check_input(rt: HostRuntime) {
    let mut bytes = [0; 8273];
    if let Ok(n) = read_image(rt, &mut bytes) {
        tell(
            rt,
            check_image(rt, &bytes[..n]).map_or_else(u32::from, |()| 0),
        );
    }
}
