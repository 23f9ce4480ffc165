// The sections of an image, written one after the other.
ghost use Rattle.std.specs.Prelude.{◌≡◌, ◌+◌, ◌*◌, ◌≤◌, length};
ghost use Rattle.std.proofs.lemmas.List.Edits.{sets};
ghost use Rattle.rules.specs.Images.{section, listed};

use crate::numbers::put;

// How many registers are listed: up to the last that is not 0.
pub(crate) fn listed_count(regs: &[u32]) -> usize
    ensures { result ≡ length (listed regs.now) }
{
    for k in (0..regs.len()).rev() {
        if regs[k] != 0 {
            return k + 1;
        }
    }
    0
}

// Numbers after their count, from a place on; answers the place after them.
pub(crate) fn put_section(out: &mut [u8], at: usize, numbers: &[u32]) -> usize
    requires { (length numbers.now ≤ 2048) × (at + 4 + 4 * length numbers.now ≤ length out.old) }
    ensures { (result ≡ at + 4 + 4 * length numbers.now) × (out.new ≡ sets out.old at (section numbers.now)) }
{
    let mut end = put(out, at, numbers.len() as u32);
    for number in numbers {
        end = put(out, end, *number);
    }
    end
}
