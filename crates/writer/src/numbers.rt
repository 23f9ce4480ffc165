// A number in four bytes, lowest first.
ghost use Rattle.std.specs.Prelude.{◌≡◌, ◌+◌, ◌≤◌, length};
ghost use Rattle.std.proofs.lemmas.List.Edits.{sets};
ghost use Rattle.rules.specs.Images.{four_bytes};

// Puts a number into the four bytes from a place on; answers the place after them.
pub(crate) fn put(out: &mut [u8], at: usize, x: u32) -> usize
    requires { at + 4 ≤ length out.old }
    ensures { (result ≡ at + 4) × (out.new ≡ sets out.old at (four_bytes x)) }
{
    let end = at + 4;
    out[at..end].copy_from_slice(&x.to_le_bytes());
    end
}
