// The mnemonics in the sheet's spelling.
ghost use Rattle.std.specs.Prelude.{◌≡◌, [], ◌+◌, ◌<◌, ◌≤◌, length, get_or, take, drop};
ghost use Rattle.sources.specs.Listing.{mnemonics};
ghost use Rattle.disassembler.specs.Stores.{Stored};

// How many letters each has.
const LETTERS: [usize; 14] = [3, 5, 3, 3, 3, 3, 2, 3, 4, 5, 4, 3, 3, 4];

fn letters(op: u32) -> usize
    requires { op < 14 }
    ensures { result ≡ length (get_or mnemonics op []) }
{
    let i = op as usize;
    LETTERS[i]
}

// Stores n bytes of a text, those from `first` on; answers the place after them.
fn store_part(out: &mut [u8], at: usize, text: &[u8], first: usize, n: usize) -> usize
    requires { (first + n ≤ length text.now) × (at + n ≤ length out.old) }
    ensures { Stored out.old at (take n (drop first text.now)) out.new result }
{
    let end = first + n;
    text::put_text(out, at, &text[first..end])
}

// Stores the mnemonic of an opcode. Each takes five bytes of one text.
pub(crate) fn store_name(out: &mut [u8], at: usize, op: u32) -> usize
    requires { (op < 14) × (at + length (get_or mnemonics op []) ≤ length out.old) }
    ensures { Stored out.old at (get_or mnemonics op []) out.new result }
{
    let n = letters(op);
    let first = 5 * op as usize;
    store_part(
        out,
        at,
        b"Nop..ConstMov..Add..Sub..Mul..Eq...Leq..Load.StoreJump.Jal..Bnz..Halt.",
        first,
        n,
    )
}
