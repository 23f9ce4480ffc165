// Check 14: whether a processor's numbers and the lengths of the lent memories form a state.
#![tactic(auto)]

ghost use Rattle.std.specs.Prelude.{◌≡◌};
ghost use Rattle.form.specs.Form.{lengths_by, room_by, numbered_by, seated_by, formed_by};

// Whether the lent memories are of one length; the readers' counts in strict mode alone.
pub fn same_lengths(
    strict: bool,
    words: usize,
    owners: usize,
    jumpers: usize,
    writers: usize,
    readers: usize,
) -> bool
    ensures { result ≡ lengths_by strict words owners jumpers writers readers }
{
    owners == words && jumpers == words && writers == words && (!strict || readers == words)
}

// N is 1 to 2,048 and not above the memories' length.
fn has_room(n: u32, words: usize) -> bool
    ensures { result ≡ room_by n words }
{
    1 <= n && n <= 2048 && n as usize <= words
}

// next is the first number after loading to 64, and the pc number below it.
fn is_numbered(strict: bool, next: u32, prev: u32) -> bool
    ensures { result ≡ numbered_by strict next prev }
{
    modes::first_number(strict) <= next && next <= 64 && prev < next
}

// No service's number at a service address.
fn is_seated(strict: bool, prev: u32, pc: u32) -> bool
    ensures { result ≡ seated_by strict prev pc }
{
    !(modes::is_service_number(strict, prev) && modes::is_service(strict, pc))
}

// Whether they form a state.
#[tactic(auto, unfolding(crate::specs::Form::formed_by))]
pub fn is_formed(
    strict: bool,
    n: u32,
    pc: u32,
    prev: u32,
    next: u32,
    words: usize,
    owners: usize,
    jumpers: usize,
    writers: usize,
    readers: usize,
) -> bool
    ensures { result ≡ formed_by strict n pc prev next words owners jumpers writers readers }
{
    same_lengths(strict, words, owners, jumpers, writers, readers)
        && has_room(n, words)
        && is_numbered(strict, next, prev)
        && is_seated(strict, prev, pc)
}
