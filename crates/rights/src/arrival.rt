// How pc came to where it is, in one number: the pc number; 2^32 more where the flag is jumped; 2^33 more where the pc number is not
// known to pass 15. A run keeps this one number instead of three, and at a word of the compartment that just ran compares it once.
ghost use Rattle.std.specs.Prelude.{◌≡◌};
ghost use Rattle.rights.specs.Arrivals as is;

pub const JUMPED: u64 = 4294967296;

const UNASKED: u64 = 8589934592;

// The arrival of a pc number that has not been asked for 15: at a run's begin, and at a service.
#[tactic(auto, unfolding(crate::specs::Arrivals::unasked))]
pub fn unasked(prev: u32, jumped: bool) -> u64
    ensures { result ≡ is.unasked prev jumped }
{
    if jumped {
        prev as u64 + JUMPED + UNASKED
    } else {
        prev as u64 + UNASKED
    }
}

#[tactic(auto, unfolding(crate::specs::Arrivals::prev_of))]
pub fn prev_of(arrival: u64) -> u32
    ensures { result ≡ is.prev_of arrival }
{
    (arrival % JUMPED) as u32
}

#[tactic(auto, unfolding(crate::specs::Arrivals::jumped_of))]
pub fn jumped_of(arrival: u64) -> bool
    ensures { result ≡ is.jumped_of arrival }
{
    arrival / JUMPED % 2 == 1
}

// Whether a word's owner is the compartment that just ran, and came here without a jump: it passed 15.
pub fn is_home(arrival: u64, owner: u32) -> bool
    ensures { result ≡ is.home arrival owner }
{
    owner as u64 == arrival
}
