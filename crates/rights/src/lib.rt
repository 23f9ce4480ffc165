// Who may run, arrive, load and store: the checks 15, 4, 17 and 7, over numbers alone.
#![tactic(auto)]

pub mod arrival;

ghost use Rattle.std.specs.Prelude.{◌≡◌, ◌&&◌};
ghost use Rattle.rules.specs.Compartments.{member};
ghost use Rattle.rights.specs.Rights as is;

use compartments::Set;

// 15: whether an owner is below next and owns no service.
#[tactic(auto, unfolding(crate::specs::Rights::free))]
pub fn is_free(strict: bool, owner: u32, next: u32) -> bool
    ensures { result ≡ is.free strict owner next }
{
    owner < next && !modes::is_service_number(strict, owner)
}

// 4, where the owner is another: whether the flag is jumped and prev among the jumpers.
pub fn jumped_in(prev: u32, jumped: bool, jumpers: u64) -> bool
    ensures { result ≡ (jumped && member jumpers prev) }
{
    jumped && Set(jumpers).contains(prev)
}

// 7 and 17: whether a compartment owns the target, or is in the set there: a Store's writers, a Load's readers.
#[tactic(auto, unfolding(crate::specs::Rights::may_use))]
pub fn may_use(owner: u32, target: u32, granted: u64) -> bool
    ensures { result ≡ is.may_use owner target granted }
{
    target == owner || Set(granted).contains(owner)
}
