// What the mode decides of the services and the numbers: how many services there are, where they sit, which compartments own them, and the
// first unused number.
#![tactic(auto)]

ghost use Rattle.std.specs.Prelude.{◌≡◌};
ghost use Rattle.common.specs.Services.{service_count, is_service, is_service_number};
ghost use Rattle.rules.specs.State.{first_number};

// Where the services sit; at the last there is one in strict mode alone.
pub const ISOLATE: u32 = 4096;

pub const ADD_JUMP_TARGET: u32 = 4097;

pub const ADD_STORE_TARGET: u32 = 4098;

pub const ADD_READ_TARGET: u32 = 4099;

// How many services there are: a fourth in strict mode.
#[tactic(auto, unfolding(common::specs::Services::service_count))]
pub fn service_count(strict: bool) -> u32
    ensures { result ≡ service_count strict }
{
    if strict { 4 } else { 3 }
}

// Whether a service sits at x.
#[tactic(auto, using(common::proofs::Laws::ServiceLaws::service_count_lem), unfolding(common::specs::Services::is_service))]
pub fn is_service(strict: bool, x: u32) -> bool
    ensures { result ≡ is_service strict x }
{
    ISOLATE <= x && x < ISOLATE + service_count(strict)
}

// Whether a number is one that owns a service, and so no word.
#[tactic(auto, unfolding(common::specs::Services::is_service_number))]
pub fn is_service_number(strict: bool, number: u32) -> bool
    ensures { result ≡ is_service_number strict number }
{
    1 <= number && number <= service_count(strict)
}

// The first number that no compartment has after loading.
#[tactic(auto, using(common::proofs::Laws::ServiceLaws::service_count_lem), unfolding(rules::specs::State::first_number))]
pub fn first_number(strict: bool) -> u32
    ensures { result ≡ first_number strict }
{
    service_count(strict) + 1
}
