// Sets of compartment numbers 0 to 63, each one 64-bit number with a bit per compartment.
#![tactic(auto)]

ghost use Rattle.std.specs.Prelude.{◌≡◌};
ghost use Rattle.rules.specs.Compartments.{member, insert, empty, service_numbers, size, lowest};

// kept: contracts here, in rights and in tags, and the theorems none_once to lowest_once, speak of the number in it, as a memory holds it
#[derive(Clone, Copy, Debug, PartialEq, Eq)]
pub struct Set(pub u64);

impl Set {
    pub const EMPTY: Set = Set(0);

    // The compartments 1, 2 and 3, which own the three services.
    pub const SERVICES: Set = Set(14);

    // 1 to 4, which own the four services of strict mode.
    pub const SERVICES_STRICT: Set = Set(30);

    // The set with no number in it.
    pub fn none() -> Set
        ensures { result.0 ≡ empty }
    {
        Set::EMPTY
    }

    // The set of the services' numbers.
    pub fn of_services(strict: bool) -> Set
        ensures { result.0 ≡ service_numbers strict }
    {
        if strict {
            Set::SERVICES_STRICT
        } else {
            Set::SERVICES
        }
    }

    // Whether a number is in the set; one from 64 on is in none.
    pub fn contains(self, number: u32) -> bool
        ensures { result ≡ member self.0 number }
    {
        number < 64 && (self.0 >> number) % 2 == 1
    }

    // The set with a number more; one from 64 on changes nothing.
    pub fn insert(self, number: u32) -> Set
        ensures { result.0 ≡ insert self.0 number }
    {
        if number < 64 {
            Set(self.0 | 1 << number)
        } else {
            self
        }
    }

    // How many numbers are in the set.
    pub fn count(self) -> u32
        ensures { result ≡ size self.0 }
    {
        self.0.count_ones()
    }

    // The lowest number in the set, or 64 where it is empty.
    pub fn lowest(self) -> u32
        ensures { result ≡ lowest self.0 }
    {
        self.0.trailing_zeros()
    }
}
