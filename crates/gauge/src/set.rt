ghost use Rattle.std.specs.Prelude.{◌≡◌, ℕ, Decides, bit_or, nat_lt};
ghost use Rattle.gauge.specs.Zones.{Among, Joined, Unites, inside, subset};
ghost use Rattle.gauge.specs.Limits.{set_at, widest_set};
ghost use Rattle.gauge.specs.LawProofs.Zones.{compares_sets, carries_sets};

use crate::Gauge;

// Unites sets of 32 zones, within an allowed set: zone k is the bit of value 2^k.
#[derive(Clone, Copy)]
pub struct Set {
    allowed: u32,
}

impl Set {
    // The sets within the allowed one.
    pub fn new(allowed: u32) -> Set
        ensures { result ≡ set_at allowed }
    {
        Set { allowed }
    }

    // Any sets of the 32 zones.
    pub fn widest() -> Set
        ensures { result ≡ widest_set }
    {
        Set { allowed: u32::MAX }
    }
}

impl Gauge for Set {
    type Cost = u32;

    type Weight = u32;

    ghost origin = { 0 };

    ghost reach = { λ g c w. inside g.allowed (bit_or c w) };

    ghost no_worse = { subset };

    ghost earlier = { nat_lt };

    ghost compares = { compares_sets };

    ghost carries = { λ g. carries_sets g.allowed };

    fn start() -> u32 {
        0
    }

    fn along(&self, cost: u32, weight: u32) -> Option<u32>
        ensures result { result ≡ inside self.now.allowed (bit_or cost weight) }
        ensures zones { Joined self.now.allowed cost weight result }
    {
        let zones = unite(cost, weight);
        among(zones, self.allowed).then_some(zones)
    }

    fn no_worse(a: u32, b: u32) -> bool
        ensures result { result ≡ subset a b }
        ensures zones { Decides result (Among a b) }
    {
        among(a, b)
    }

    fn before(a: u32, b: u32) -> bool {
        a < b
    }
}

// Whether every zone of a is one of b.
#[tactic(auto, using(crate::specs::LawProofs::Zones::subset_decides))]
fn among(a: u32, b: u32) -> bool
    ensures result { result ≡ subset a b }
    ensures zones { Decides result (Among a b) }
{
    a & b == a
}

// The zones of both, and no more.
fn unite(a: u32, b: u32) -> u32
    ensures result { result ≡ bit_or a b }
    ensures zones { Unites a b result }
    ensures least { (c : ℕ) → Among a c → Among b c → Among result c }
{
    a | b
}
