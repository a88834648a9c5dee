ghost use Rattle.std.specs.Prelude.{◌≡◌, max, nat_le, nat_lt};
ghost use Rattle.gauge.specs.Costs.{within};
ghost use Rattle.gauge.specs.Limits.{worst_at, widest_worst};
ghost use Rattle.gauge.specs.LawProofs.Numbers.{compares_totals, carries_worsts};

use crate::Gauge;

// Keeps the greatest class met, up to a limit: the steepest ramp. It differs from a Sum in what it does at a run: as one type of both,
// that step would be a trait with laws and two impls of its own.
#[derive(Clone, Copy)]
pub struct Worst {
    limit: u8,
}

impl Worst {
    // The greatest class there is.
    pub const TOP: u8 = 15;

    // The worst class up to the limit, or none if the limit is above the greatest class.
    pub fn new(limit: u32) -> Option<Worst>
        ensures { result ≡ worst_at limit }
    {
        let limit = u8::try_from(limit).ok()?;
        (limit <= Self::TOP).then_some(Worst { limit })
    }

    // The worst class up to the greatest.
    pub fn widest() -> Worst
        ensures { result ≡ widest_worst }
    {
        Worst { limit: Self::TOP }
    }
}

impl Gauge for Worst {
    type Cost = u8;

    type Weight = u8;

    ghost origin = { 0 };

    ghost reach = { λ g c w. within g.limit (max c w) };

    ghost no_worse = { nat_le };

    ghost earlier = { nat_lt };

    ghost compares = { compares_totals };

    ghost carries = { λ g. carries_worsts g.limit };

    fn start() -> u8 {
        0
    }

    fn along(&self, cost: u8, weight: u8) -> Option<u8> {
        let class = cost.max(weight);
        (class <= self.limit).then_some(class)
    }

    fn no_worse(a: u8, b: u8) -> bool {
        a <= b
    }

    fn before(a: u8, b: u8) -> bool {
        a < b
    }
}
