ghost use Rattle.std.specs.Prelude.{◌≡◌, ◌+◌, nat_le, nat_lt};
ghost use Rattle.gauge.specs.Costs.{within};
ghost use Rattle.gauge.specs.Limits.{sum_at, widest_sum};
ghost use Rattle.gauge.specs.LawProofs.Numbers.{compares_totals, carries_sums};

use crate::Gauge;

// Adds the weights up to a limit: decimetres, drillings, crossings.
#[derive(Clone, Copy)]
pub struct Sum {
    limit: u32,
}

impl Sum {
    // The widest limit. The number above it marks an unmeasured weight.
    const WIDEST: u32 = u32::MAX - 1;

    // A sum up to the limit, or none if the limit is out of range.
    pub fn new(limit: u32) -> Option<Sum>
        ensures { result ≡ sum_at limit }
    {
        (limit <= Self::WIDEST).then_some(Sum { limit })
    }

    // A sum up to the widest limit.
    pub fn widest() -> Sum
        ensures { result ≡ widest_sum }
    {
        Sum {
            limit: Self::WIDEST,
        }
    }
}

impl Gauge for Sum {
    type Cost = u32;

    type Weight = u32;

    ghost origin = { 0 };

    ghost reach = { λ g c w. within g.limit (c + w) };

    ghost no_worse = { nat_le };

    ghost earlier = { nat_lt };

    ghost compares = { compares_totals };

    ghost carries = { λ g. carries_sums g.limit };

    fn start() -> u32 {
        0
    }

    fn along(&self, cost: u32, weight: u32) -> Option<u32> {
        // Read first: only then is it known to be below the numbers that do not fit.
        let limit = self.limit;
        let total = cost.checked_add(weight)?;
        (total <= limit).then_some(total)
    }

    fn no_worse(a: u32, b: u32) -> bool {
        a <= b
    }

    fn before(a: u32, b: u32) -> bool {
        a < b
    }
}
