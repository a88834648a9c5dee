// Gauges: how the cost of a route starts, grows along a run, and compares with another.
#![tactic(auto)]

pub mod house;
pub mod pair;
pub mod set;
pub mod sum;
pub mod worst;

ghost use Rattle.std.specs.Prelude.{◌≡◌, Bool, Option};
ghost use Rattle.gauge.specs.Laws.{Carries, Compares};

// A gauge at its limits. Only going along depends on the limits; the rest depends on its arguments alone.
pub trait Gauge {
    type Cost: Copy;

    type Weight: Copy;

    // The start cost.
    ghost origin: { Self.Cost };

    // The cost after a run of that weight, or none if a limit would be passed.
    ghost reach: { Self → Self.Cost → Self.Weight → Option Self.Cost };

    // The first cost is no worse than the second.
    ghost no_worse: { Self.Cost → Self.Cost → Bool };

    // The first cost comes before the second in listing order.
    ghost earlier: { Self.Cost → Self.Cost → Bool };

    fn start() -> Self::Cost
        ensures { result ≡ origin };

    fn along(&self, cost: Self::Cost, weight: Self::Weight) -> Option<Self::Cost>
        ensures { result ≡ reach self.now cost weight };

    fn no_worse(a: Self::Cost, b: Self::Cost) -> bool
        ensures { result ≡ no_worse a b };

    // A function of the gauge, as the other three are: an Ord of its costs would be asked of each gauge besides.
    fn before(a: Self::Cost, b: Self::Cost) -> bool
        ensures { result ≡ earlier a b };

    // The first three laws: how costs compare.
    ghost compares: { Compares Self.Cost no_worse earlier };

    // The fourth and the fifth law: how costs go along runs, at any limits.
    ghost carries: { (g : Self) → Carries Self.Cost Self.Weight no_worse (reach g) };
}
