ghost use Rattle.std.specs.Prelude.{◌≡◌, ◌&&◌, Decides};
ghost use Rattle.gauge.specs.Pairs.{Ahead, both, lexical, three_parts};
ghost use Rattle.gauge.specs.LawProofs.Pairing.{compares_pairs, carries_pairs};

use crate::Gauge;

// Two things as one: two gauges, and under them a cost for each or a weight for each.
#[derive(Clone, Copy, Debug, Default, PartialEq, Eq)]
pub struct Pair<A, B> {
    pub first: A,
    pub second: B,
}

// Three parts as a pair of the first and the pair of the others.
pub(crate) fn three<A, B, C>(a: A, b: B, c: C) -> Pair<A, Pair<B, C>>
    ensures { result ≡ three_parts a b c }
{
    Pair {
        first: a,
        second: Pair {
            first: b,
            second: c,
        },
    }
}

impl<A: Gauge, B: Gauge> Gauge for Pair<A, B> {
    type Cost = Pair<A::Cost, B::Cost>;

    type Weight = Pair<A::Weight, B::Weight>;

    ghost origin = { record { first = A.Gauge.origin; second = B.Gauge.origin } };

    ghost reach = { λ g c w. both (A.Gauge.reach g.first c.first w.first) (B.Gauge.reach g.second c.second w.second) };

    ghost no_worse = { λ a b. A.Gauge.no_worse a.first b.first && B.Gauge.no_worse a.second b.second };

    ghost earlier = { λ a b. lexical (A.Gauge.earlier a.first b.first) (A.Gauge.earlier b.first a.first) (B.Gauge.earlier a.second b.second) };

    ghost compares = { compares_pairs _ _ _ _ A.Gauge.compares B.Gauge.compares };

    ghost carries = { λ p. carries_pairs _ _ _ _ (A.Gauge.carries p.first) (B.Gauge.carries p.second) };

    fn start() -> Pair<A::Cost, B::Cost> {
        Pair {
            first: A::start(),
            second: B::start(),
        }
    }

    fn along(
        &self,
        cost: Pair<A::Cost, B::Cost>,
        weight: Pair<A::Weight, B::Weight>,
    ) -> Option<Pair<A::Cost, B::Cost>> {
        let first = self.first.along(cost.first, weight.first)?;
        let second = self.second.along(cost.second, weight.second)?;
        Some(Pair { first, second })
    }

    fn no_worse(a: Pair<A::Cost, B::Cost>, b: Pair<A::Cost, B::Cost>) -> bool {
        A::no_worse(a.first, b.first) && B::no_worse(a.second, b.second)
    }

    fn before(a: Pair<A::Cost, B::Cost>, b: Pair<A::Cost, B::Cost>) -> bool
        ensures result { result ≡ lexical (A.Gauge.earlier a.first b.first) (A.Gauge.earlier b.first a.first) (B.Gauge.earlier a.second b.second) }
        ensures order { Decides result (Ahead A.Gauge.earlier B.Gauge.earlier a b) }
    {
        // The parts' orders are functions of their gauges, so a pair's is made of them and not derived.
        A::before(a.first, b.first) || !A::before(b.first, a.first) && B::before(a.second, b.second)
    }
}
