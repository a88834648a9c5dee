ghost use Rattle.std.specs.Prelude.{◌≡◌};
ghost use Rattle.method.specs.Ties.{sooner, sooner_of};

use gauge::Gauge;
use queue::Entry;

// The first entry goes before the second: by cost, then by the rule for ties, the lower from and then the lower run.
// The order of costs is the gauge's `before`, so entries have no order of their own to derive.
pub fn goes_sooner<G: Gauge>(a: &Entry<G::Cost>, b: &Entry<G::Cost>) -> bool
    ensures { result ≡ sooner G.Gauge.earlier a.now b.now }
{
    G::before(a.cost, b.cost) || (!G::before(b.cost, a.cost) && (a.from, a.run) < (b.from, b.run))
}

// The sooner of two entries, where there are two.
pub fn sooner_of<G: Gauge>(
    a: Option<Entry<G::Cost>>,
    b: Option<Entry<G::Cost>>,
) -> Option<Entry<G::Cost>>
    ensures { result ≡ sooner_of G.Gauge.earlier a b }
{
    match (a, b) {
        (Some(x), Some(y)) => Some(if goes_sooner::<G>(&y, &x) { y } else { x }),
        (x, None) => x,
        (None, y) => y,
    }
}
