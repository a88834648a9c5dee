ghost use Rattle.std.specs.Prelude.{◌≡◌, ◌&&◌, ◌==◌, Decides};
ghost use Rattle.method.specs.Candidates.{Open, open_at};

use crate::label::Label;
use gauge::Gauge;

// Whether a cost is open at a point: no label there is no worse.
pub fn is_open<G: Gauge>(labels: &[Label<G::Cost>], point: u16, cost: G::Cost) -> bool
    ensures result { result ≡ open_at G.Gauge.no_worse labels.now point cost }
    ensures means { Decides result (Open G.Gauge.no_worse labels.now point cost) }
{
    !labels.iter().any(|label| covers::<G>(label, point, cost))
}

// Whether a label stands at a point and is no worse than a cost.
fn covers<G: Gauge>(label: &Label<G::Cost>, point: u16, cost: G::Cost) -> bool
    ensures { result ≡ (label.now.point == point && G.Gauge.no_worse label.now.cost cost) }
{
    label.point == point && G::no_worse(label.cost, cost)
}
