ghost use Rattle.std.specs.Prelude.{◌≡◌};
ghost use Rattle.std.specs.List.{slice_get};
ghost use Rattle.method.specs.Candidates.{extended, open_candidate};

use crate::covers::is_open;
use crate::label::Label;
use gauge::Gauge;
use plan::Run;
use queue::Entry;

// The open candidate of a label along a run, both by number, at the run's head: none if there is no such label, the run does not leave
// its point, a limit would be passed, or a label at the head is no worse. Gauge and labels are the caller's, as in each call.
pub fn open_candidate<G: Gauge>(
    gauge: &G,
    labels: &[Label<G::Cost>],
    from: u16,
    number: u16,
    run: &Run<G::Weight>,
) -> Option<Entry<G::Cost>>
    ensures { result ≡ open_candidate G.Gauge.no_worse (G.Gauge.reach gauge.now) labels.now from number run.now (slice_get labels.now from) }
{
    let label = labels.get(usize::from(from))?;
    let entry = extend(gauge, label, from, number, run)?;
    is_open::<G>(labels, run.head, entry.cost).then_some(entry)
}

// A label gone along a run, if that leaves its point and no limit is passed, with both numbers as links.
// Each number stands beside its label or run, as a chain hands the two out: a struct of both would only be made and taken apart.
pub(crate) fn extend<G: Gauge>(
    gauge: &G,
    label: &Label<G::Cost>,
    from: u16,
    number: u16,
    run: &Run<G::Weight>,
) -> Option<Entry<G::Cost>>
    ensures { result ≡ extended (G.Gauge.reach gauge.now) from label.now number run.now }
{
    if label.point != run.tail {
        return None;
    }
    let cost = gauge.along(label.cost, run.weight)?;
    Some(Entry {
        cost,
        from: Some(from),
        run: Some(number),
    })
}
