ghost use Rattle.std.specs.Prelude.{◌≡◌, ◌≤◌, length};
ghost use Rattle.method.specs.Tasks.{rules, task};
ghost use Rattle.method.specs.Links.{counted};
ghost use Rattle.method.specs.Ties.{sooner_of};
ghost use Rattle.method.specs.Candidates.{if_open, start_at};
ghost use Rattle.method.specs.Waiting.{Waits, from_labels, waiting};

use crate::MOST_LABELS;
use crate::along::extend;
use crate::covers::is_open;
use crate::label::Label;
use crate::rank::goes_sooner;
use gauge::Gauge;
use plan::{Plan, Run};
use queue::Entry;

// The waiting entry of a point, worked out from all labels: its soonest open candidate. Plan, gauge and labels are handed in, as in each
// call.
pub fn waiting_entry<G: Gauge>(
    plan: &Plan<G::Weight>,
    gauge: &G,
    source: usize,
    labels: &[Label<G::Cost>],
    point: u16,
) -> Option<Entry<G::Cost>>
    ensures answer { result ≡ waiting (task plan.now source (rules G.Gauge gauge.now)) (counted labels.now) point }
    ensures waits { Waits (task plan.now source (rules G.Gauge gauge.now)) (counted labels.now) point result }
{
    let numbered = Numbered::new(gauge, labels);
    let start = numbered.open_start(source, point);
    (0u16..)
        .zip(plan.runs())
        .filter(|(_, run)| run.head == point)
        .fold(start, |best, (number, run)| {
            numbered.sooner_along(best, number, run)
        })
}

// The labels that have a number, under a gauge.
#[derive(Drop)]
struct Numbered<'a, G: Gauge> {
    gauge: &'a G,
    labels: &'a [Label<G::Cost>],
    ghost few: { length labels.now ≤ 4096 },
}

impl<'a, G: Gauge> Numbered<'a, G> {
    // What stands past the most labels is left out.
    fn new(gauge: &'a G, labels: &'a [Label<G::Cost>]) -> Numbered<'a, G>
        ensures gauge { result.gauge.now ≡ gauge.now }
        ensures labels { result.labels.now ≡ counted labels.now }
    {
        Numbered {
            gauge,
            labels: &labels[..MOST_LABELS.min(labels.len())],
        }
    }

    // The start cost, if the point is the source and no label there is no worse.
    fn open_start(&self, source: usize, point: u16) -> Option<Entry<G::Cost>>
        ensures { result ≡ if_open G.Gauge.no_worse self.now.labels.now point (start_at G.Gauge.origin source point) }
    {
        let cost = G::start();
        let opens = usize::from(point) == source && is_open::<G>(self.labels, point, cost);
        opens.then_some(Entry {
            cost,
            from: None,
            run: None,
        })
    }

    // The best so far, or the soonest open candidate of all labels along a run, where that is sooner. The run's number stands beside it, as
    // a chain hands the two out.
    fn sooner_along(
        &self,
        best: Option<Entry<G::Cost>>,
        number: u16,
        run: &Run<G::Weight>,
    ) -> Option<Entry<G::Cost>>
        ensures { result ≡ sooner_of G.Gauge.earlier best (from_labels (rules G.Gauge self.now.gauge.now) self.now.labels.now number run.now 0 self.now.labels.now) }
    {
        (0u16..)
            .zip(self.labels)
            .filter_map(|(from, label)| extend(self.gauge, label, from, number, run))
            .fold(best, |best, entry| self.sooner_open(best, entry, run.head))
    }

    // The best so far, or an entry at a point, where that is sooner and open.
    fn sooner_open(
        &self,
        best: Option<Entry<G::Cost>>,
        entry: Entry<G::Cost>,
        point: u16,
    ) -> Option<Entry<G::Cost>>
        ensures { result ≡ sooner_of G.Gauge.earlier best (if_open G.Gauge.no_worse self.now.labels.now point (Some entry)) }
    {
        let sooner = best.is_none_or(|held| goes_sooner::<G>(&entry, &held));
        if sooner && is_open::<G>(self.labels, point, entry.cost) {
            Some(entry)
        } else {
            best
        }
    }
}
