ghost use Rattle.std.specs.Prelude.{◌≡◌, ◌≤◌, length, IfOk};
ghost use Rattle.plan.specs.Leave.{first_from, leaving_answer, part, Leave};
ghost use Rattle.plan.specs.Sound.{Ordered};

use crate::plans::Plan;
use crate::runs::Run;
use fault::PlanFault;

impl<'a, W> Plan<'a, W> {
    // The number of the first run whose tail is not below the point, or the number of runs.
    pub fn first_from(&self, point: usize) -> usize
        ensures { result ≡ first_from point self.now.runs.now }
    {
        first_not_below(self.runs, point)
    }

    // The runs that leave a point, as one part of the run table, which begins at first_from(point).
    #[tactic(auto, using(crate::proofs::Tails::part_within, crate::proofs::Tails::leaves))]
    pub fn leaving(&self, point: usize) -> Result<&'a [Run<W>], PlanFault>
        ensures answer { part result ≡ leaving_answer self.now.points self.now.runs.now point }
        ensures leave { IfOk (part result) (λ runs. Leave self.now.runs.now point (first_from point self.now.runs.now) (length runs)) }
    {
        if point >= self.points {
            return Err(PlanFault::Point(point));
        }
        let first = self.first_from(point);
        let end = first_not_below_from(self.runs, first, point + 1);
        Ok(&self.runs[first..end])
    }
}

// The first run whose tail is not below the point, by halving. A function of its own, so that its proof stands apart.
fn first_not_below<W>(runs: &[Run<W>], point: usize) -> usize
    requires { Ordered runs.now }
    ensures { result ≡ first_from point runs.now }
{
    runs.partition_point(|run| usize::from(run.tail) < point)
}

// The same run, where it is known to stand no earlier than a place: the rest is searched alone, as a library's search of a few runs asks
// more often than it has to.
#[tactic(auto, using(crate::proofs::Tails::first_within, crate::proofs::Tails::first_on))]
fn first_not_below_from<W>(runs: &[Run<W>], from: usize, point: usize) -> usize
    requires ordered { Ordered runs.now }
    requires later { from ≤ first_from point runs.now }
    ensures { result ≡ first_from point runs.now }
{
    from + first_not_below(&runs[from..], point)
}
