ghost use Rattle.std.specs.Prelude.{◌≡◌, is_ok, IfOk, Decides};
ghost use Rattle.plan.specs.Leave.{parts};
ghost use Rattle.plan.specs.Make.{runs_answer, check_answer, plan_answer, told};
ghost use Rattle.plan.specs.Sound.{Sound};

use crate::plans::Plan;
use crate::runs::Run;
use crate::{MOST_POINTS, MOST_RUNS};
use fault::PlanFault;

impl<'a, W> Plan<'a, W> {
    // A plan of so many points over a run table, or the first reason why it is none.
    #[tactic(auto, using(crate::proofs::Checks::check_sound, crate::proofs::Checks::sound_check, crate::proofs::Tails::parts_whole), unfolding(crate::specs::Make::plan_answer))]
    pub fn new(points: usize, runs: &'a [Run<W>]) -> Result<Plan<'a, W>, PlanFault>
        ensures answer { told result ≡ plan_answer points runs.now }
        ensures sound { Decides (is_ok result) (Sound points runs.now) }
        ensures parts { IfOk result (λ plan. parts plan.points plan.runs.now ≡ plan.runs.now) }
    {
        check(points, runs)?;
        Ok(Plan { points, runs })
    }
}

// The counts, then the runs.
fn check<W>(points: usize, runs: &[Run<W>]) -> Result<(), PlanFault>
    ensures { result ≡ check_answer points runs.now }
{
    if !(1..=MOST_POINTS).contains(&points) {
        return Err(PlanFault::Points(points));
    }
    if runs.len() > MOST_RUNS {
        return Err(PlanFault::Runs(runs.len()));
    }
    check_runs(points, runs)
}

// Run by run, ends before order. A `for` that carries the last tail: a `try_fold` would say the same in more words.
fn check_runs<W>(points: usize, runs: &[Run<W>]) -> Result<(), PlanFault>
    ensures { result ≡ runs_answer points 0 0 runs.now }
{
    let mut last = 0;
    for (k, run) in runs.iter().enumerate() {
        if usize::from(run.tail) >= points || usize::from(run.head) >= points {
            return Err(PlanFault::End(k));
        }
        if run.tail < last {
            return Err(PlanFault::Order(k));
        }
        last = run.tail;
    }
    Ok(())
}
