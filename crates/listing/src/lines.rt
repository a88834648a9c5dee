// The lines of a listing.
ghost use Rattle.std.specs.Prelude.{◌+◌, ◌^◌, ◌<◌, ◌++◌, length, Some};
ghost use Rattle.planfile.specs.Kinds.{word_of};
ghost use Rattle.listing.specs.Lines.{plan_text, point_line, refused_text, run_text, runs_text};

use crate::listed::Listed;
use fault::Fault;
use plan::{Plan, Run};
use planfile::Kind;
use std::fmt;

// A refusal, numbered with the line that it is about.
#[derive(Drop)]
pub(crate) struct Refusal {
    pub(crate) line: usize,
    pub(crate) fault: Fault,
}

impl fmt::Display for Refusal {
    ghost output = { λ refusal. Some (refused_text refusal.line refusal.fault) };

    fn fmt<W: fmt::Write>(&self, f: &mut fmt::Formatter<W>) -> fmt::Result {
        write!(f, "refused {} {}\n", self.line, self.fault)
    }
}

// A plan, then its points in order.
#[derive(Drop)]
pub(crate) struct Listing<'a, 'b, K: Listed> {
    pub(crate) plan: &'a Plan<'b, K::Weight>,
}

impl<'a, 'b, K: Listed> fmt::Display for Listing<'a, 'b, K> {
    ghost output = { λ listing. Some (plan_text K.Kind.numbers (word_of K.Listed.kind) listing.plan.now.points listing.plan.now.runs.now) };

    fn fmt<W: fmt::Write>(&self, f: &mut fmt::Formatter<W>) -> fmt::Result {
        let kind = K::kind();
        let points = self.plan.points();
        write!(f, "plan {kind} {points} {}\n", self.plan.runs().len())?;
        for point in 0..points {
            let runs = self.plan.leaving(point).unwrap();
            let first = self.plan.first_from(point);
            write!(f, "{}", PointLines::<K> { point, first, runs })?;
        }
        Ok(())
    }
}

// A point, then the runs that leave it, the first of them with its number.
#[derive(Drop)]
struct PointLines<'a, K: Kind> {
    point: usize,
    first: usize,
    runs: &'a [Run<K::Weight>],
    ghost numbered: { first + length runs.now < 2 ^ 64 },
}

impl<'a, K: Kind> fmt::Display for PointLines<'a, K> {
    ghost output = { λ lines. Some (point_line lines.point (length lines.runs.now) ++ runs_text K.Kind.numbers lines.first lines.runs.now) };

    fn fmt<W: fmt::Write>(&self, f: &mut fmt::Formatter<W>) -> fmt::Result {
        write!(f, "point {} {}\n", self.point, self.runs.len())?;
        for (i, run) in self.runs.iter().enumerate() {
            let number = self.first + i;
            write!(f, "{}", RunLine::<K> { number, run })?;
        }
        Ok(())
    }
}

// A run: its number, its head and the three numbers of its weight.
#[derive(Drop)]
struct RunLine<'a, K: Kind> {
    number: usize,
    run: &'a Run<K::Weight>,
}

impl<'a, K: Kind> fmt::Display for RunLine<'a, K> {
    ghost output = { λ line. Some (run_text K.Kind.numbers line.number line.run.now) };

    fn fmt<W: fmt::Write>(&self, f: &mut fmt::Formatter<W>) -> fmt::Result {
        let [a, b, c] = K::numbers(self.run.weight);
        write!(f, "{} {} {a} {b} {c}\n", self.number, self.run.head)
    }
}
