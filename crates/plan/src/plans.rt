ghost use Rattle.std.specs.Prelude.{length};
ghost use Rattle.plan.specs.Sound.{Ends, Few, Ordered};

use crate::runs::Run;

mod ask;
mod fields;
mod make;

// A checked plan over a lent run table.
#[derive(Drop)]
pub struct Plan<'a, W> {
    points: usize,
    runs: &'a [Run<W>],
    ghost few: { Few points (length runs.now) },
    ghost ends: { Ends points runs.now },
    ghost ordered: { Ordered runs.now },
}
