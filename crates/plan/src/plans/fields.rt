ghost use Rattle.std.specs.Prelude.{◌≡◌};

use crate::plans::Plan;
use crate::runs::Run;

impl<'a, W> Plan<'a, W> {
    // The number of points.
    pub fn points(&self) -> usize
        ensures { result ≡ self.now.points }
    {
        self.points
    }

    // The run table.
    pub fn runs(&self) -> &'a [Run<W>]
        ensures { result.now ≡ self.now.runs.now }
    {
        self.runs
    }
}
