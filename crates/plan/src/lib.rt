// Plans of ducts and drives: points, and runs that lead from one to another.
#![tactic(auto)]

mod plans;
mod runs;

pub use plans::Plan;
pub use runs::Run;

// The most points and runs that a plan has.
pub const MOST_POINTS: usize = 256;

pub const MOST_RUNS: usize = 1024;
