// A plan file as text, point by point, or the refusal that it meets.
#![tactic(auto)]

mod cause;
mod lines;
mod listed;
mod report;

pub use report::list_plan;
