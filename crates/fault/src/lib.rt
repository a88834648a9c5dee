// Faults: what a refused call answers. One enum for each layer, one variant for each reason, holding its place.
#![tactic(auto)]

mod file;
mod limit;
mod plan;
mod row;

pub use file::FileFault;
pub use limit::LimitFault;
pub use plan::PlanFault;
pub use row::Fault;
