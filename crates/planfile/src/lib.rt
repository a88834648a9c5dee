// Plan files: the bytes of a plan, read into a lent run table.
#![tactic(auto)]

mod body;
mod kinds;
mod numbers;
mod plan_kind;
mod reader;

pub use kinds::{Kind, WeightFault};
pub use plan_kind::{PlanKind, UnknownKind};
pub use reader::{Header, is_drive, read};
