// The label-setting method: which entry waits at each point, and which label is listed next.
#![tactic(auto)]

mod along;
mod covers;
mod label;
mod rank;
mod wait;

pub use along::open_candidate;
pub use covers::is_open;
pub use label::Label;
pub use rank::{goes_sooner, sooner_of};
pub use wait::waiting_entry;

// The most labels that a list has. What stands past them is not read.
pub const MOST_LABELS: usize = 4096;
