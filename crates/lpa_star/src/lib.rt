// Lifelong Planning A*: what a planner does to its bench, over any chart and any kind of price. The functions follow the
// published figure: look ahead, update a place, expand it, repair.
#![tactic(auto)]

mod beginning;
mod look;
mod repairing;
mod repricing;
mod step;

pub use beginning::begin;
pub use look::standing_of;
pub use repairing::{Unsettled, repair};
pub use repricing::reprice;
