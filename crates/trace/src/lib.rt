// The trace: the route by standings, from the goal back to the start, over any chart and any kind of price.
#![tactic(auto)]

mod step_back;
mod tracing;
mod trail;

pub use tracing::{Untraced, trace};
