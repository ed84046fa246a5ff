// The planner: tickets, stages and turns, over any chart and any kind of price.
#![tactic(auto)]

mod calls;
mod checks;
mod fault;
mod parts;
mod plan;
mod planner;

pub use fault::Fault;
pub use parts::{Firm, Loose, Refused, Repaired, Stage, Ticket};
pub use planner::Planner;
