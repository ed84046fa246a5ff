// Charts: places and priced links, as a planner may ask for them.
#![tactic(auto)]

pub mod chart;
pub mod end;
pub mod fault;
pub mod link;
pub mod links;

pub use chart::{Chart, check_link_price};
pub use end::End;
pub use fault::{Cause, ChartFault};
pub use link::Link;
pub use links::LinksAt;
