// The chart over lent place records and link records, filled from a chart file.
#![tactic(auto)]

pub mod as_chart;
mod memory;
pub mod over;
pub mod read;
mod reprice;

pub use over::LinkChart;
