// The lattice: a chart of cells in columns and rows, over lent prices.
#![tactic(auto)]

pub mod as_chart;
mod direction;
mod grid;
pub mod lattice;
pub mod laying;
pub mod layout;
mod numbers;
mod questions;
mod repricing;

pub use lattice::Lattice;
pub use layout::Layout;
