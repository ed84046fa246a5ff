// The bench: what a planner keeps of each place, and a queue of some of the places, in one lent slice.
#![tactic(auto)]

mod bench;
mod changes;
mod heap;
mod key;
mod members;
mod questions;
mod record;
mod writes;

pub use bench::{Bench, MOST_PLACES};
pub use key::Key;
pub use record::Record;
