// The chart file: a drawn chart as bytes, read into records that the caller lends.
#![tactic(auto)]

pub mod check;
pub mod copy;
mod frame;
mod layout;
pub mod read;
pub mod records;
pub mod rules;
pub mod trailer;

pub use check::check_file;
pub use copy::copy_records;
pub use read::read_chart;
pub use records::{LinkRecord, PlaceRecord};
pub use trailer::Trailer;
