// Prices of links and routes: what a price is, and the two kinds that charts use.
#![tactic(auto)]

pub mod kind;
pub mod lift;
pub mod number;
pub mod time;

pub use kind::PriceKind;
pub use lift::Lift;
pub use number::Number;
pub use time::Time;
