// Layers over a chart. Each holds the chart below it and is a chart itself, one higher. What a layer only hands on stands in
// each: a trait of layers with one impl of `Chart` for all would need as many members, and hide what each layer means.
#![tactic(auto)]

pub mod back;
pub mod guard;

pub use back::Return;
pub use guard::Guard;
