// Benches at both price kinds, over memory that holds garbage.
#![tactic(auto)]

pub mod fill;
pub mod lender;
#[cfg(test)]
mod tests;
