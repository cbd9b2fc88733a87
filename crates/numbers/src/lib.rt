// Rule books over lists of numbers.
#![tactic(auto)]

mod checks;
pub mod lists;
pub mod numbers;
mod rule;
