// Program texts in the format aspif 1.0.0.
#![tactic(auto)]

pub mod error;
pub mod faults;
mod integers;
mod puts;
mod rules;
pub mod writer;
