// The fault of every layer in one type, and what is made of all layers together.
#![tactic(auto)]

pub mod composing;
pub mod fault;
pub mod faults;
pub mod rewriting;
pub mod telling;
