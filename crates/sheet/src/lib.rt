// Reason sheets.
#![tactic(auto)]

pub mod call;
mod completes;
pub mod done;
mod enters;
pub mod error;
mod faults;
mod flags;
mod judge;
mod lists;
mod looks;
pub mod mark;
mod opens;
pub mod proposal;
mod redo;
pub mod replayed;
pub mod replays;
pub mod sheet;
mod sheets;
mod strikes;
mod tests;
