// Program texts, read.
#![tactic(auto)]

pub mod cursor;
mod digits;
mod fields;
mod fills;
mod lines;
pub mod lists;
mod names;
pub mod pieces;
mod puts;
pub mod reading;
mod rows;
pub mod statement;
mod statements;
mod survey;
mod values;
