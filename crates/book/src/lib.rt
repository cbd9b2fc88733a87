// Rule books: what a book is, and two kinds of them.
#![tactic(auto)]

pub mod book;
pub mod error;
pub mod facts;
mod faults;
pub mod joined;
pub mod kind;
mod place;
