// What every layer uses: parts of lists, lists of a caller's that are filled, and the shape of a refusal.
#![tactic(auto)]

pub mod bytes;
pub mod parts;
pub mod pen;
pub mod printed;
pub mod refusal;
pub mod short;
pub mod sink;
pub mod tally;
