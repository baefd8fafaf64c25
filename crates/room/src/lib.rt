//! Lists of chosen lengths.
#![tactic(auto)]

mod room;
mod zero;

pub use room::Room;
