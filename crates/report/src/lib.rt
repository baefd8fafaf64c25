//! What `unwoff2` says of a transformed glyf table.
#![tactic(auto)]

mod report;
mod text;

pub use report::Report;
