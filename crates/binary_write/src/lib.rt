//! Fields, arrays and slices of them written to any sink.
#![tactic(auto)]

mod arrays;
mod fields;

pub use arrays::{write_array, write_vec};
pub use fields::WriteBinary;
