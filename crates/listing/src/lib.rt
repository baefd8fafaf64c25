//! A face listed, and refusals in words.
#![tactic(auto)]

mod face;
mod refusal;
mod summary;

pub use face::Face;
pub use refusal::RefusalText;
pub use summary::{Kinds, Summary};
