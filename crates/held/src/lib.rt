//! Whether lists hold glyphs.
#![tactic(auto)]

mod components;
mod edges;
mod metrics;
mod outline;
mod records;

pub use edges::left_edge;
pub use metrics::metrics_lie;
pub use records::lists_hold;
