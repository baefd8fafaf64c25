//! A transformed glyf table becomes glyphs in the caller's lists.
#![tactic(auto)]

mod glyphs;
mod instructions;
mod outline;
mod parts;
mod run;
mod shapes;
mod slots;
mod sound;
mod streams;
mod table;
mod taken;

pub use table::read_table;
