//! The byte layer at its limits: nothing to read, one byte short, exactly full, one over.
#![tactic(auto)]

#[cfg(test)]
mod bits;
#[cfg(test)]
mod fields;
#[cfg(test)]
mod packed;
#[cfg(test)]
mod sinks;
