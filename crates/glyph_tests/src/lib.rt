//! Tests of the parts that unpack is made of, at their limits.
#![tactic(auto)]

#[cfg(test)]
mod boxes;
#[cfg(test)]
mod laying;
#[cfg(test)]
mod refusals;
#[cfg(test)]
mod rooms;
