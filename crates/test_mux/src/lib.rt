//! Worked examples, run through the public calls of the crates below.
//!
//! An example is data: a feed in the tables' own terms, and the result that it must have, written out by hand or made
//! by other tools. `records.rt` spells a feed's records for itself, so that a mistake of the product's own writer
//! can't hide one of its reader. Whatever succeeds here isn't refused for want of memory, which no contract can say.
#![tactic(auto)]

#[cfg(test)]
mod multiplexing;
#[cfg(test)]
mod pages;
#[cfg(test)]
mod records;
#[cfg(test)]
mod refused;
#[cfg(test)]
mod running;
#[cfg(test)]
mod taking;
