//! Worked examples of the format half, run through the public calls of the crates below: what no clause says of pages,
//! packets, Skeletons, feeds, indexes, copies and the heads of requests and responses.
//!
//! An example is bytes, written out by hand or from a standard, and what they must be read as. Tests compare with
//! `assert!(rt; a == b)`, whose proof takes a fifth of the time of `assert_eq!`'s.
#![tactic(auto)]

#[cfg(test)]
mod codecs;
#[cfg(test)]
mod faults;
#[cfg(test)]
mod feeds;
#[cfg(test)]
mod files;
#[cfg(test)]
mod indexes;
#[cfg(test)]
mod packets;
#[cfg(test)]
mod pages;
#[cfg(test)]
mod responding;
#[cfg(test)]
mod running;
#[cfg(test)]
mod skeletons;
#[cfg(test)]
mod splitting;
