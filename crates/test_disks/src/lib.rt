//! Worked examples of the disk half, run through the public calls of the crates below. They show what no contract
//! says of a disk, of a file that grows by whole appends, of a recorder on one, and of a feed that is recorded.
//!
//! An example is a row: what stands on a disk in memory, what is called, after which call the disk stops or which one
//! fails, and what is then found, written out by hand. Tests compare with `assert!(rt; a == b)`, whose proof takes a
//! fifth of the time of `assert_eq!`'s.
#![tactic(auto)]

#[cfg(test)]
mod disks;
#[cfg(test)]
mod fused;
#[cfg(test)]
mod gates;
#[cfg(test)]
mod recorders;
#[cfg(test)]
mod recording;
#[cfg(test)]
mod refused;
