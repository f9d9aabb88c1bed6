//! Worked examples of a hub, run through the public calls of the crates below: what no contract says of whole
//! requests and whole responses.
//!
//! The file is that of one stream: pages of 31, 33 and 27 bytes. A hub is passed by reference, and only a hub itself
//! takes memory here, so that the proofs of the tests stay short.
#![tactic(auto)]

#[cfg(test)]
mod connections;
#[cfg(test)]
mod fakes;
#[cfg(test)]
mod hubs;
#[cfg(test)]
mod listening;
#[cfg(test)]
mod many;
#[cfg(test)]
mod pulling;
#[cfg(test)]
mod rows;
#[cfg(test)]
mod tools;
