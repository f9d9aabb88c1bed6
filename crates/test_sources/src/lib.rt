//! Worked examples of source clients: the heads of encoders that are in use, heads that must be refused, and bodies that
//! come in pieces.
//!
//! The heads are those that the programs send, without fields that say nothing here. The password is `hackme`.
#![tactic(auto)]

#[cfg(test)]
mod asking;
#[cfg(test)]
mod bodies;
#[cfg(test)]
mod heads;
#[cfg(test)]
mod hostile;
#[cfg(test)]
mod passwords;
