//! The command line: words in, and what they ask for out.
//!
//! What can be asked for stands in `subcommands.rt`, a row for each subcommand and for each of its arguments. A few
//! functions make `clap`'s commands of the rows, and `clap` reads the words by them. Its errors are the texts to show:
//! help, the version, or what is wrong with the words.
//!
//! There is one table for all programs, so that each of them shows the same help and refuses the same words.
//!
//! A subcommand more is a row of the table, a variant of `Action`, and an arm of `asked`.
#![tactic(auto)]

mod action;
mod asking;
mod building;
mod rows;
mod starting;
mod subcommands;
mod times;

pub use action::{Action, Filing};
pub use asking::{action_of, elsewhere, not_text};
pub use clap::Error;
pub use import_changes::Skeletons;
pub use starting::{Program, answer};
