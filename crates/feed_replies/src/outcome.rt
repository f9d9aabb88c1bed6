//! What becomes of a command that isn't refused.
use crate::reply::Kept;

/// What became of a command that wasn't refused.
#[derive(Clone, Copy, Debug, PartialEq, Eq)]
pub enum Outcome {
    /// It waits for the commit of its group. The number counts the commands accepted since the file was opened.
    Held(u64),
    /// It is kept, and so is all that waited.
    Kept(Kept),
}
