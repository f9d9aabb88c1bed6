//! The result of a run.
ghost use Rattle.std.specs.Prelude.{◌≡◌, ◌+◌};

/// The result of a run over a feed: how many commands there were, how many of them were kept and how many refused, and
/// how long the file is. A command that was held and then lost counts as refused.
#[derive(Clone, Copy, Debug, PartialEq, Eq)]
pub struct Tally {
    pub commands: u64,
    pub kept: u64,
    pub refused: u64,
    pub end: u64,
    pub ghost adds_up: { kept + refused ≡ commands },
}
