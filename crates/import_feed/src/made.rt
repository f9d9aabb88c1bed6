//! What a feed was made of.

/// What a feed was made of.
#[derive(Clone, Copy, Debug, PartialEq, Eq)]
pub struct Made {
    /// The pages that were taken.
    pub pages: u64,
    /// The commands that were written. The count doesn't go above the greatest `u64`.
    pub commands: u64,
}
