//! Which bytes of its room a page reader holds, and which of them it lends.

/// The bytes of the room from `start` to `end`: those that were read and are of no page lent so far.
#[derive(Clone, Copy, Debug)]
pub(crate) struct Held {
    pub(crate) start: usize,
    pub(crate) end: usize,
}

/// Where the page lies in the room that is lent, and the offset that it has in the input.
#[derive(Clone, Copy, Debug)]
pub(crate) struct Lent {
    pub(crate) offset: u64,
    pub(crate) start: usize,
    pub(crate) end: usize,
}
