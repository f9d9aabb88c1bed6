//! What the calls of a session answer.

/// How far the head of a session's request has come.
#[derive(Clone, Copy, Debug, PartialEq, Eq)]
pub enum Progress {
    /// More of the head has to come.
    More,
    /// The head is complete, and the response is fixed.
    Ready,
}

/// What a pull gave.
#[derive(Clone, Copy, Debug, PartialEq, Eq)]
pub struct Pulled {
    /// How many bytes at the front of the buffer are the response's next ones.
    pub count: usize,
    /// Whether nothing of the response is left.
    pub done: bool,
}
