//! What became of a source's body.
ghost use Rattle.std.specs.Prelude.{◌≡◌};
ghost use Rattle.serve_sources.specs.Answers.{answer_after};

/// What became of a source's body by its end.
#[derive(Clone, Copy, Debug, PartialEq, Eq)]
pub enum Outcome {
    /// All of it was taken: 200.
    Whole,
    /// It is malformed, or breaks off before its end: 400. What came before that was taken.
    Broken,
    /// Something of it couldn't be taken: 500.
    Lost,
    /// It isn't Ogg: 415. Nothing of it was taken.
    Foreign,
}

impl Outcome {
    /// The whole answer.
    pub fn answer(self) -> &'static [u8]
        ensures { result.now ≡ answer_after self }
    {
        match self {
            Outcome::Whole => b"HTTP/1.1 200 OK\r\n\
                Content-Length: 0\r\n\
                Connection: close\r\n\r\n",
            Outcome::Broken => b"HTTP/1.1 400 Bad Request\r\n\
                Content-Length: 0\r\n\
                Connection: close\r\n\r\n",
            Outcome::Lost => b"HTTP/1.1 500 Internal Server Error\r\n\
                Content-Length: 0\r\n\
                Connection: close\r\n\r\n",
            Outcome::Foreign => b"HTTP/1.1 415 Unsupported Media Type\r\n\
                Content-Length: 0\r\n\
                Connection: close\r\n\r\n",
        }
    }
}
