//! Why a source's request is answered with an error.
ghost use Rattle.std.specs.Prelude.{◌≡◌};
ghost use Rattle.serve_sources.specs.Answers.{refusal};

/// Why a source's request is answered with an error.
#[derive(Clone, Copy, Debug, PartialEq, Eq)]
pub enum Refused {
    /// The head is malformed or past the limits, or it doesn't say in one way where the body ends: 400.
    BadRequest,
    /// The right password isn't given: 401.
    Unauthorized,
    /// Another source is recorded: 403.
    OnTheAir,
}

impl Refused {
    /// The whole answer.
    pub fn answer(self) -> &'static [u8]
        ensures { result.now ≡ refusal self }
    {
        match self {
            Refused::BadRequest => b"HTTP/1.1 400 Bad Request\r\n\
                Content-Length: 0\r\n\
                Connection: close\r\n\r\n",
            Refused::Unauthorized => b"HTTP/1.1 401 Unauthorized\r\n\
                WWW-Authenticate: Basic realm=\"kudzuturret\"\r\n\
                Content-Length: 0\r\n\
                Connection: close\r\n\r\n",
            Refused::OnTheAir => b"HTTP/1.1 403 Forbidden\r\n\
                Content-Length: 0\r\n\
                Connection: close\r\n\r\n",
        }
    }
}
