//! What is answered to a source before its body.
ghost use Rattle.std.specs.Prelude.{◌≡◌};
ghost use Rattle.serve_sources.specs.Reply.{is_final, reply_text, reply_to};

/// What is answered to a source before its body.
#[derive(Clone, Copy, Debug, PartialEq, Eq)]
pub enum Reply {
    /// It may send its body, for which it waits.
    GoOn,
    /// The answer that a client which says `SOURCE` in HTTP/1.0 waits for. It has no other. A client that says it in
    /// HTTP/1.1 reads none; and if an answer is left unread when it closes, its system drops what it sent last.
    Accepted,
    /// Nothing.
    Silent,
}

/// What is answered to a source that says `SOURCE` or not, and expects `100-continue` or not.
pub fn reply_to(is_source: bool, http11: bool, expects: bool) -> Reply
    ensures { result ≡ reply_to is_source http11 expects }
{
    if http11 {
        if expects { Reply::GoOn } else { Reply::Silent }
    } else if is_source {
        Reply::Accepted
    } else {
        Reply::Silent
    }
}

impl Reply {
    pub fn text(self) -> &'static [u8]
        ensures { result.now ≡ reply_text self }
    {
        match self {
            Reply::GoOn => b"HTTP/1.1 100 Continue\r\n\r\n",
            Reply::Accepted => b"HTTP/1.0 200 OK\r\n\r\n",
            Reply::Silent => b"",
        }
    }

    /// Whether no other answer follows.
    pub fn is_final(self) -> bool
        ensures { result ≡ is_final self }
    {
        self == Reply::Accepted
    }
}
