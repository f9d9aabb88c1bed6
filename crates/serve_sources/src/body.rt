//! The body of a source's request, without its framing.
ghost use Rattle.std.specs.Prelude.{◌≡◌, ◌&&◌, not, length, IfErr, IfOk, OnErr};
ghost use Rattle.http1.specs.Decoder.{HasNoBody};
ghost use Rattle.serve_sources.specs.Body.{Finds, HasFault, LiesWithin, body_for, fault_of, is_marked, limits, most_trailers};

use crate::reply::Reply;
use http1::decode::{Decoded, Decoder};
use http1::framing::Framing;
use http1::{Limits, ReadError};
use httparse::spans::EMPTY_HEADER_SPAN;
use thiserror::Error;

/// The greatest number of trailer fields.
const MOST_TRAILERS: usize = 16;

/// The limits of a body's chunk extensions and of its trailer section.
const LIMITS: Limits = Limits {
    max_head_len: 8192,
    max_extensions_len: 8192,
    max_trailers_len: 8192,
};

/// Why a body has no end that can be found. Only a chunked body has such a fault.
#[derive(Clone, Copy, Debug, PartialEq, Eq, Error)]
pub enum BodyFault {
    /// A chunk's size or its end is malformed, or the chunk extensions are past the limit.
    #[error("a chunk is malformed")]
    Chunk,
    /// The trailer section is malformed or past the limits.
    #[error("the trailer section is malformed")]
    Trailers,
}

/// What the next bytes of a body hold.
#[derive(Clone, Copy, Debug, PartialEq, Eq)]
pub enum Piece {
    /// `bytes[start..end]` are the next bytes of the stream, and `end` bytes are used up.
    Data { start: usize, end: usize },
    /// The first `used` bytes are used up, and more must come.
    More { used: usize },
    /// The body ends after `used` bytes.
    End { used: usize },
}

/// The body of a source's request, of which some bytes have been taken. After a fault nothing more can be taken of it.
#[derive(Clone, Copy, Debug, PartialEq, Eq)]
pub struct Body {
    decoder: Decoder,
    framed: bool,
    answered: bool,
}

fn is_marked(framing: Framing) -> bool
    ensures { result ≡ is_marked framing }
{
    framing != Framing::UntilClose
}

fn fault_of(error: ReadError) -> BodyFault
    ensures { result ≡ fault_of error }
{
    match error {
        ReadError::Chunk(_) => BodyFault::Chunk,
        _ => BodyFault::Trailers,
    }
}

impl Body {
    pub(crate) fn new(framing: Framing, reply: Reply) -> Body
        ensures { result ≡ body_for framing reply }
    {
        Body {
            decoder: Decoder::new(framing, &LIMITS),
            framed: is_marked(framing),
            answered: reply.is_final(),
        }
    }

    /// Takes the framing off the next bytes. The bytes that are used up must not be passed again.
    pub fn next(&mut self, bytes: &[u8]) -> Result<Piece, BodyFault>
        ensures ok { IfOk result (Finds self.old bytes.now self.new) }
        ensures within { IfOk result (LiesWithin (length bytes.now)) }
        // If there is a fault, nothing that follows ends this body.
        ensures err { OnErr result (HasNoBody self.old.decoder bytes.now most_trailers) }
        ensures cause { IfErr result (HasFault self.old.decoder bytes.now) }
        ensures framed { self.new.framed ≡ self.old.framed }
        ensures answered { self.new.answered ≡ self.old.answered }
    {
        let mut trailers = [EMPTY_HEADER_SPAN; MOST_TRAILERS];
        match self.decoder.decode(bytes, &mut trailers) {
            Ok(Decoded::Data(span)) => Ok(Piece::Data {
                start: span.start,
                end: span.end,
            }),
            Ok(Decoded::NeedMore(used)) => Ok(Piece::More { used }),
            Ok(Decoded::End { len, .. }) => Ok(Piece::End { used: len }),
            Err(error) => Err(fault_of(error)),
        }
    }

    /// Whether its end is marked, by a length or by the last chunk. If not, it ends with the connection.
    pub fn is_framed(&self) -> bool
        ensures { result ≡ self.now.framed }
    {
        self.framed
    }

    /// Whether the answer before the body was the last one.
    pub fn is_answered(&self) -> bool
        ensures { result ≡ self.now.answered }
    {
        self.answered
    }

    /// Whether the source waits for an answer at the end of its body: the end is marked, and the answer before the body
    /// wasn't the last one.
    pub fn awaits_answer(&self) -> bool
        ensures { result ≡ (self.now.framed && not self.now.answered) }
    {
        self.framed && !self.answered
    }
}
