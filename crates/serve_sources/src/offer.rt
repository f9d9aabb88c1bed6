//! What comes of a source's request.
ghost use Rattle.std.specs.Prelude.{◌≡◌, ◌≤◌, ◌⊎◌, length, map, All, codes};
ghost use Rattle.std.specs.Str.{bytes_eq};
ghost use Rattle.httparse.specs.Grammar.{RequestHead};
ghost use Rattle.httparse.specs.Spans.{IsHeaderWithin, header_bytes};
ghost use Rattle.serve_sources.specs.Asking.{HasHead};
ghost use Rattle.serve_sources.specs.Credentials.{authorizes};
ghost use Rattle.serve_sources.specs.Fields.{only};
ghost use Rattle.serve_sources.specs.Offer.{IsOffer, IsUnread, LiesIn, Says, take_framed, decision_by};
ghost use Rattle.serve_sources.specs.Password.{password_bytes};

use crate::body::Body;
use crate::credentials::value_authorizes;
use crate::fields::only;
use crate::framing::framing_of;
use crate::password::Password;
use crate::refused::Refused;
use crate::reply::{Reply, reply_to};
use http1::fields::KnownFields;
use http1::framing::Framing;
use httparse::Status;
use httparse::spans::{EMPTY_HEADER_SPAN, HeaderSpan, parse_request};

/// The greatest number of bytes of a head; the empty lines before it count.
const MOST_BYTES: usize = 8192;

/// The greatest number of its fields.
const MOST_FIELDS: usize = 64;

/// What comes of the bytes of a source's request so far.
#[derive(Clone, Copy, Debug, PartialEq, Eq)]
pub enum Offer {
    /// The head isn't complete.
    More,
    /// It is answered with an error, and nothing is recorded.
    Refused(Refused),
    /// The head has `used` bytes, and its body has none: it is answered as a whole one, and nothing is recorded.
    Nothing {
        used: usize,
    },
    /// The head has `used` bytes, and the body follows. `answer` is to be written at once; it may be empty.
    Body {
        used: usize,
        body: Body,
        answer: &'static [u8],
    },
}

/// Whether the method is SOURCE; its case counts (RFC 9110, section 9.1).
fn says_source(method: &[u8]) -> bool
    ensures { result ≡ bytes_eq method.now (codes "SOURCE") }
{
    method == b"SOURCE".as_slice()
}

/// Whether the only `Authorization` field among these gives the password.
fn authorizes(front: &[u8], fields: &[HeaderSpan], password: &[u8]) -> bool
    requires short { length front.now ≤ 8192 }
    requires within { All (IsHeaderWithin (length front.now)) fields.now }
    ensures { result ≡ authorizes
        (only (codes "authorization") (map (header_bytes front.now) fields.now)) password.now }
{
    match only(front, fields, b"authorization") {
        Some(value) => value_authorizes(value, password),
        None => false,
    }
}

/// What comes of a head with this framing and the right password.
fn take_framed(used: usize, framing: Framing, reply: Reply) -> Offer
    ensures { IsOffer used (take_framed framing reply) result }
{
    match framing {
        Framing::Length(0) => Offer::Nothing { used },
        _ => Offer::Body {
            used,
            body: Body::new(framing, reply),
            answer: reply.text(),
        },
    }
}

/// What comes of a head of `used` bytes.
fn decide(
    used: usize,
    is_source: bool,
    http11: bool,
    known: &KnownFields,
    authorized: bool,
) -> Offer
    ensures { IsOffer used (decision_by is_source http11 known.now authorized) result }
{
    match framing_of(http11, known) {
        None => Offer::Refused(Refused::BadRequest),
        Some(_) if !authorized => Offer::Refused(Refused::Unauthorized),
        Some(framing) => {
            let reply = reply_to(is_source, http11, known.expect_continue);
            take_framed(used, framing, reply)
        }
    }
}

impl Offer {
    /// What comes of the bytes of a source's request that have come so far. It reads no more than the first 8,192.
    pub fn of(front: &[u8], password: &Password) -> Offer
        // A head says what comes of it.
        ensures says { (head : RequestHead) → HasHead front.now head
            → Says (password_bytes password.now) head result }
        // Whatever comes, a head has said it, or there is none.
        ensures each { ((head : RequestHead) × HasHead front.now head × Says (password_bytes password.now) head result)
            ⊎ IsUnread front.now result }
        ensures within { LiesIn (length front.now) result }
    {
        let front = &front[..front.len().min(MOST_BYTES)];
        let mut spans = [EMPTY_HEADER_SPAN; MOST_FIELDS];
        match parse_request(front, &mut spans) {
            Ok(Status::Complete(head)) => {
                let fields = &spans[..head.headers];
                let known = KnownFields::from_spans(front, fields);
                let authorized = authorizes(front, fields, password.as_slice());
                let is_source = says_source(head.method.of(front));
                decide(head.len, is_source, head.version == 1, &known, authorized)
            }
            Ok(Status::Partial) => {
                if front.len() < MOST_BYTES {
                    Offer::More
                } else {
                    Offer::Refused(Refused::BadRequest)
                }
            }
            Err(_) => Offer::Refused(Refused::BadRequest),
        }
    }
}
