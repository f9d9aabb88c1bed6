//! The head of a request.
ghost use Rattle.std.specs.Prelude.{◌≡◌, ◌≤◌, ◌<◌, ℕ, List, length};
ghost use Rattle.httparse.specs.Grammar.{RequestHead, ReadsRequest};
ghost use Rattle.ogg_http.specs.Head.{HoldsRequest, IfWhole, IsWholeAnd, IsAwaited, IsHopeless, head_bytes, most_bytes, most_fields, verb_of};

use crate::fields::{count_of, range_in};
use httparse::Status;
use httparse::spans::{EMPTY_HEADER_SPAN, parse_request};

/// The greatest number of bytes of a head; the empty lines before it count.
const MOST_BYTES: usize = 8192;

/// The greatest number of its fields.
const MOST_FIELDS: usize = 64;

/// What a request wants done.
#[derive(Clone, Copy, Debug, PartialEq, Eq)]
pub enum Verb {
    Get,
    Head,
    /// Any other method.
    Other,
}

/// The head of a request. Its target and its range lie in the bytes from which it was read.
#[derive(Clone, Copy, Debug, PartialEq, Eq)]
pub struct Request<'a> {
    pub verb: Verb,
    pub target: &'a [u8],
    /// Whether the version is HTTP/1.1, and not 1.0.
    pub http11: bool,
    /// How many `Host` fields there are.
    pub hosts: u32,
    /// The value of the one `Range` field, if there is no `If-Range`.
    pub range: Option<&'a [u8]>,
    /// The length of the head in bytes; the empty lines before it count.
    pub used: usize,
}

/// What the bytes of a connection hold so far.
#[derive(Clone, Copy, Debug, PartialEq, Eq)]
pub enum HeadRead<'a> {
    /// No head yet, and one may still come.
    Partial,
    /// No head, whatever comes, or none within the limits.
    Bad,
    Whole(Request<'a>),
}

fn verb_of(method: &[u8]) -> Verb
    ensures { result ≡ verb_of method.now }
{
    if method == b"GET".as_slice() {
        Verb::Get
    } else if method == b"HEAD".as_slice() {
        Verb::Head
    } else {
        Verb::Other
    }
}

/// Reads the head at the front of `bytes`, and reads no more than its first 8,192 bytes.
pub fn read_head<'a>(bytes: &'a [u8]) -> HeadRead<'a>
    // It returns exactly the heads of the grammar that have at most 64 fields, with their parts.
    ensures whole { IfWhole result
        (λ request. (head : RequestHead) × HoldsRequest (head_bytes bytes.now) head request) }
    ensures found { (head : RequestHead) (rest : List ℕ)
        → ReadsRequest (head_bytes bytes.now) head rest → length head.fields ≤ most_fields
        → IsWholeAnd result (HoldsRequest (head_bytes bytes.now) head) }

    // It waits only while a head may still come; at which byte a hopeless one is found bad isn't
    // fixed.
    ensures partial { result ≡ HeadRead.Partial → IsAwaited bytes.now }
    ensures bad { result ≡ HeadRead.Bad → length bytes.now < most_bytes → IsHopeless bytes.now }
{
    let front = &bytes[..bytes.len().min(MOST_BYTES)];
    let mut spans = [EMPTY_HEADER_SPAN; MOST_FIELDS];
    match parse_request(front, &mut spans) {
        Ok(Status::Complete(head)) => {
            let fields = &spans[..head.headers];
            HeadRead::Whole(Request {
                verb: verb_of(head.method.of(front)),
                target: head.path.of(front),
                http11: head.version == 1,
                hosts: count_of(front, head.len, fields, b"host"),
                range: range_in(front, head.len, fields),
                used: head.len,
            })
        }
        Ok(Status::Partial) => {
            if front.len() < MOST_BYTES {
                HeadRead::Partial
            } else {
                HeadRead::Bad
            }
        }
        Err(_) => HeadRead::Bad,
    }
}
