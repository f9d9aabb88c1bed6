//! Where a source's body ends, by the fields of its head.
ghost use Rattle.std.specs.Prelude.{◌≡◌};
ghost use Rattle.serve_sources.specs.Framing.{framing_by, framing_of, has_host};

use http1::fields::{ContentLength, KnownFields, TransferEncoding};
use http1::framing::Framing;

/// The greatest length of a body, in bytes.
const MOST: u64 = (1 << 63) - 1;

/// Whether there are as many `Host` fields as there must be.
fn has_host(http11: bool, hosts: u8) -> bool
    ensures { result ≡ has_host http11 hosts }
{
    hosts == 1 || (!http11 && hosts == 0)
}

fn framing_by(
    http11: bool,
    coding: TransferEncoding,
    has_other: bool,
    length: ContentLength,
) -> Option<Framing>
    ensures { result ≡ framing_by http11 coding has_other length }
{
    match (coding, length) {
        (TransferEncoding::Absent, ContentLength::Absent) => Some(Framing::UntilClose),
        (TransferEncoding::Absent, ContentLength::Value(length)) if length <= MOST => Some(
            Framing::Length(length),
        ),
        (TransferEncoding::Chunked, ContentLength::Absent) if http11 && !has_other => Some(
            Framing::Chunked,
        ),
        _ => None,
    }
}

/// Where the body ends, if the head says it in one way.
pub fn framing_of(http11: bool, known: &KnownFields) -> Option<Framing>
    ensures { result ≡ framing_of http11 known.now }
{
    if has_host(http11, known.hosts) && known.framing_fields <= 1 {
        framing_by(
            http11,
            known.transfer_encoding,
            known.other_coding,
            known.content_length,
        )
    } else {
        None
    }
}
