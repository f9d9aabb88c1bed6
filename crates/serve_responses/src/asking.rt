//! What is asked by what was received.
ghost use Rattle.std.specs.Prelude.{◌≡◌, Some, None};
ghost use Rattle.ogg_http.specs.Head.{IfWhole, IsAwaited};
ghost use Rattle.serve_responses.specs.Response.{Asks, AsksOrWaits, asked_by};

use ogg_http::{HeadRead, read_head};

/// Finds what is asked by the bytes that a client has sent so far: a request, or that none can come (`Bad`), or that
/// more bytes have to come (`Partial`). The request borrows from the bytes, and no memory is taken (RFC 9112,
/// sections 2 to 5).
pub fn find_head<'a>(received: &'a [u8]) -> HeadRead<'a>
    ensures whole { IfWhole result (λ request. Asks received.now (Some (asked_by request))) }
    ensures bad { result ≡ HeadRead.Bad → Asks received.now None }
    ensures partial { result ≡ HeadRead.Partial → IsAwaited received.now }
    // So the result is one of the three.
    ensures read { AsksOrWaits received.now }
{
    read_head(received)
}
