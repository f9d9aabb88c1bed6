//! A buffer is filled with what is left.
ghost use Rattle.std.specs.Prelude.{◌≡◌, ◌+◌, ◌^◌, ◌<◌, ◌≤◌, ℕ, List, ◌++◌, length, take, drop, min, IfOk, IsErr};
ghost use Rattle.ogg_page.specs.Window.{KeepsSource};
ghost use Rattle.serve_machine.specs.Places.{LiesIn, part_at};
ghost use Rattle.serve_sending.specs.Sending.{GivesBody, HasFailed, IsBodyLeft, IsFaultOf, is_empty_body};

use crate::body::Body;
use crate::walking::{StreamLeft, pull_stream};
use ogg_page::{PageSource, SourceFault, Window};

/// Copies the first bytes of the text into the buffer, as many as it holds, and returns how many these are.
pub fn pull_text(text: &[u8], buffer: &mut [u8]) -> usize
    ensures count { result ≡ min (length text.now) (length buffer.old) }
    ensures given { take result buffer.new ≡ take (length buffer.old) text.now }
    ensures behind { drop result buffer.new ≡ drop result buffer.old }
{
    let count = text.len().min(buffer.len());
    let (front, _) = buffer.split_at_mut(count);
    front.copy_from_slice(&text[..count]);
    count
}

/// Fills the buffer with the bytes at a place of the window's source.
fn read_at<S: PageSource>(
    window: &mut Window<S>,
    place: u64,
    buffer: &mut [u8],
) -> Result<(), SourceFault>
    ensures read { (committed more : List ℕ) → S.is_honest window.old.source → S.bytes window.old.source ≡ committed ++ more
        → LiesIn place (length buffer.old) committed → IfOk result (λ done. buffer.new ≡ part_at place (length buffer.old) committed) }
    ensures cause { (committed more : List ℕ) → S.is_honest window.old.source → S.bytes window.old.source ≡ committed ++ more
        → LiesIn place (length buffer.old) committed → IsErr result
        → HasFailed (S.failures window.old.source) (S.failures window.new.source) }
    ensures inside { IfOk result (λ done. place + length buffer.old < 2 ^ 64) }
    ensures later { S.failures window.old.source ≤ S.failures window.new.source }
    ensures source { KeepsSource S.bytes S.is_honest S.size S.only_reads window.old.source window.new.source }
{
    let source = window.source_mut();
    let end = source.end();
    if place > end || buffer.len() as u64 > end - place {
        return Err(SourceFault);
    }
    source.read_at(place, buffer)
}

/// Reads the first bytes of a part of the file into the buffer, as many as it holds, and returns how many these are.
fn pull_part<S: PageSource>(
    window: &mut Window<S>,
    place: u64,
    count: u64,
    buffer: &mut [u8],
) -> Result<usize, SourceFault>
    ensures read { (committed more : List ℕ) → S.is_honest window.old.source → S.bytes window.old.source ≡ committed ++ more
        → LiesIn place count committed → IfOk result (λ n. (n ≡ min count (length buffer.old))
        × (take n buffer.new ≡ part_at place n committed)) }
    ensures cause { (committed more : List ℕ) → S.is_honest window.old.source → S.bytes window.old.source ≡ committed ++ more
        → LiesIn place count committed → IsErr result
        → HasFailed (S.failures window.old.source) (S.failures window.new.source) }
    ensures inside { IfOk result (λ n. (n ≤ count) × (n ≤ length buffer.old) × (place + n < 2 ^ 64)) }
    ensures later { S.failures window.old.source ≤ S.failures window.new.source }
    ensures source { KeepsSource S.bytes S.is_honest S.size S.only_reads window.old.source window.new.source }
{
    let taken = count.min(buffer.len() as u64) as usize;
    let (front, _) = buffer.split_at_mut(taken);
    match read_at(window, place, front) {
        Ok(()) => Ok(taken),
        Err(fault) => Err(fault),
    }
}

/// Whether nothing is left of the body.
pub fn is_empty_body(body: Body) -> bool
    ensures { result ≡ is_empty_body body }
{
    match body {
        Body::Nothing => true,
        Body::Part(_, count) => count == 0,
        Body::Stream(_, _, _, count) => count == 0,
    }
}

/// Reads the first bytes of what is left of the body into the buffer, as many as it holds. It returns their count and
/// what is left then.
pub fn pull_body<S: PageSource>(
    window: &mut Window<S>,
    body: Body,
    buffer: &mut [u8],
) -> Result<(usize, Body), SourceFault>
    ensures gives { (committed more rest : List ℕ) → S.is_honest window.old.source → S.bytes window.old.source ≡ committed ++ more
        → IsBodyLeft committed body rest → IfOk result (λ p. GivesBody committed rest (length buffer.old) buffer.new p.0 p.1) }
    ensures cause { (committed more rest : List ℕ) → S.is_honest window.old.source → S.bytes window.old.source ≡ committed ++ more
        → IsBodyLeft committed body rest → IsErr result
        → IsFaultOf rest (length buffer.old) (S.failures window.old.source) (S.failures window.new.source) }
    ensures within { IfOk result (λ p. p.0 ≤ length buffer.old) }
    ensures later { S.failures window.old.source ≤ S.failures window.new.source }
    ensures source { KeepsSource S.bytes S.is_honest S.size S.only_reads window.old.source window.new.source }
{
    if buffer.is_empty() || is_empty_body(body) {
        return Ok((0, body));
    }
    match body {
        Body::Nothing => Ok((0, body)),
        Body::Part(place, count) => match pull_part(window, place, count, buffer) {
            Ok(n) => Ok((n, Body::Part(place + n as u64, count - n as u64))),
            Err(fault) => Err(fault),
        },
        Body::Stream(serial, place, skip, count) => {
            let start = StreamLeft { place, skip, count };
            match pull_stream(window.source_mut(), serial, start, buffer) {
                Ok((n, left)) => Ok((n, Body::Stream(serial, left.place, left.skip, left.count))),
                Err(fault) => Err(fault),
            }
        }
    }
}
