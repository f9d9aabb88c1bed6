//! A buffer is filled with what is left: a part of the file, a text, and the pages since the moment of joining.
ghost use Rattle.std.specs.Prelude.{◌≡◌, ◌+◌, ◌^◌, ◌<◌, ◌≤◌, ℕ, List, ◌++◌, length, take, drop, min, IfOk, IsErr};
ghost use Rattle.ogg_page.specs.Window.{KeepsSource};
ghost use Rattle.serve_live.specs.Listening.{ArePagesLeft, HasFailed, part_at};
ghost use Rattle.serve_live.specs.Pulling.{GivesBehind, HasPassed, names_kept};

use crate::names::StreamName;
use crate::pages::{PageLeft, pull_pages};
use ogg_page::{PageSource, SourceFault};

/// Fills the buffer with the bytes at a place.
fn read_at<S: PageSource>(source: &mut S, place: u64, buffer: &mut [u8]) -> Result<(), SourceFault>
    ensures read { (committed more : List ℕ) → S.is_honest source.old → S.bytes source.old ≡ committed ++ more
        → place + length buffer.old ≤ length committed → IfOk result (λ done. buffer.new ≡ part_at place (length buffer.old) committed) }
    ensures cause { (committed more : List ℕ) → S.is_honest source.old → S.bytes source.old ≡ committed ++ more
        → place + length buffer.old ≤ length committed → IsErr result
        → HasFailed (S.failures source.old) (S.failures source.new) }
    ensures inside { IfOk result (λ done. place + length buffer.old < 2 ^ 64) }
    ensures later { S.failures source.old ≤ S.failures source.new }
    ensures source { KeepsSource S.bytes S.is_honest S.size S.only_reads source.old source.new }
{
    let end = source.end();
    if place > end || buffer.len() as u64 > end - place {
        return Err(SourceFault);
    }
    source.read_at(place, buffer)
}

/// Reads the first bytes of a part of the file into the buffer, as many as it holds, and returns how many these are.
pub fn pull_part<S: PageSource>(
    source: &mut S,
    place: u64,
    count: u64,
    buffer: &mut [u8],
) -> Result<usize, SourceFault>
    ensures read { (committed more : List ℕ) → S.is_honest source.old → S.bytes source.old ≡ committed ++ more
        → place + count ≤ length committed → IfOk result (λ n. (n ≡ min count (length buffer.old))
        × (take n buffer.new ≡ part_at place n committed)) }
    ensures cause { (committed more : List ℕ) → S.is_honest source.old → S.bytes source.old ≡ committed ++ more
        → place + count ≤ length committed → IsErr result
        → HasFailed (S.failures source.old) (S.failures source.new) × (0 < min count (length buffer.old)) }
    ensures inside { IfOk result (λ n. (n ≤ count) × (n ≤ length buffer.old) × (place + n < 2 ^ 64)) }
    ensures later { S.failures source.old ≤ S.failures source.new }
    ensures source { KeepsSource S.bytes S.is_honest S.size S.only_reads source.old source.new }
{
    let taken = count.min(buffer.len() as u64) as usize;
    // Nothing is read if nothing is to be given, so that there is no fault then.
    if taken == 0 {
        return Ok(0);
    }
    let (front, _) = buffer.split_at_mut(taken);
    match read_at(source, place, front) {
        Ok(()) => Ok(taken),
        Err(fault) => Err(fault),
    }
}

/// Copies the first bytes of the text into the buffer, as many as it holds, and returns how many these are.
fn pull_text(text: &[u8], buffer: &mut [u8]) -> usize
    ensures count { result ≡ min (length text.now) (length buffer.old) }
    ensures given { take result buffer.new ≡ take (length buffer.old) text.now }
    ensures behind { drop result buffer.new ≡ drop result buffer.old }
{
    let count = text.len().min(buffer.len());
    let (front, _) = buffer.split_at_mut(count);
    front.copy_from_slice(&text[..count]);
    count
}

/// Fills the buffer with the text, and then with what is heard of the pages up to the end, as far as either goes. It
/// returns how many bytes are of the text and how many of pages, and what is left of the pages then.
pub fn pull_behind<S: PageSource>(
    source: &mut S,
    end: u64,
    text: &[u8],
    names: &[StreamName],
    start: PageLeft,
    buffer: &mut [u8],
) -> Result<(usize, usize, PageLeft), SourceFault>
    ensures gives { (committed more pages : List ℕ) → S.is_honest source.old → S.bytes source.old ≡ committed ++ more
        → length committed ≡ end → ArePagesLeft committed (names_kept names.now start) start.place start.skip pages
        → IfOk result (λ r. GivesBehind committed names.now text.now pages (length buffer.old) buffer.new r.0 r.1 r.2) }
    ensures passes { (committed more pages : List ℕ) → S.is_honest source.old → S.bytes source.old ≡ committed ++ more
        → length committed ≡ end → ArePagesLeft committed (names_kept names.now start) start.place start.skip pages
        → IfOk result (λ r. HasPassed committed start r.2) }
    ensures cause { (committed more pages : List ℕ) → S.is_honest source.old → S.bytes source.old ≡ committed ++ more
        → length committed ≡ end → ArePagesLeft committed (names_kept names.now start) start.place start.skip pages
        → IsErr result → HasFailed (S.failures source.old) (S.failures source.new)
        × (0 < min (length (text.now ++ pages)) (length buffer.old)) }
    ensures within { IfOk result (λ r. (r.0 ≤ length text.now) × (r.0 + r.1 ≤ length buffer.old)) }
    ensures later { S.failures source.old ≤ S.failures source.new }
    ensures source { KeepsSource S.bytes S.is_honest S.size S.only_reads source.old source.new }
{
    let told = pull_text(text, buffer);
    let (_, room) = buffer.split_at_mut(told);
    match pull_pages(source, end, names, start, room) {
        Ok((heard, left)) => Ok((told, heard, left)),
        Err(fault) => Err(fault),
    }
}
