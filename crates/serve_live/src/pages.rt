//! A buffer is filled with the pages since the moment of joining, as they are heard.
ghost use Rattle.std.specs.Prelude.{◌≡◌, ◌⊎◌, ◌||◌, ◌+◌, ◌-◌, ◌^◌, ◌<◌, ◌≤◌, ℕ, List, ◌++◌, length, take, drop, min, None, IfOk, IfSome, IsErr, OnOk};
ghost use Rattle.ogg_page.specs.Source.{HasCause};
ghost use Rattle.ogg_page.specs.Window.{KeepsSource};
ghost use Rattle.serve_live.specs.Listening.{HasFailed, part_at};
ghost use Rattle.serve_live.specs.Heads.{IsHeadAt};
ghost use Rattle.serve_live.specs.Pulling.{AreGiven, ArePulled, HasPassed, names_from};
ghost use Rattle.serve_live.specs.declared.pages.PageLeft.{PageLeft as PageLeftOf};

use crate::heads::{HeardHead, put_heard, read_head};
use crate::names::StreamName;
use ogg_page::{PageSource, SourceFault};
use page_heads::{LONGEST_HEAD, facts_of};

/// The page that is heard next stands at the place, and `skip` of its bytes were heard. Once another link has begun
/// (`anew`), pages are heard as they are.
#[derive(Clone, Copy, Debug, PartialEq, Eq)]
pub struct PageLeft {
    pub place: u64,
    pub skip: u64,
    pub anew: bool,
}

/// What is left after this many more bytes of the page.
fn left_after(left: PageLeft, begins: bool, size: u64, count: u64) -> PageLeft
    requires inside { left.skip + count ≤ size }
    requires end { left.place + size < 2 ^ 64 }
    ensures within { left.skip + count < size
        → (result.place ≡ left.place) × (result.skip ≡ left.skip + count) × (result.anew ≡ left.anew) }
    ensures behind { left.skip + count ≡ size
        → (result.place ≡ left.place + size) × (result.skip ≡ 0) × (result.anew ≡ (left.anew || begins)) }
{
    if left.skip + count < size {
        return PageLeft {
            place: left.place,
            skip: left.skip + count,
            anew: left.anew,
        };
    }
    PageLeft {
        place: left.place + size,
        skip: 0,
        anew: left.anew || begins,
    }
}

/// Copies bytes into the buffer after those that were given, as many as go in, and returns how many these are.
fn copy_on(bytes: &[u8], given: usize, buffer: &mut [u8]) -> usize
    requires room { given ≤ length buffer.old }
    ensures count { result ≡ min (length bytes.now) (length buffer.old - given) }
    ensures copied { buffer.new ≡ take given buffer.old ++ (take result bytes.now ++ drop (given + result) buffer.old) }
{
    let (_, free) = buffer.split_at_mut(given);
    let count = bytes.len().min(free.len());
    let (front, _) = free.split_at_mut(count);
    front.copy_from_slice(&bytes[..count]);
    count
}

/// Reads `count` bytes at the place into the buffer, after those that were given.
fn read_on<S: PageSource>(
    source: &mut S,
    place: u64,
    count: usize,
    given: usize,
    buffer: &mut [u8],
) -> Result<(), SourceFault>
    requires inside { place + count ≤ S.size source.old }
    requires room { given + count ≤ length buffer.old }
    ensures read { OnOk result (S.is_honest source.old
        → buffer.new ≡ take given buffer.old ++ (part_at place count (S.bytes source.old) ++ drop (given + count) buffer.old)) }
    ensures kept { take given buffer.new ≡ take given buffer.old }
    ensures cause { HasCause (S.failures source.old) (S.failures source.new) result }
    ensures source { KeepsSource S.bytes S.is_honest S.size S.only_reads source.old source.new }
{
    let (_, free) = buffer.split_at_mut(given);
    let (front, _) = free.split_at_mut(count);
    source.read_at(place, front)
}

/// Gives bytes of a head that is kept, from the skipped ones on, as many as go in, and returns how many these are.
fn give_head(head: &HeardHead, skip: u64, given: usize, buffer: &mut [u8]) -> usize
    requires skip { skip < head.now.len }
    requires len { head.now.len ≤ 282 }
    requires room { given < length buffer.old }
    ensures some { (0 < result) × (skip + result ≤ head.now.len) × (given + result ≤ length buffer.old) }
    ensures copied { buffer.new ≡ take given buffer.old
        ++ (part_at skip result (take head.now.len head.now.bytes) ++ drop (given + result) buffer.old) }
{
    let (own, _) = head.bytes.split_at(head.len);
    let (_, behind) = own.split_at(skip as usize);
    copy_on(behind, given, buffer)
}

/// The names that count: none once another link has begun.
fn kept_names<'a>(names: &'a [StreamName], anew: bool) -> &'a [StreamName]
    ensures { result.now ≡ names_from names.now anew }
{
    if anew { &[] } else { names }
}

/// Gives what goes in of the page at the place, whose head this is: bytes of the head, or of the body. It returns the count
/// of all bytes that were given, and what is left then.
fn give_on<S: PageSource>(
    source: &mut S,
    head: &HeardHead,
    left: PageLeft,
    given: usize,
    buffer: &mut [u8],
) -> Result<(usize, PageLeft), SourceFault>
    requires room { given < length buffer.old }
    requires skip { left.skip < head.now.size }
    requires some { (27 ≤ head.now.len) × (head.now.len ≤ head.now.size) × (head.now.len ≤ 282) }
    requires inside { (left.place + head.now.size ≤ S.size source.old) × (left.place + head.now.size < 2 ^ 64) }
    ensures pulled { (names : List StreamName) (committed more rest : List ℕ) → S.is_honest source.old
        → S.bytes source.old ≡ committed ++ more → left.place < length committed
        → IsHeadAt (S.bytes source.old) left.place (names_from names left.anew) head.now
        → ArePulled committed rest names left given buffer.old
        → IfOk result (λ p. ArePulled committed rest names p.1 p.0 buffer.new) }
    ensures passes { (names : List StreamName) (committed more rest : List ℕ) → S.is_honest source.old
        → S.bytes source.old ≡ committed ++ more → left.place < length committed
        → IsHeadAt (S.bytes source.old) left.place (names_from names left.anew) head.now
        → ArePulled committed rest names left given buffer.old
        → IfOk result (λ p. HasPassed committed left p.1) }
    // As long as the page isn't over its head is the same.
    ensures stays { IfOk result (λ p. p.1.place ≡ left.place → (p.1.anew ≡ left.anew) × (p.1.skip < head.now.size)) }
    ensures cause { HasCause (S.failures source.old) (S.failures source.new) result }
    ensures further { IfOk result (λ p. (given < p.0) × (p.0 ≤ length buffer.old)) }
    ensures source { KeepsSource S.bytes S.is_honest S.size S.only_reads source.old source.new }
{
    if left.skip < head.len as u64 {
        let count = give_head(head, left.skip, given, buffer);
        let after = left_after(left, head.begins, head.size, count as u64);
        return Ok((given + count, after));
    }
    let room = (buffer.len() - given) as u64;
    let count = (head.size - left.skip).min(room);
    match read_on(
        source,
        left.place + left.skip,
        count as usize,
        given,
        buffer,
    ) {
        Ok(()) => {
            let after = left_after(left, head.begins, head.size, count);
            Ok((given + count as usize, after))
        }
        Err(fault) => Err(fault),
    }
}

/// Gives what goes in of the page at the place, of its head and of its body. It returns the count of all bytes that were
/// given, and what is left then.
fn pull_page<S: PageSource>(
    source: &mut S,
    names: &[StreamName],
    left: PageLeft,
    given: usize,
    buffer: &mut [u8],
) -> Result<(usize, PageLeft), SourceFault>
    requires room { given < length buffer.old }
    ensures pulled { (committed more rest : List ℕ) → S.is_honest source.old → S.bytes source.old ≡ committed ++ more
        → left.place < length committed → ArePulled committed rest names.now left given buffer.old
        → IfOk result (λ p. ArePulled committed rest names.now p.1 p.0 buffer.new) }
    ensures passes { (committed more rest : List ℕ) → S.is_honest source.old → S.bytes source.old ≡ committed ++ more
        → left.place < length committed → ArePulled committed rest names.now left given buffer.old
        → IfOk result (λ p. HasPassed committed left p.1) }
    ensures cause { (committed more rest : List ℕ) → S.is_honest source.old → S.bytes source.old ≡ committed ++ more
        → left.place < length committed → ArePulled committed rest names.now left given buffer.old → IsErr result
        → HasFailed (S.failures source.old) (S.failures source.new) }
    ensures further { IfOk result (λ p. (given < p.0) × (p.0 ≤ length buffer.old)) }
    ensures later { S.failures source.old ≤ S.failures source.new }
    ensures source { KeepsSource S.bytes S.is_honest S.size S.only_reads source.old source.new }
{
    let kept = kept_names(names, left.anew);
    match read_head(source, left.place, kept) {
        Ok(head) => {
            if left.skip >= head.size {
                return Err(SourceFault);
            }
            match give_on(source, &head, left, given, buffer) {
                Ok((count, after)) => {
                    if after.place != left.place || count >= buffer.len() {
                        return Ok((count, after));
                    }
                    // The head isn't read again for the body behind it.
                    give_on(source, &head, after, count, buffer)
                }
                Err(fault) => Err(fault),
            }
        }
        Err(fault) => Err(fault),
    }
}

/// Gives the page that was read into the buffer behind what was given, if all of it stands there before the end: its head
/// becomes the one that is heard. It returns the count of all bytes that were given, and what is left then.
fn give_whole(
    names: &[StreamName],
    left: PageLeft,
    given: usize,
    end: usize,
    buffer: &mut [u8],
) -> Option<(usize, PageLeft)>
    requires room { (given + 282 ≤ end) × (end ≤ length buffer.old) }
    requires skip { left.skip ≡ 0 }
    requires place { left.place + (end - given) < 2 ^ 64 }
    ensures gives { (committed more rest : List ℕ) (start : PageLeftOf) → left.place + (end - given) ≤ length committed
        → AreGiven committed more rest names.now start left given end buffer.old
        → IfSome result (λ p. AreGiven committed more rest names.now start p.1 p.0 end buffer.new) }
    ensures further { IfSome result (λ p. (given < p.0) × (p.0 ≤ end) × (p.1.skip ≡ 0) × (p.1.place ≡ left.place + (p.0 - given))) }
    ensures none { result ≡ None → buffer.new ≡ buffer.old }
{
    let facts = facts_of(&buffer[given..given + LONGEST_HEAD])?;
    if facts.size > (end - given) as u64 {
        return None;
    }
    let (_, page) = buffer.split_at_mut(given);
    put_heard(facts, kept_names(names, left.anew), page);
    let after = left_after(left, facts.begins, facts.size, facts.size);
    Some((given + facts.size as usize, after))
}

/// Gives the whole pages that were read into the buffer behind what was given, up to the end. It returns the count of all
/// bytes that were given, and what is left then. The last bytes before the end, fewer than those of the longest head, stay.
fn give_all(
    names: &[StreamName],
    start: PageLeft,
    before: usize,
    end: usize,
    buffer: &mut [u8],
) -> (usize, PageLeft)
    requires room { (before ≤ end) × (end ≤ length buffer.old) }
    requires skip { start.skip ≡ 0 }
    requires place { start.place + (end - before) < 2 ^ 64 }
    ensures gives { (committed more rest : List ℕ) → start.place + (end - before) ≤ length committed
        → AreGiven committed more rest names.now start start before end buffer.old
        → AreGiven committed more rest names.now start result.1 result.0 end buffer.new }
    ensures further { (before ≤ result.0) × (result.0 ≤ end) }
    ensures none { result.0 ≡ before → result.1 ≡ start }
{
    let mut given = before;
    let mut left = start;
    'pages: while LONGEST_HEAD <= end - given {
        match give_whole(names, left, given, end, buffer) {
            Some((count, after)) => {
                given = count;
                left = after;
            }
            None => return (given, left),
        }
    }
    (given, left)
}

/// Reads as many pages at once as go in, and gives those that are there whole. It returns the count of all bytes that were
/// given, and what is left then: if none was given, or so much can't be read, that is as it was.
fn pull_ahead<S: PageSource>(
    source: &mut S,
    end: u64,
    names: &[StreamName],
    left: PageLeft,
    given: usize,
    buffer: &mut [u8],
) -> (usize, PageLeft)
    requires room { given < length buffer.old }
    ensures pulled { (committed more rest : List ℕ) → S.is_honest source.old → S.bytes source.old ≡ committed ++ more
        → length committed ≡ end → left.place < length committed → ArePulled committed rest names.now left given buffer.old
        → ArePulled committed rest names.now result.1 result.0 buffer.new }
    ensures passes { (committed more rest : List ℕ) → S.is_honest source.old → S.bytes source.old ≡ committed ++ more
        → length committed ≡ end → left.place < length committed → ArePulled committed rest names.now left given buffer.old
        → HasPassed committed left result.1 }
    ensures none { result.0 ≡ given → result.1 ≡ left }
    ensures further { (given ≤ result.0) × (result.0 ≤ length buffer.old) }
    ensures later { S.failures source.old ≤ S.failures source.new }
    ensures source { KeepsSource S.bytes S.is_honest S.size S.only_reads source.old source.new }
{
    let to = end.min(source.end());
    if left.skip > 0 || to <= left.place {
        return (given, left);
    }
    let room = (buffer.len() - given) as u64;
    let count = (to - left.place).min(room) as usize;
    match read_on(source, left.place, count, given, buffer) {
        Ok(()) => give_all(names, left, given, given + count, buffer),
        Err(_) => (given, left),
    }
}

/// Gives what goes in of the pages from the place on, at least of one. It returns the count of all bytes that were given, and
/// what is left then.
fn pull_next<S: PageSource>(
    source: &mut S,
    end: u64,
    names: &[StreamName],
    left: PageLeft,
    given: usize,
    buffer: &mut [u8],
) -> Result<(usize, PageLeft), SourceFault>
    requires room { given < length buffer.old }
    ensures pulled { (committed more rest : List ℕ) → S.is_honest source.old → S.bytes source.old ≡ committed ++ more
        → length committed ≡ end → left.place < length committed → ArePulled committed rest names.now left given buffer.old
        → IfOk result (λ p. ArePulled committed rest names.now p.1 p.0 buffer.new) }
    ensures passes { (committed more rest : List ℕ) → S.is_honest source.old → S.bytes source.old ≡ committed ++ more
        → length committed ≡ end → left.place < length committed → ArePulled committed rest names.now left given buffer.old
        → IfOk result (λ p. HasPassed committed left p.1) }
    ensures cause { (committed more rest : List ℕ) → S.is_honest source.old → S.bytes source.old ≡ committed ++ more
        → length committed ≡ end → left.place < length committed → ArePulled committed rest names.now left given buffer.old
        → IsErr result → HasFailed (S.failures source.old) (S.failures source.new) }
    ensures further { IfOk result (λ p. (given < p.0) × (p.0 ≤ length buffer.old)) }
    ensures later { S.failures source.old ≤ S.failures source.new }
    ensures source { KeepsSource S.bytes S.is_honest S.size S.only_reads source.old source.new }
{
    let (count, after) = pull_ahead(source, end, names, left, given, buffer);
    if count > given {
        return Ok((count, after));
    }
    pull_page(source, names, left, given, buffer)
}

/// Fills the buffer with what is heard of the pages up to the end, as far as either goes. It returns how many bytes
/// these are, and what is left then.
pub fn pull_pages<S: PageSource>(
    source: &mut S,
    end: u64,
    names: &[StreamName],
    start: PageLeft,
    buffer: &mut [u8],
) -> Result<(usize, PageLeft), SourceFault>
    ensures pulled { (committed more rest : List ℕ) → S.is_honest source.old → S.bytes source.old ≡ committed ++ more
        → length committed ≡ end → ArePulled committed rest names.now start 0 buffer.old
        → IfOk result (λ p. ArePulled committed rest names.now p.1 p.0 buffer.new
        × ((p.0 ≡ length buffer.old) ⊎ (p.0 ≡ length rest))) }
    ensures passes { (committed more rest : List ℕ) → S.is_honest source.old → S.bytes source.old ≡ committed ++ more
        → length committed ≡ end → ArePulled committed rest names.now start 0 buffer.old
        → IfOk result (λ p. HasPassed committed start p.1) }
    ensures cause { (committed more rest : List ℕ) → S.is_honest source.old → S.bytes source.old ≡ committed ++ more
        → length committed ≡ end → ArePulled committed rest names.now start 0 buffer.old → IsErr result
        → HasFailed (S.failures source.old) (S.failures source.new) × (0 < min (length rest) (length buffer.old)) }
    ensures within { IfOk result (λ p. p.0 ≤ length buffer.old) }
    ensures later { S.failures source.old ≤ S.failures source.new }
    ensures source { KeepsSource S.bytes S.is_honest S.size S.only_reads source.old source.new }
{
    let mut given = 0;
    let mut left = start;
    'pages: while given < buffer.len() && left.place < end {
        match pull_next(source, end, names, left, given, buffer) {
            Ok((count, after)) => {
                given = count;
                left = after;
            }
            Err(fault) => return Err(fault),
        }
    }
    Ok((given, left))
}
