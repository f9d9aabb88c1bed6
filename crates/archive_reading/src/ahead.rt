//! A source that reads ahead.
ghost use Rattle.std.specs.Prelude.{◌≡◌, ◌⊎◌, ◌+◌, ◌-◌, ◌^◌, ◌≤◌, [], length, take, drop, min, IfOk, IfSome, IsErr, OnOk};
ghost use Rattle.ogg_page.specs.Source.{HasCause};
ghost use Rattle.ogg_page.specs.Window.{KeepsSource};
ghost use Rattle.archive_reading.specs.Ahead.{IsHeld, ahead_state};

use ogg_page::{PageSource, SourceFault};
use std::marker::Model;

/// A source whose small reads, if they follow one another, are answered out of bytes that were read at once. It has the
/// bytes of the source that it reads. If so many can't be read, those that are asked for are read alone.
#[derive(Drop)]
pub struct Ahead<S: PageSource> {
    source: S,
    room: Vec<u8>,
    // where the bytes stand that are held, and how many these are
    from: u64,
    held: usize,
}

impl<S: PageSource> Model for Ahead<S> {
    ghost use Rattle.std.specs.Prelude.{◌≤◌, length, take, vec_len};
    ghost use Rattle.archive_reading.specs.Ahead.{AheadState, IsHeld, ahead_state};

    ghost Value = { AheadState S };

    ghost view = { λ a. ahead_state a.source a.from (take a.held a.room.items) };

    ghost invariant = { λ a. (a.held ≤ length a.room.items)
        × (S.is_honest a.source → IsHeld (S.bytes a.source) a.from (take a.held a.room.items)) };
}

/// Copies the bytes from a place on.
fn copy_from(bytes: &[u8], skip: usize, buffer: &mut [u8])
    requires { skip + length buffer.old ≤ length bytes.now }
    ensures { buffer.new ≡ take (length buffer.old) (drop skip bytes.now) }
{
    let (_, rest) = bytes.split_at(skip);
    let (own, _) = rest.split_at(buffer.len());
    buffer.copy_from_slice(own);
}

/// Where in the bytes that are held the bytes from a place on stand, if all of them are held.
fn place_in(from: u64, held: usize, at: u64, count: usize) -> Option<usize>
    ensures { IfSome result (λ skip. (from + skip ≡ at) × (skip + count ≤ held)) }
{
    let skip = at.checked_sub(from)?;
    let held = held as u64;
    let count = count as u64;
    if skip <= held && count <= held - skip {
        Some(skip as usize)
    } else {
        None
    }
}

/// Reads bytes from a place on into the room, as many as it holds and the source has, and returns how many these are.
fn fill_room<S: PageSource>(source: &mut S, at: u64, room: &mut [u8]) -> Result<usize, SourceFault>
    requires { at ≤ S.size source.old }
    ensures count { IfOk result (λ count. count ≡ min (S.size source.old - at) (length room.old)) }
    ensures read { IfOk result (λ count. S.is_honest source.old → take count room.new ≡ take count (drop at (S.bytes source.old))) }
    ensures cause { HasCause (S.failures source.old) (S.failures source.new) result }
    ensures source { KeepsSource S.bytes S.is_honest S.size S.only_reads source.old source.new }
{
    let count = (source.end() - at).min(room.len() as u64) as usize;
    let (front, _) = room.split_at_mut(count);
    match source.read_at(at, front) {
        Ok(()) => Ok(count),
        Err(fault) => Err(fault),
    }
}

/// Reads bytes from a place on into the buffer, and more into the room, if more can be read. Returns how many bytes the
/// room has then, from the same place on.
fn read_ahead<S: PageSource>(
    source: &mut S,
    at: u64,
    buffer: &mut [u8],
    room: &mut [u8],
) -> Result<usize, SourceFault>
    requires asked { at + length buffer.old ≤ S.size source.old }
    requires less { length buffer.old ≤ length room.old }
    ensures read { OnOk result (S.is_honest source.old → buffer.new ≡ take (length buffer.old) (drop at (S.bytes source.old))) }
    ensures within { IfOk result (λ count. count ≤ length room.new) }
    ensures held { IfOk result (λ count. S.is_honest source.old → IsHeld (S.bytes source.old) at (take count room.new)) }
    // It fails only if what is asked can't be read alone either: the source has failed at both reads.
    ensures alone { IsErr result → (S.failures source.old + 2 ≤ S.failures source.new) ⊎ (2 ^ 64 - 1 ≤ S.failures source.new) }
    ensures cause { HasCause (S.failures source.old) (S.failures source.new) result }
    ensures source { KeepsSource S.bytes S.is_honest S.size S.only_reads source.old source.new }
{
    match fill_room(source, at, room) {
        Ok(count) => {
            copy_from(room, 0, buffer);
            Ok(count)
        }
        // A place that can't be read may lie after what is asked.
        Err(_) => match source.read_at(at, buffer) {
            Ok(()) => Ok(0),
            Err(fault) => Err(fault),
        },
    }
}

impl<S: PageSource> Ahead<S> {
    /// Nothing is held yet. As many bytes are read at once as the room has.
    pub fn new(source: S, room: Vec<u8>) -> Ahead<S>
        ensures { result ≡ ahead_state source 0 [] }
    {
        Ahead {
            source,
            room,
            from: 0,
            held: 0,
        }
    }

    /// The source as it stands.
    pub fn into_source(self) -> S
        ensures { result ≡ self.source }
    {
        self.source
    }
}

impl<S: PageSource> PageSource for Ahead<S> {
    ghost use Rattle.std.specs.Prelude.{◌≡◌, ◌≤◌, length};

    ghost bytes = { λ a. S.bytes a.source };

    ghost size = { λ a. S.size a.source };

    ghost is_honest = { λ a. S.is_honest a.source };

    ghost failures = { λ a. S.failures a.source };

    ghost only_reads = { λ old new. S.only_reads old.source new.source };

    fn end(&self) -> u64 {
        self.source.end()
    }

    fn read_at(&mut self, at: u64, buffer: &mut [u8]) -> Result<(), SourceFault> {
        if let Some(skip) = place_in(self.from, self.held, at, buffer.len()) {
            copy_from(self.room.as_slice(), skip, buffer);
            return Ok(());
        }
        if buffer.len() >= self.room.len() {
            return self.source.read_at(at, buffer);
        }
        self.held = 0;
        match read_ahead(&mut self.source, at, buffer, self.room.as_mut_slice()) {
            Ok(count) => {
                self.from = at;
                self.held = count;
                Ok(())
            }
            Err(fault) => Err(fault),
        }
    }

    ghost fits = { λ a h. S.fits a.source h };

    ghost reads_nothing = { λ a. S.reads_nothing a.source };

    ghost reads_on = { λ a b c first second. S.reads_on a.source b.source c.source first second };
}
