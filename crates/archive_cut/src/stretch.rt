//! Cuts from places where no link is open, which are the file's own bytes.
ghost use Rattle.std.specs.Prelude.{◌≡◌, ◌+◌, ◌-◌, ◌≤◌, ◌<◌, ◌++◌, ℕ, List, length, min, take, drop, IfOk, IsErr, OnErr};
ghost use Rattle.ogg_page.specs.Window.{KeepsSource};
ghost use Rattle.serve_live.specs.Listening.{HasFailed, part_at};
ghost use Rattle.archive_cut.specs.Stretch.{GivesStretch};

use ogg_page::{PageSource, SourceFault};
use std::marker::Model;

/// What is still to be given of a cut that has the file's own bytes between two places, and then pages that end streams.
#[derive(Debug, Drop)]
pub struct Stretch {
    place: u64,
    end: u64,
    text: Vec<u8>,
    sent: usize,
}

impl Model for Stretch {
    ghost use Rattle.std.specs.Prelude.{◌≤◌, drop, length};
    ghost use Rattle.archive_cut.specs.Stretch.{StretchState};

    ghost Value = { StretchState };

    ghost view = { λ p. record { place = p.place; end = p.end; text = drop p.sent p.text.items } };

    ghost invariant = { λ p. (p.place ≤ p.end) × (p.sent ≤ length p.text.items) };
}

/// Reads the first bytes between two places into the buffer, as many as it holds, and returns how many these are.
fn read_part<S: PageSource>(
    source: &mut S,
    place: u64,
    end: u64,
    buffer: &mut [u8],
) -> Result<usize, SourceFault>
    requires { place ≤ end }
    ensures count { IfOk result (λ count. count ≡ min (end - place) (length buffer.old)) }
    ensures read { IfOk result (λ count. S.is_honest source.old → end ≤ S.size source.old
        → take count buffer.new ≡ take count (drop place (S.bytes source.old))) }
    ensures cause { end ≤ S.size source.old → IsErr result
        → HasFailed (S.failures source.old) (S.failures source.new) × (0 < min (end - place) (length buffer.old)) }
    ensures later { S.failures source.old ≤ S.failures source.new }
    ensures source { KeepsSource S.bytes S.is_honest S.size S.only_reads source.old source.new }
{
    let count = (end - place).min(buffer.len() as u64) as usize;
    if count == 0 {
        return Ok(0);
    }
    if end > source.end() {
        return Err(SourceFault);
    }
    let (front, _) = buffer.split_at_mut(count);
    match source.read_at(place, front) {
        Ok(()) => Ok(count),
        Err(fault) => Err(fault),
    }
}

/// Copies the first bytes of the text into the buffer, as many as it holds, and returns how many these are.
pub(crate) fn copy_text(text: &[u8], buffer: &mut [u8]) -> usize
    ensures count { result ≡ min (length text.now) (length buffer.old) }
    ensures given { take result buffer.new ≡ take (length buffer.old) text.now }
{
    let count = text.len().min(buffer.len());
    let (front, _) = buffer.split_at_mut(count);
    front.copy_from_slice(&text[..count]);
    count
}

impl Stretch {
    /// The file's bytes from `start` up to `end`, and then this text.
    pub fn new(start: u64, end: u64, text: Vec<u8>) -> Stretch
        requires { start ≤ end }
        ensures { (result.place ≡ start) × (result.end ≡ end) × (result.text ≡ text.items) }
    {
        Stretch {
            place: start,
            end,
            text,
            sent: 0,
        }
    }

    /// Fills the buffer with the bytes that come next. It returns how many these are: fewer than go in only at the end.
    /// No memory is taken.
    ///
    /// After `SourceFault` it is as it was, and the buffer may hold anything.
    pub fn pull<S: PageSource>(
        &mut self,
        source: &mut S,
        buffer: &mut [u8],
    ) -> Result<usize, SourceFault>
        ensures gives { S.is_honest source.old → self.old.end ≤ S.size source.old
            → IfOk result (λ count. GivesStretch (S.bytes source.old) self.old (length buffer.old) buffer.new count self.new) }
        // A fault has a cause, and a byte was to be given.
        ensures cause { self.old.end ≤ S.size source.old → IsErr result
            → HasFailed (S.failures source.old) (S.failures source.new) × (self.old.place < self.old.end) }
        ensures same { OnErr result (self.new ≡ self.old) }
        ensures within { IfOk result (λ count. count ≤ length buffer.old) }
        ensures later { S.failures source.old ≤ S.failures source.new }
        ensures source { KeepsSource S.bytes S.is_honest S.size S.only_reads source.old source.new }
    {
        match read_part(source, self.place, self.end, buffer) {
            Ok(count) => {
                let (_, text) = self.text.as_slice().split_at(self.sent);
                let (_, room) = buffer.split_at_mut(count);
                let told = copy_text(text, room);
                self.place += count as u64;
                self.sent += told;
                Ok(count + told)
            }
            Err(fault) => Err(fault),
        }
    }
}
