//! The bytes of a file that follow the head of an answer.
ghost use Rattle.std.specs.Prelude.{◌≡◌, ◌++◌, ◌+◌, ◌-◌, ◌≤◌, ℕ, List, length, min, take, slice_range, IfOk, OnErr};
ghost use Rattle.ogg_page.specs.Source.{HasCause};
ghost use Rattle.archive_reading.specs.Prefix.{prefix_bytes};
ghost use Rattle.archive_fetch.specs.Bodies.{left_of};
ghost use Rattle.archive_fetch.specs.Replies.{IsWithin, ReplyFits, content_of};

use crate::replies::Reply;
use archive_reading::Prefix;
use disk_model::Disk;
use ogg_http::{Answer, Verb};
use ogg_page::{PageSource, SourceFault};
use std::marker::Model;

/// The bytes of a file that are to be sent, up to an end.
#[derive(Drop)]
pub struct Body<D: Disk> {
    source: Prefix<D>,
    at: u64,
    end: u64,
}

impl<D: Disk> Model for Body<D> {
    ghost use Rattle.std.specs.Prelude.{◌≤◌};
    ghost use Rattle.archive_fetch.specs.Bodies.{BodyState};

    ghost Value = { BodyState D };

    ghost view = { λ b. record { source = b.source; at = b.at; end = b.end } };

    ghost invariant = { λ b. (b.at ≤ b.end) × (b.end ≤ b.source.end) };
}

/// From where up to where the bytes stand that follow the head.
fn stretch_of(verb: Verb, reply: Reply) -> (u64, u64)
    ensures content { (bytes : List ℕ) → ReplyFits reply → content_of verb reply bytes ≡ slice_range bytes result.0 result.1 }
    ensures inside { (most : ℕ) → ReplyFits reply → IsWithin most reply → (result.0 ≤ result.1) × (result.1 ≤ most) }
{
    match (verb, reply) {
        (Verb::Get, Reply::Found(Answer::Full(len), _)) => (0, len),
        (Verb::Get, Reply::Found(Answer::Part(first, last, _), _)) => (
            first,
            last.saturating_add(1),
        ),
        _ => (0, 0),
    }
}

impl<D: Disk> Body<D> {
    /// The bytes that follow the head of this answer, out of a file whose bytes these are. None if it isn't as long as the
    /// answer says.
    pub fn of(source: Prefix<D>, verb: Verb, reply: Reply) -> Body<D>
        ensures { ReplyFits reply → IsWithin source.end reply → left_of D.state result ≡ content_of verb reply (prefix_bytes D.state source) }
    {
        let (start, end) = stretch_of(verb, reply);
        if start <= end && end <= source.end() {
            Body {
                source,
                at: start,
                end,
            }
        } else {
            Body {
                source,
                at: 0,
                end: 0,
            }
        }
    }

    /// How many bytes are left.
    pub fn left(&self) -> u64
        ensures { result ≡ self.now.end - self.now.at }
    {
        self.end - self.at
    }

    /// Fills the buffer with the next bytes, and returns how many these are: as many as it holds, or all that are left.
    ///
    /// After `SourceFault` as many are left as before, and the buffer may hold anything.
    pub fn pull(&mut self, buffer: &mut [u8]) -> Result<usize, SourceFault>
        ensures count { IfOk result (λ count. count ≡ min (self.old.end - self.old.at) (length buffer.old)) }
        ensures next { IfOk result (λ count. D.is_honest self.old.source.disk → length (prefix_bytes D.state self.old.source) ≡ self.old.source.end
            → left_of D.state self.old ≡ take count buffer.new ++ left_of D.state self.new) }
        ensures goes_on { IfOk result (λ count. (self.new.at ≡ self.old.at + count) × (self.new.end ≡ self.old.end)) }
        ensures same { OnErr result ((self.new.at ≡ self.old.at) × (self.new.end ≡ self.old.end)) }
        ensures cause { HasCause (D.failures self.old.source.disk) (D.failures self.new.source.disk) result }
        ensures within { IfOk result (λ count. count ≤ length buffer.new) }
    {
        let count = self.left().min(buffer.len() as u64) as usize;
        let (front, _) = buffer.split_at_mut(count);
        match self.source.read_at(self.at, front) {
            Ok(()) => {
                self.at += count as u64;
                Ok(count)
            }
            Err(fault) => Err(fault),
        }
    }
}
