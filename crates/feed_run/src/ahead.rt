//! How much of a feed is at hand.
ghost use Rattle.std.specs.Prelude.{◌≡◌, ◌≢◌, ◌≤◌, IfOk, IfErr, IfSome, IfNone, IsTrue, None, Some, Ok, Err};
ghost use Rattle.std.specs.Io.Buffered.{reader_buffer};
ghost use Rattle.feed_codec.specs.Feed.{GivesEnd, GivesRecord, HasFault, TakesWhereMemoryEnds, answer_at};
ghost use Rattle.feed_run.specs.Ahead.{BeginsWithRecord};

use feed_codec::Feed;
use feed_records::{ANNOUNCEMENT, HEAD, Record};
use feed_replies::FeedFault;
use ogg_page::{take_u8, take_u32};
use std::io::{BufReader, Read};

/// Tells whether the next record of a feed can be read without waiting for more of it, and reads it.
pub trait Ahead<R: Read> {
    /// What holds of a reader if the next record is said to be at hand.
    ghost at_hand: { R → Type 0 };

    /// Whether the next record is whole at hand.
    fn has_record(reader: &R) -> bool
        ensures { IsTrue result → at_hand reader.now };

    /// Reads the next record, as `Feed::next` does.
    fn next_record(feed: &mut Feed, reader: &mut R) -> Result<Option<Record>, FeedFault>
        // Only the record is consumed, and the announcement too if the record is the first.
        ensures record { IfOk result (λ found. IfSome found (λ given. (feed.old.feed.outcome ≡ None) × (feed.new.feed.outcome ≡ None)
            × GivesRecord feed.old.feed.version feed.new.feed.version (R.remaining reader.old) (R.remaining reader.new) given)) }

        // At the end no byte is left.
        ensures end { IfOk result (λ found. IfNone found (feed.old.feed.outcome ≡ None
            → GivesEnd feed.old.feed.version (R.remaining reader.old) (R.remaining reader.new))) }

        // A fault is the first of bytes that begin with no record. Or the reader failed. Or memory was refused, and
        // then the feed had too little room.
        ensures fault { IfErr result (λ fault. feed.old.feed.outcome ≡ None → fault ≢ FeedFault.Read → fault ≢ FeedFault.Memory
            → HasFault feed.old.feed.version (R.remaining reader.old) fault) }
        ensures memory { result ≡ Err FeedFault.Memory → feed.old.feed.outcome ≡ None
            → TakesWhereMemoryEnds feed.old.room feed.old.feed.version (R.remaining reader.old) (R.remaining reader.new) }

        ensures room { feed.old.room.payload ≤ feed.new.room.payload }

        // The end and each fault stay.
        ensures ends { IfOk result (λ found. IfNone found (feed.new.feed.outcome ≡ Some (Ok tt))) }
        ensures fails { IfErr result (λ fault. feed.new.feed.outcome ≡ Some (Err fault)) }
        ensures stays { IfSome feed.old.feed.outcome (λ outcome. (result ≡ answer_at outcome)
            × (feed.new ≡ feed.old) × (reader.new ≡ reader.old)) };
}

/// Of this reader nothing is known to be at hand.
#[derive(Clone, Copy, Debug, PartialEq, Eq)]
pub struct Unknown;

impl<R: Read> Ahead<R> for Unknown {
    ghost at_hand = { λ _. ⊥ };

    fn has_record(_: &R) -> bool {
        false
    }

    fn next_record(feed: &mut Feed, reader: &mut R) -> Result<Option<Record>, FeedFault> {
        feed.next(reader)
    }
}

/// What was read ahead is at hand.
#[derive(Clone, Copy, Debug, PartialEq, Eq)]
pub struct Buffered;

impl<R: Read> Ahead<BufReader<R>> for Buffered {
    ghost at_hand = { λ reader. BeginsWithRecord (reader_buffer reader) };

    fn has_record(reader: &BufReader<R>) -> bool {
        begins_with_record(reader.buffer())
    }

    fn next_record(
        feed: &mut Feed,
        reader: &mut BufReader<R>,
    ) -> Result<Option<Record>, FeedFault> {
        feed.next_at_hand(reader)
    }
}

/// Whether the bytes begin with a whole record. An announcement is none, since a record is read after it.
fn begins_with_record(bytes: &[u8]) -> bool
    ensures { IsTrue result → BeginsWithRecord bytes.now }
{
    if bytes.len() < HEAD {
        return false;
    }
    let (kind, rest) = take_u8(bytes);
    let (length, rest) = take_u32(rest);
    kind != ANNOUNCEMENT && length as usize <= rest.len()
}
