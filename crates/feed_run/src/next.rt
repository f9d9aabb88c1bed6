//! What comes next in a feed.
ghost use Rattle.std.specs.Prelude.{◌≡◌, None, true};
ghost use Rattle.feed_run.specs.Run.{Comes, answer_at};
ghost use Rattle.feed_runner.specs.Telling.{Stays};

use crate::ahead::Ahead;
use feed_codec::Feed;
use feed_records::Record;
use feed_replies::{FeedFault, Reply, RunFault};
use feed_runner::Replies;
use std::io::{Read, Write};

/// How many records a run takes. The announcement of a feed's version isn't counted.
pub const MOST_RECORDS: u64 = 4_294_967_295;

/// How a run has ended: at the feed's end, or by a fault.
pub type Outcome = Result<(), RunFault>;

/// Reads the next record for a run with a taker of replies. Before more of the feed may be waited for, what waits goes
/// out; and if no further record is wanted, none is read.
pub fn next_for<A: Ahead<R>, R: Read, P: Write, S: Replies>(
    feed: &mut Feed,
    reader: &mut R,
    pages: &mut P,
    replies: &mut S,
) -> Result<Option<Record>, FeedFault>
    requires { feed.old.feed.outcome ≡ None }
    ensures next { Comes result feed.old.feed feed.new.feed (S.enough replies.new) (R.remaining reader.old) (R.remaining reader.new) }
    ensures pages { Stays S.waits (P.contents pages.old) (P.contents pages.new) }
    ensures lines { Stays S.waits (S.lines replies.old) (S.lines replies.new) }
    ensures enough { S.enough replies.old ≡ true → S.enough replies.new ≡ true }
    // The reader isn't waited for while something waits.
    ensures sent { (A.at_hand reader.old → ⊥) → S.is_out replies.new }
{
    if !A::has_record(reader) {
        replies.ready(pages);
    }
    if replies.has_enough() {
        return Ok(None);
    }
    A::next_record(feed, reader)
}

/// What a run answers if it has ended with this outcome.
pub fn answer_at(outcome: Outcome) -> Result<Option<Reply>, RunFault>
    ensures { result ≡ answer_at outcome }
{
    match outcome {
        Ok(()) => Ok(None),
        Err(fault) => Err(fault),
    }
}
