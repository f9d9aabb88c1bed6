//! The run over a whole feed.
ghost use Rattle.std.specs.Prelude.{◌≡◌, ◌<◌, ◌^◌, IfOk, IfErr};
ghost use Rattle.feed_run.specs.Run.{streams, streams_to, RunsWhole, EndsBy};

use crate::ahead::{Ahead, Unknown};
use crate::run::FeedRun;
use feed_replies::{RunFault, Tally};
use feed_runner::{Replies, Runner};
use std::alloc::Global;
use std::io::{Read, Write};

/// Runs the records of a feed. The pages of each command are written to `pages`, if the runner doesn't keep
/// them itself, and then the line of its reply to `replies`, before the next record is read.
///
/// At the end of the feed it flushes what waits, and returns the counts. It stops at the first fault. `Feed` is a
/// fault of the feed, and `TooMany` says that a record follows 4,294,967,295 others, and isn't run: in both cases
/// what waits is flushed, and everything before stands. `Write` says that a writer has failed, and then nothing is
/// flushed.
pub fn run_feed<T: Runner, R: Read, P: Write, W: Write>(
    alloc: Global,
    runner: &mut T,
    reader: &mut R,
    pages: &mut P,
    replies: &mut W,
) -> Result<Tally, RunFault>
    requires { T.counted runner.old < 2 ^ 62 }
    ensures ok { (before : T.State) → T.is_in before runner.old → IfOk result (λ tally. (after : T.State) × T.is_in after runner.new
        × RunsWhole T.answers T.held_in (streams (R.remaining reader.old) (P.contents pages.old) (W.contents replies.old))
        (streams (R.remaining reader.new) (P.contents pages.new) (W.contents replies.new)) before after (T.end_in after) tally) }
    ensures err { (before : T.State) → T.is_in before runner.old → IfErr result (λ fault. (after : T.State) × T.is_in after runner.new
        × EndsBy T.answers T.held_in fault (streams (R.remaining reader.old) (P.contents pages.old) (W.contents replies.old))
        (streams (R.remaining reader.new) (P.contents pages.new) (W.contents replies.new)) before after) }
{
    run_feed_for::<Unknown, T, R, P, W>(alloc, runner, reader, pages, replies)
}

/// The same with any taker of replies. If it wants no further record, the run ends as at the end of the feed. Before
/// more of the feed may be waited for, and at the end, what waits with it goes out.
pub fn run_feed_for<A: Ahead<R>, T: Runner, R: Read, P: Write, S: Replies>(
    alloc: Global,
    runner: &mut T,
    reader: &mut R,
    pages: &mut P,
    replies: &mut S,
) -> Result<Tally, RunFault>
    requires { T.counted runner.old < 2 ^ 62 }
    ensures ok { (before : T.State) → T.is_in before runner.old → IfOk result (λ tally. (after : T.State) × T.is_in after runner.new
        × RunsWhole T.answers T.held_in (streams_to (R.remaining reader.old) (P.contents pages.old) (S.lines replies.old) S.waits (S.enough replies.old))
        (streams_to (R.remaining reader.new) (P.contents pages.new) (S.lines replies.new) S.waits (S.enough replies.new)) before after (T.end_in after) tally) }
    ensures err { (before : T.State) → T.is_in before runner.old → IfErr result (λ fault. (after : T.State) × T.is_in after runner.new
        × EndsBy T.answers T.held_in fault (streams_to (R.remaining reader.old) (P.contents pages.old) (S.lines replies.old) S.waits (S.enough replies.old))
        (streams_to (R.remaining reader.new) (P.contents pages.new) (S.lines replies.new) S.waits (S.enough replies.new)) before after) }
{
    let mut run = FeedRun::new(alloc);
    loop {
        match run.step_for::<A, T, R, P, S>(runner, reader, pages, replies) {
            Ok(Some(_)) => {}
            Ok(None) => return Ok(run.tally(runner.kept_length())),
            Err(fault) => return Err(fault),
        }
    }
}
