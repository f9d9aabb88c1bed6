//! The run over a whole feed.
ghost use Rattle.std.specs.Prelude.{◌≡◌, IfOk, IfErr};
ghost use Rattle.feed_run.specs.Run.{RunsWhole, EndsBy, streams, streams_to};
ghost use Rattle.feed_mux.specs.Progress.{Progress, AnswersRecord, at_start, end_of, nothing_held};
ghost use Rattle.feed_mux.specs.Reached.{HasReached};

use crate::answering::answer;
use chain_rules::{Command, Plan, Shape};
use feed_replies::{Kept, Reply, RunFault, Tally};
use feed_run::{Ahead, Unknown, run_feed_for};
use feed_runner::{Replies, Runner};
use ogg_page::WriteFault;
use std::alloc::Global;
use std::io::{Read, Write};

/// The chain of the links that the commands have made, and the number of these commands.
#[derive(Debug, Drop)]
pub struct Multiplexer {
    shape: Shape,
    count: u64,
    // what one command makes of the chain, and its pages
    plan: Plan,
    bytes: Vec<u8>,
}

impl Multiplexer {
    /// No command has come yet. No memory is taken.
    fn new(alloc: Global) -> Self
        ensures reached { HasReached result.shape.chain result.count at_start }
        ensures count { result.count ≡ 0 }
    {
        Multiplexer {
            shape: Shape::new(alloc),
            count: 0,
            plan: Plan::new(),
            bytes: Vec::new(alloc),
        }
    }
}

impl Runner for Multiplexer {
    ghost State = { Progress };

    ghost is_in = { λ progress multiplexer. HasReached multiplexer.shape.chain multiplexer.count progress };

    ghost answers = { AnswersRecord };

    ghost held_in = { nothing_held };

    ghost end_in = { end_of };

    ghost counted = { λ multiplexer. multiplexer.count };

    fn run_command<P: Write>(
        &mut self,
        command: &Command,
        pages: &mut P,
    ) -> Result<Reply, WriteFault> {
        answer(
            &mut self.shape,
            &mut self.count,
            command,
            &mut self.plan,
            &mut self.bytes,
            pages,
        )
    }

    fn run_flush(&mut self) -> Reply {
        Reply::Kept(Kept {
            count: self.count,
            end: self.shape.len(),
        })
    }

    fn waiting(&self) -> u64 {
        0
    }

    fn kept_length(&self) -> u64 {
        self.shape.len()
    }
}

/// Runs the records of a feed, from no links on. The pages of each command that isn't refused are
/// written to `pages`, and then the line of its reply to `replies`, before the next record is read. A
/// flush is answered by the last count and length, since nothing waits here; it isn't counted.
///
/// `mux` returns the counts at the end of the feed, and stops at the first fault. `Feed` is a fault of the feed, and
/// everything before it is written. `Write` says that one of the writers has failed, and then a prefix of what belongs
/// to the last command that was read is written. `TooMany` says that a record follows 4,294,967,295 others, which
/// isn't run.
pub fn mux<R: Read, P: Write, W: Write>(
    alloc: Global,
    reader: &mut R,
    pages: &mut P,
    replies: &mut W,
) -> Result<Tally, RunFault>
    ensures ok { IfOk result (λ tally. (behind : Progress)
        × RunsWhole AnswersRecord nothing_held (streams (R.remaining reader.old) (P.contents pages.old) (W.contents replies.old))
        (streams (R.remaining reader.new) (P.contents pages.new) (W.contents replies.new)) at_start behind (end_of behind) tally) }
    ensures err { IfErr result (λ fault. (behind : Progress)
        × EndsBy AnswersRecord nothing_held fault (streams (R.remaining reader.old) (P.contents pages.old) (W.contents replies.old))
        (streams (R.remaining reader.new) (P.contents pages.new) (W.contents replies.new)) at_start behind) }
{
    mux_for::<Unknown, R, P, W>(alloc, reader, pages, replies)
}

/// The same with any taker of replies. If it wants no further record, the run ends as at the end of the feed. Before
/// more of the feed may be waited for, and at the end, what waits with it goes out.
pub fn mux_for<A: Ahead<R>, R: Read, P: Write, S: Replies>(
    alloc: Global,
    reader: &mut R,
    pages: &mut P,
    replies: &mut S,
) -> Result<Tally, RunFault>
    ensures ok { IfOk result (λ tally. (behind : Progress)
        × RunsWhole AnswersRecord nothing_held (streams_to (R.remaining reader.old) (P.contents pages.old) (S.lines replies.old) S.waits (S.enough replies.old))
        (streams_to (R.remaining reader.new) (P.contents pages.new) (S.lines replies.new) S.waits (S.enough replies.new)) at_start behind (end_of behind) tally) }
    ensures err { IfErr result (λ fault. (behind : Progress)
        × EndsBy AnswersRecord nothing_held fault (streams_to (R.remaining reader.old) (P.contents pages.old) (S.lines replies.old) S.waits (S.enough replies.old))
        (streams_to (R.remaining reader.new) (P.contents pages.new) (S.lines replies.new) S.waits (S.enough replies.new)) at_start behind) }
{
    let mut multiplexer = Multiplexer::new(alloc);
    run_feed_for::<A, Multiplexer, R, P, S>(alloc, &mut multiplexer, reader, pages, replies)
}
