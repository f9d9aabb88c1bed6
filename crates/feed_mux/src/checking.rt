//! The check of a feed, which writes its replies and makes no page.
ghost use Rattle.std.specs.Prelude.{◌≡◌, ◌<◌, ◌≤◌, ◌^◌, ◌+◌, None, ℕ, List, IfOk, IfErr};
ghost use Rattle.chain_rules.specs.Shape.{HasRoom};
ghost use Rattle.feed_run.specs.Run.{RunsWhole, EndsBy, streams, streams_to};
ghost use Rattle.feed_mux.specs.Checking.{ChecksRecord};
ghost use Rattle.feed_mux.specs.Progress.{Progress, Answers, at_start, end_of, nothing_held};
ghost use Rattle.feed_mux.specs.Reached.{HasReached};

use chain_rules::{Command, Plan, Refusal, Shape, refusals_are_of_the_table};
use feed_replies::{Kept, Reply, RunFault, Tally};
use feed_run::{Ahead, Unknown, run_feed_for};
use feed_runner::{Replies, Runner};
use ogg_page::WriteFault;
use std::alloc::Global;
use std::io::{self, Read, Sink, Write};

/// Adds a command to the chain, counts it, and returns the reply. A refusal leaves the chain and the count as they
/// are. No page is made: `Shape::plan` finds how long the command's pages would be. `plan` is room, used again for each
/// command.
fn check_command(shape: &mut Shape, count: &mut u64, command: &Command, plan: &mut Plan) -> Reply
    requires { count.old < 2 ^ 63 }
    ensures reply { (before : Progress) → HasReached shape.old.chain count.old before →
        (own : List ℕ) × (behind : Progress) × Answers before command.now result own behind
        × HasReached shape.new.chain count.new behind }
    ensures count { count.new ≤ count.old + 1 }

    // Memory is short only if there is no room for what the command adds.
    ensures full { result ≡ Reply.Refused Refusal.Memory → HasRoom shape.old command.now → ⊥ }
{
    // For the proof alone.
    refusals_are_of_the_table();
    match shape.plan(command, plan) {
        Ok(_) => {}
        Err(refusal) => return Reply::Refused(refusal),
    }
    match shape.prepare(command) {
        Ok(()) => {}
        Err(_) => return Reply::Refused(Refusal::Memory),
    }
    shape.accept_plan(command, plan);
    *count += 1;
    Reply::Kept(Kept {
        count: *count,
        end: shape.len(),
    })
}

/// The chain of the links that the commands would make, and the number of these commands.
#[derive(Debug, Drop)]
pub struct Checker {
    shape: Shape,
    count: u64,
    // what one command makes of the chain
    plan: Plan,
}

impl Checker {
    /// No command has come yet. No memory is taken.
    fn new(alloc: Global) -> Self
        ensures reached { HasReached result.shape.chain result.count at_start }
        ensures count { result.count ≡ 0 }
    {
        Checker {
            shape: Shape::new(alloc),
            count: 0,
            plan: Plan::new(),
        }
    }
}

impl Runner for Checker {
    ghost State = { Progress };

    ghost is_in = { λ progress checker. HasReached checker.shape.chain checker.count progress };

    ghost answers = { ChecksRecord };

    ghost held_in = { nothing_held };

    ghost end_in = { end_of };

    ghost counted = { λ checker. checker.count };

    fn run_command<P: Write>(&mut self, command: &Command, _: &mut P) -> Result<Reply, WriteFault> {
        Ok(check_command(&mut self.shape, &mut self.count, command, &mut self.plan))
    }

    fn run_flush(&mut self) -> Reply {
        Reply::Kept(Kept {
            count: self.count,
            end: self.shape.len(),
        })
    }

    fn waiting(&self) -> u64 {
        0
    }

    fn kept_length(&self) -> u64 {
        self.shape.len()
    }
}

/// Runs the records of a feed as `mux` does, from no links on, but makes no page: a reply says how long the pages so
/// far would be. The line of each reply is written to `replies` before the next record is read.
///
/// `check_feed` returns the counts at the end of the feed, and stops at the first fault, as `mux` does. `Feed` is a
/// fault of the feed, and everything before it is written. `Write` says that `replies` has failed, and then a prefix
/// of the last line is written. `TooMany` says that a record follows 4,294,967,295 others, which isn't run.
pub fn check_feed<R: Read, W: Write>(
    alloc: Global,
    reader: &mut R,
    replies: &mut W,
) -> Result<Tally, RunFault>
    ensures ok { IfOk result (λ tally. (behind : Progress)
        × RunsWhole ChecksRecord nothing_held (streams (R.remaining reader.old) None (W.contents replies.old))
        (streams (R.remaining reader.new) None (W.contents replies.new)) at_start behind (end_of behind) tally) }
    ensures err { IfErr result (λ fault. (behind : Progress)
        × EndsBy ChecksRecord nothing_held fault (streams (R.remaining reader.old) None (W.contents replies.old))
        (streams (R.remaining reader.new) None (W.contents replies.new)) at_start behind) }
{
    check_feed_for::<Unknown, R, W>(alloc, reader, replies)
}

/// The same with any taker of replies. If it wants no further record, the run ends as at the end of the feed. Before
/// more of the feed may be waited for, and at the end, what waits with it goes out.
pub fn check_feed_for<A: Ahead<R>, R: Read, S: Replies>(
    alloc: Global,
    reader: &mut R,
    replies: &mut S,
) -> Result<Tally, RunFault>
    ensures ok { IfOk result (λ tally. (behind : Progress)
        × RunsWhole ChecksRecord nothing_held (streams_to (R.remaining reader.old) None (S.lines replies.old) S.waits (S.enough replies.old))
        (streams_to (R.remaining reader.new) None (S.lines replies.new) S.waits (S.enough replies.new)) at_start behind (end_of behind) tally) }
    ensures err { IfErr result (λ fault. (behind : Progress)
        × EndsBy ChecksRecord nothing_held fault (streams_to (R.remaining reader.old) None (S.lines replies.old) S.waits (S.enough replies.old))
        (streams_to (R.remaining reader.new) None (S.lines replies.new) S.waits (S.enough replies.new)) at_start behind) }
{
    let mut checker = Checker::new(alloc);
    let mut none = io::sink();
    run_feed_for::<A, Checker, R, Sink, S>(alloc, &mut checker, reader, &mut none, replies)
}
