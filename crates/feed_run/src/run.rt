//! A run over a feed, one record at a time.
ghost use Rattle.std.specs.Prelude.{◌≡◌, ◌<◌, ◌≤◌, ◌+◌, ◌^◌, ℕ, List, IfOk, IfErr, IfSome, IfNone, None, Some, Ok, Err};
ghost use Rattle.feed_run.specs.Run.{RunState, streams, streams_to, Steps, EndsOne, StopsBy, answer_at, most_records, steps_of};

use crate::ahead::{Ahead, Unknown};
use crate::answering::answer;
use crate::flushing::flush_waiting;
use crate::next::{MOST_RECORDS, Outcome, answer_at, next_for};
use feed_codec::Feed;
use feed_records::Record;
use feed_replies::{Reply, RunFault, Tally};
use feed_runner::{Counts, Replies, Runner};
use std::alloc::Global;
use std::io::{Read, Write};
use std::marker::Model;

/// A run over a feed. What a contract sees of it is the version of the feed, once it is known, how many
/// records it has taken, the counts of their commands, and how it has ended, if it has.
#[derive(Debug, Drop)]
pub struct FeedRun {
    feed: Feed,
    records: u64,
    counts: Counts,
    outcome: Option<Outcome>,
}

impl Model for FeedRun {
    ghost use Rattle.std.specs.Prelude.{◌≡◌, ◌≤◌, ◌+◌, None};
    ghost use Rattle.feed_run.specs.Run.{RunState};

    ghost Value = { RunState };

    ghost view = { λ run. record { version = run.feed.feed.version; records = run.records; counts = run.counts; outcome = run.outcome } };

    ghost invariant = { λ run. (run.records ≤ 4294967295) × (run.counts.commands ≤ run.records)
        × (run.counts.kept + run.counts.waiting ≤ run.counts.commands) × (run.outcome ≡ None → run.feed.feed.outcome ≡ None) };
}

impl FeedRun {
    /// A run that hasn't begun. It takes no memory.
    pub fn new(alloc: Global) -> Self
        ensures { result ≡ record { version = None; records = 0; counts = record { commands = 0; kept = 0; waiting = 0 }; outcome = None } }
    {
        FeedRun {
            feed: Feed::new(alloc),
            records: 0,
            counts: Counts {
                commands: 0,
                kept: 0,
                waiting: 0,
            },
            outcome: None,
        }
    }

    /// Reads the next record, runs it, writes the line of its reply, and returns the reply. If no further record is
    /// run and something waits, it flushes that and returns the flush's reply; only the step after it returns the end
    /// or the fault. After the end or a fault the answer stays, and nothing is read, run or written.
    pub fn step<T: Runner, R: Read, P: Write, W: Write>(
        &mut self,
        runner: &mut T,
        reader: &mut R,
        pages: &mut P,
        replies: &mut W,
    ) -> Result<Option<Reply>, RunFault>
        requires { T.counted runner.old < 2 ^ 63 }
        ensures replied { (before : T.State) → T.is_in before runner.old → self.old.outcome ≡ None → IfOk result (λ found. IfSome found (λ reply.
            (after : T.State) × T.is_in after runner.new
            × Steps T.answers T.held_in (streams (R.remaining reader.old) (P.contents pages.old) (W.contents replies.old))
            (streams (R.remaining reader.new) (P.contents pages.new) (W.contents replies.new)) self.old self.new before after reply)) }
        ensures end { (before : T.State) → T.is_in before runner.old → self.old.outcome ≡ None → IfOk result (λ found. IfNone found (
            (after : T.State) × T.is_in after runner.new
            × EndsOne T.held_in (Ok tt) (streams (R.remaining reader.old) (P.contents pages.old) (W.contents replies.old))
            (streams (R.remaining reader.new) (P.contents pages.new) (W.contents replies.new)) self.old.version self.old.records before after)) }
        ensures stopped { (before : T.State) → T.is_in before runner.old → self.old.outcome ≡ None → IfErr result (λ fault.
            (after : T.State) × T.is_in after runner.new
            × StopsBy T.answers T.held_in fault (streams (R.remaining reader.old) (P.contents pages.old) (W.contents replies.old))
            (streams (R.remaining reader.new) (P.contents pages.new) (W.contents replies.new)) self.old.version self.old.records before after) }

        // The end and each fault stay.
        ensures ends { IfOk result (λ found. IfNone found ((self.new.outcome ≡ Some (Ok tt)) × (self.new.counts ≡ self.old.counts))) }
        ensures fails { IfErr result (λ fault. self.new.outcome ≡ Some (Err fault)) }
        ensures stays { IfSome self.old.outcome (λ outcome. (result ≡ answer_at outcome) × (self.new ≡ self.old)
            × (runner.new ≡ runner.old) × (reader.new ≡ reader.old) × (pages.new ≡ pages.old) × (replies.new ≡ replies.old)) }

        // A run has an end.
        ensures moves { IfOk result (λ found. IfSome found (λ reply. (steps_of self.old ≤ most_records)
            × (steps_of self.new ≡ steps_of self.old + 1))) }
        ensures count { T.counted runner.new ≤ T.counted runner.old + 1 }
    {
        self.step_for::<Unknown, T, R, P, W>(runner, reader, pages, replies)
    }

    /// The same with any taker of replies. Before more of the feed may be waited for, and at the run's end, what waits
    /// with it goes out. If it wants no further record, the run ends as at the end of the feed.
    pub fn step_for<A: Ahead<R>, T: Runner, R: Read, P: Write, S: Replies>(
        &mut self,
        runner: &mut T,
        reader: &mut R,
        pages: &mut P,
        replies: &mut S,
    ) -> Result<Option<Reply>, RunFault>
        requires { T.counted runner.old < 2 ^ 63 }
        ensures replied { (before : T.State) → T.is_in before runner.old → self.old.outcome ≡ None → IfOk result (λ found. IfSome found (λ reply.
            (after : T.State) × T.is_in after runner.new
            × Steps T.answers T.held_in (streams_to (R.remaining reader.old) (P.contents pages.old) (S.lines replies.old) S.waits (S.enough replies.old))
            (streams_to (R.remaining reader.new) (P.contents pages.new) (S.lines replies.new) S.waits (S.enough replies.new)) self.old self.new before after reply)) }
        ensures end { (before : T.State) → T.is_in before runner.old → self.old.outcome ≡ None → IfOk result (λ found. IfNone found (
            (after : T.State) × T.is_in after runner.new
            × EndsOne T.held_in (Ok tt) (streams_to (R.remaining reader.old) (P.contents pages.old) (S.lines replies.old) S.waits (S.enough replies.old))
            (streams_to (R.remaining reader.new) (P.contents pages.new) (S.lines replies.new) S.waits (S.enough replies.new)) self.old.version self.old.records before after)) }
        ensures stopped { (before : T.State) → T.is_in before runner.old → self.old.outcome ≡ None → IfErr result (λ fault.
            (after : T.State) × T.is_in after runner.new
            × StopsBy T.answers T.held_in fault (streams_to (R.remaining reader.old) (P.contents pages.old) (S.lines replies.old) S.waits (S.enough replies.old))
            (streams_to (R.remaining reader.new) (P.contents pages.new) (S.lines replies.new) S.waits (S.enough replies.new)) self.old.version self.old.records before after) }

        // The end and each fault stay.
        ensures ends { IfOk result (λ found. IfNone found ((self.new.outcome ≡ Some (Ok tt)) × (self.new.counts ≡ self.old.counts))) }
        ensures fails { IfErr result (λ fault. self.new.outcome ≡ Some (Err fault)) }
        ensures stays { IfSome self.old.outcome (λ outcome. (result ≡ answer_at outcome) × (self.new ≡ self.old)
            × (runner.new ≡ runner.old) × (reader.new ≡ reader.old) × (pages.new ≡ pages.old) × (replies.new ≡ replies.old)) }

        // A run has an end.
        ensures moves { IfOk result (λ found. IfSome found (λ reply. (steps_of self.old ≤ most_records)
            × (steps_of self.new ≡ steps_of self.old + 1))) }
        ensures count { T.counted runner.new ≤ T.counted runner.old + 1 }
    {
        if let Some(outcome) = self.outcome {
            return answer_at(outcome);
        }
        let outcome = match next_for::<A, R, P, S>(&mut self.feed, reader, pages, replies) {
            Ok(Some(given)) if self.records < MOST_RECORDS => {
                return match answer(&mut self.feed, self.counts, given, runner, pages, replies) {
                    Ok((reply, counts)) => {
                        self.records += 1;
                        self.counts = counts;
                        Ok(Some(reply))
                    }
                    Err(_) => {
                        self.outcome = Some(Err(RunFault::Write));
                        Err(RunFault::Write)
                    }
                };
            }
            Ok(Some(_)) => Err(RunFault::TooMany),
            Ok(None) => Ok(()),
            Err(fault) => Err(RunFault::Feed(fault)),
        };
        self.outcome = Some(outcome);
        match flush_waiting(runner, pages, replies) {
            Ok(Some(reply)) => {
                self.counts = self.counts.with(&Record::Flush, reply);
                Ok(Some(reply))
            }
            Ok(None) => answer_at(outcome),
            Err(_) => {
                self.outcome = Some(Err(RunFault::Write));
                Err(RunFault::Write)
            }
        }
    }

    /// The result of the run, if what was kept has this length.
    pub fn tally(&self, end: u64) -> Tally
        ensures commands { result.commands ≡ self.now.counts.commands }
        ensures kept { result.kept ≡ self.now.counts.kept }
        ensures end { result.end ≡ end }
        ensures adds_up { result.kept + result.refused ≡ result.commands }
    {
        self.counts.tally(end)
    }
}
