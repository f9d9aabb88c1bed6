//! Runs over feeds by a runner that holds commands in groups.
use crate::feeds::fakes::FakeWriter;
use crate::feeds::{BEGIN, END, FLUSH, PUT};
use crate::files::joined;
use feed_codec::{FeedFault, Kept, Reply, RunFault};
use feed_run::*;
use feed_runner::*;
use ogg_command::{Command, Refusal};
use ogg_page::WriteFault;
use std::alloc::Global;
use std::io;
use std::io::Write;
use std::test::Fail;

/// Holds commands and keeps them in groups of `most`. After `good` commits its disk fails.
#[derive(Drop)]
struct Grouping {
    most: u64,
    good: u64,
    failed: bool,
    count: u64,
    held: u64,
    staged: u64,
    end: u64,
}

impl Grouping {
    fn new(most: u64, good: u64) -> Grouping {
        Grouping {
            most,
            good,
            failed: false,
            count: 0,
            held: 0,
            staged: 0,
            end: 0,
        }
    }

    fn commit(&mut self) -> Reply {
        let staged = self.staged;
        self.held = 0;
        self.staged = 0;
        if self.good == 0 {
            self.failed = true;
            return Reply::Refused(Refusal::Disk);
        }
        self.good -= 1;
        self.end = self.end.saturating_add(staged);
        Reply::Kept(Kept {
            count: self.count,
            end: self.end,
        })
    }

    fn take(&mut self, command: &Command) -> Reply {
        if self.failed {
            return Reply::Refused(Refusal::Failed);
        }
        let size = match command {
            Command::Begin(_) => 31,
            Command::Put(_) => 33,
            Command::End(_) => 27,
        };
        self.staged = self.staged.saturating_add(size);
        self.count = self.count.saturating_add(1);
        self.held = self.held.saturating_add(1);
        if self.held < self.most {
            Reply::Held(self.count)
        } else {
            self.commit()
        }
    }
}

impl Runner for Grouping {
    ghost use Rattle.std.specs.Prelude.{◌≡◌, [], ⊤};
    ghost use Rattle.test_formats.specs.declared.running.Grouping.{Grouping as GroupingOf};

    ghost State = { GroupingOf };

    ghost is_in = { λ state runner. runner ≡ state };

    ghost answers = { λ before given reply own after. own ≡ [] };

    ghost held_in = { λ state. state.held };

    ghost end_in = { λ state. state.end };

    ghost counted = { λ runner. 0 };

    fn run_command<P: Write>(
        &mut self,
        command: &Command,
        _pages: &mut P,
    ) -> Result<Reply, WriteFault> {
        Ok(self.take(command))
    }

    fn run_flush(&mut self) -> Reply {
        if self.failed {
            Reply::Refused(Refusal::Failed)
        } else {
            self.commit()
        }
    }

    fn waiting(&self) -> u64 {
        self.held
    }

    fn kept_length(&self) -> u64 {
        self.end
    }
}

/// The result of a run: commands, kept, refused, and the length.
type Came = (u64, u64, u64, u64);

/// A feed in pieces, how many commands a group takes, how many commits go well, the reply lines, and the run's result.
const RUNS: [(&[&[u8]], u64, u64, &str, Result<Came, RunFault>); 8] = [
    (&[], 8, 9, "", Ok((0, 0, 0, 0))),
    (&[&FLUSH], 8, 9, "kept 0 0\n", Ok((0, 0, 0, 0))),
    (
        &[&BEGIN, &PUT, &END],
        1,
        9,
        "kept 1 31\nkept 2 64\nkept 3 91\n",
        Ok((3, 3, 0, 91)),
    ),
    (
        &[&BEGIN, &PUT, &END],
        3,
        9,
        "held 1\nheld 2\nkept 3 91\n",
        Ok((3, 3, 0, 91)),
    ),
    // A flush keeps what waits, and so does the end.
    (
        &[&BEGIN, &PUT, &FLUSH, &END],
        8,
        9,
        "held 1\nheld 2\nkept 2 64\nheld 3\nkept 3 91\n",
        Ok((3, 3, 0, 91)),
    ),
    // A fault of the feed keeps what waits too.
    (
        &[&BEGIN, b"\x02\x17\0\0\0\x01\0\x01"],
        8,
        9,
        "held 1\nkept 1 31\n",
        Err(RunFault::Feed(FeedFault::Truncated)),
    ),
    // If the disk fails, what waits is lost, and isn't flushed again.
    (
        &[&BEGIN, &PUT, &END],
        2,
        0,
        "held 1\nrefused 21 Disk\nrefused 1 Failed\n",
        Ok((3, 0, 3, 0)),
    ),
    (
        &[&BEGIN, &PUT, &END],
        8,
        0,
        "held 1\nheld 2\nheld 3\nrefused 21 Disk\n",
        Ok((3, 0, 3, 0)),
    ),
];

/// What a run over these bytes answers.
fn ran<W: Write>(
    alloc: Global,
    runner: &mut Grouping,
    mut feed: &[u8],
    replies: &mut W,
) -> Result<Came, RunFault> {
    let tally = run_feed(alloc, runner, &mut feed, &mut io::sink(), replies)?;
    Ok((tally.commands, tally.kept, tally.refused, tally.end))
}

#[test]
fn what_waits_is_kept_by_its_group_or_a_flush_or_at_the_end(rt: HostRuntime) -> Result<(), Fail> {
    for &(pieces, most, good, lines, came) in &RUNS {
        let feed = joined(rt.alloc(), pieces)?;
        let mut runner = Grouping::new(most, good);
        let mut replies = Vec::new(rt.alloc());
        assert!(rt; ran(rt.alloc(), &mut runner, &feed, &mut replies) == came);
        assert!(rt; replies.as_slice() == lines.as_bytes());
    }
    Ok(())
}

#[test]
fn a_writer_that_fails_ends_the_run_and_nothing_is_flushed(rt: HostRuntime) -> Result<(), Fail> {
    let feed = joined(rt.alloc(), &[&BEGIN, &PUT, &END])?;
    let mut runner = Grouping::new(8, 9);
    let mut replies = FakeWriter::new(Vec::new(rt.alloc()), 64, 2);
    let found = ran(rt.alloc(), &mut runner, &feed, &mut replies);
    assert!(rt; found == Err(RunFault::Write), "the second line is written");
    assert!(rt; (replies.written(), replies.calls()) == (b"held 1\n".as_slice(), 2));
    assert!(rt; (runner.held, runner.end) == (2, 0));
    Ok(())
}

/// What the steps over three commands reply: one more keeps what waits, and then the run is at its end.
const STEPS: [Option<Reply>; 6] = [
    Some(Reply::Held(1)),
    Some(Reply::Held(2)),
    Some(Reply::Held(3)),
    Some(Reply::Kept(Kept { count: 3, end: 91 })),
    None,
    None,
];

#[test]
fn the_step_after_the_flush_is_the_end_and_it_stays(rt: HostRuntime) -> Result<(), Fail> {
    let feed = joined(rt.alloc(), &[&BEGIN, &PUT, &END])?;
    let mut runner = Grouping::new(8, 9);
    let mut run = FeedRun::new(rt.alloc());
    let mut reader = feed.as_slice();
    let mut replies = Vec::new(rt.alloc());
    for &reply in &STEPS {
        let found = run.step(&mut runner, &mut reader, &mut io::sink(), &mut replies);
        assert!(rt; found == Ok(reply), "a step gives another reply");
    }
    assert!(rt; replies.as_slice() == b"held 1\nheld 2\nheld 3\nkept 3 91\n".as_slice());
    Ok(())
}
