//! A recorder runs the records of a feed.
ghost use Rattle.std.specs.Prelude.{◌≡◌, []};
ghost use Rattle.feed_records.specs.declared.item.Record.{Record as RecordOf};
ghost use Rattle.file_recorder.specs.Running.{Progress, Answers, Replies, reply_of, reply_of_flush};

use crate::{Outcome, Recorder};
use chain_rules::{Command, Refusal, refusals_are_of_the_table};
use disk_model::Disk;
use feed_replies::{Kept, Reply};
use feed_runner::Runner;
use ogg_page::WriteFault;
use std::io::Write;

/// The reply that says what became of a command.
pub fn reply_to(answer: Result<Outcome, Refusal>) -> Reply
    ensures { result ≡ reply_of answer }
{
    match answer {
        Ok(Outcome::Held(count)) => Reply::Held(count),
        Ok(Outcome::Kept(kept)) => Reply::Kept(kept),
        Err(refusal) => Reply::Refused(refusal),
    }
}

/// The reply that says what became of a flush.
pub fn reply_to_flush(answer: Result<Kept, Refusal>) -> Reply
    ensures { result ≡ reply_of_flush answer }
{
    match answer {
        Ok(kept) => Reply::Kept(kept),
        Err(refusal) => Reply::Refused(refusal),
    }
}

impl<D: Disk> Recorder<D> {
    /// Records a command, and returns the reply that says what became of it.
    #[inline(always)]
    pub(crate) fn answer(&mut self, command: &Command) -> Reply
        ensures answers { (before : Progress D) → before.now ≡ self.old → (after : Progress D)
            × Answers D.Disk before (RecordOf.Command command.now) result [] after × (after.now ≡ self.new) }
        ensures replies { Replies self.old (RecordOf.Command command.now) result self.new }
    {
        // For the proof alone.
        refusals_are_of_the_table();
        let answer = self.command(command);
        reply_to(answer)
    }
}

/// Pages go only to the disk, and each reply says what became of the command or the flush.
impl<D: Disk> Runner for Recorder<D> {
    ghost use Rattle.std.specs.Prelude.{◌≡◌};
    ghost use Rattle.file_recorder.specs.Running.{Progress, Answers, waiting_in, end_in};

    ghost State = { Progress D };

    ghost is_in = { λ before recorder. before.now ≡ recorder };

    ghost answers = { Answers D.Disk };

    ghost held_in = { waiting_in };

    ghost end_in = { end_in };

    ghost counted = { λ recorder. 0 };

    #[inline(always)]
    fn run_command<P: Write>(
        &mut self,
        command: &Command,
        _pages: &mut P,
    ) -> Result<Reply, WriteFault> {
        Ok(self.answer(command))
    }

    fn run_flush(&mut self) -> Reply {
        let answer = self.flush();
        reply_to_flush(answer)
    }

    fn waiting(&self) -> u64 {
        self.held()
    }

    fn kept_length(&self) -> u64 {
        self.end()
    }
}
