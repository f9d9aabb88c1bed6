//! A hub runs the records of a feed.
ghost use Rattle.std.specs.Prelude.{[]};
ghost use Rattle.feed_records.specs.declared.item.Record.{Record as RecordOf};
ghost use Rattle.serve_hub.specs.Running.{Answers, IsIn, Progress, RepliesIn};

use crate::hub::Hub;
use chain_rules::Command;
use disk_model::Disk;
use feed_replies::Reply;
use feed_runner::Runner;
use file_recorder::{reply_to, reply_to_flush};
use ogg_page::WriteFault;
use std::io::Write;

impl<D: Disk> Hub<D> {
    /// Records a command, as [`Hub::command`] does, and returns the reply that says what became of it.
    pub fn answer(&mut self, command: &Command) -> Reply
        ensures answers { (before : Progress D) → IsIn D.Disk before self.old → (after : Progress D)
            × Answers D.Disk before (RecordOf.Command command.now) result [] after × IsIn D.Disk after self.new }
        // Whatever the disk.
        ensures replied { RepliesIn self.old.file (RecordOf.Command command.now) result self.new.file }
    {
        let answer = self.command(command);
        reply_to(answer)
    }
}

/// Pages go only to the disk, and each reply says what became of the command or the flush.
impl<D: Disk> Runner for Hub<D> {
    ghost use Rattle.serve_hub.specs.Running.{Progress, IsIn, Answers, waiting_in, end_in};

    ghost State = { Progress D };

    ghost is_in = { IsIn D.Disk };

    ghost answers = { Answers D.Disk };

    ghost held_in = { waiting_in };

    ghost end_in = { end_in };

    ghost counted = { λ hub. 0 };

    fn run_command<P: Write>(
        &mut self,
        command: &Command,
        _pages: &mut P,
    ) -> Result<Reply, WriteFault> {
        Ok(self.answer(command))
    }

    fn run_flush(&mut self) -> Reply
        ensures answers { (before : Progress D) → IsIn D.Disk before self.old → (after : Progress D)
            × Answers D.Disk before RecordOf.Flush result [] after × IsIn D.Disk after self.new }
        // Whatever the disk.
        ensures replied { RepliesIn self.old.file RecordOf.Flush result self.new.file }
    {
        let answer = self.flush();
        reply_to_flush(answer)
    }

    fn waiting(&self) -> u64 {
        self.held()
    }

    fn kept_length(&self) -> u64 {
        self.end()
    }
}
