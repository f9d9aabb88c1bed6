//! The counts of a run.
ghost use Rattle.std.specs.Prelude.{◌≡◌, ◌≤◌, ◌<◌, ◌+◌, ◌^◌};
ghost use Rattle.feed_runner.specs.Counting.{counts_with, left_by};
ghost use Rattle.feed_records.specs.declared.item.Record.{Record as RecordOf};

use feed_records::Record;
use feed_replies::{Reply, Tally};
use ogg_command::Refusal;

/// The commands of a run: how many there were, how many of them were kept, and how many wait.
#[derive(Clone, Copy, Debug, PartialEq, Eq)]
pub struct Counts {
    pub commands: u64,
    pub kept: u64,
    pub waiting: u64,
}

impl Counts {
    /// The counts with one more record.
    pub fn with(self, given: &Record, reply: Reply) -> Counts
        requires adds_up { self.kept + self.waiting ≤ self.commands }
        requires few { self.commands < 2 ^ 63 }
        ensures { result ≡ counts_with self given.now reply }
    {
        let (commands, own) = match given {
            Record::Command(_) => (self.commands + 1, 1),
            Record::Flush => (self.commands, 0),
        };
        let waiting = self.waiting + own;
        match reply {
            Reply::Kept(_) => Counts {
                commands,
                kept: self.kept + waiting,
                waiting: 0,
            },
            Reply::Held(_) => Counts {
                commands,
                waiting,
                ..self
            },
            // What waited is lost.
            Reply::Refused(Refusal::Failed | Refusal::Disk) => Counts {
                commands,
                waiting: 0,
                ..self
            },
            Reply::Refused(_) => Counts { commands, ..self },
        }
    }

    /// The result of a run with these counts, if what was kept has this length.
    pub fn tally(self, end: u64) -> Tally
        requires { self.kept ≤ self.commands }
        ensures commands { result.commands ≡ self.commands }
        ensures kept { result.kept ≡ self.kept }
        ensures end { result.end ≡ end }
    {
        Tally {
            commands: self.commands,
            kept: self.kept,
            refused: self.commands - self.kept,
            end,
        }
    }
}
