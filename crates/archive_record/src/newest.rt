//! The newest file, which is recorded into.
ghost use Rattle.std.specs.Prelude.{◌≡◌, None};
ghost use Rattle.archive_record.specs.Changing.{takes_no_link};

use archive_folder::FileName;
use archive_times::Join;
use disk_model::Disk;
use feed_replies::Reply;
use feed_runner::Runner;
use file_recorder::Recorder;
use link_chain::{MOST_LINKS, is_open};
use ogg_command::Command;
use ogg_page::WriteFault;
use std::io::Write;

/// The newest file, and where its open link is joined. It answers commands as its recorder does.
#[derive(Drop)]
pub struct Newest<D: Disk> {
    pub(crate) name: FileName,
    pub(crate) recorder: Recorder<D>,
    // of the last link, if it was begun since the file was opened
    pub(crate) join: Option<Join>,
}

/// Where a link is joined that was begun by this command, if it was taken: its pages stand from `before` to `after`.
fn join_of(command: &Command, reply: Reply, before: u64, after: u64) -> Option<Join> {
    match (command, reply) {
        (Command::Begin(_), Reply::Held(_) | Reply::Kept(_)) => Some(Join {
            begin: before,
            begun: after,
        }),
        _ => None,
    }
}

impl<D: Disk> Newest<D> {
    /// A file that was opened or begun.
    pub(crate) fn on(name: FileName, recorder: Recorder<D>) -> Newest<D>
        ensures { result ≡ record { name = name; recorder = recorder; join = None } }
    {
        Newest {
            name,
            recorder,
            join: None,
        }
    }

    /// A file that was opened again: its last link is joined there, if it is open still.
    pub(crate) fn again(name: FileName, recorder: Recorder<D>, join: Option<Join>) -> Newest<D>
        ensures { result ≡ record { name = name; recorder = recorder; join = result.join } }
    {
        let join = if is_open(recorder.streams()) {
            join
        } else {
            None
        };
        Newest {
            name,
            recorder,
            join,
        }
    }

    /// Whether a link more would be refused, and none is open.
    pub(crate) fn is_full(&self) -> bool
        ensures { result ≡ takes_no_link self.now.recorder.chain }
    {
        self.recorder.links() >= MOST_LINKS && !is_open(self.recorder.streams())
    }

    /// Where the link that is open is joined, if one is and that is known.
    pub(crate) fn open_join(&self) -> Option<Join> {
        if is_open(self.recorder.streams()) {
            self.join
        } else {
            None
        }
    }
}

impl<D: Disk> Runner for Newest<D> {
    ghost use Rattle.archive_record.specs.Writing.{AnswersIn, IsWriting, Writing, waiting_in, end_in};

    ghost State = { Writing D };

    ghost is_in = { IsWriting };

    ghost answers = { AnswersIn D.Disk };

    ghost held_in = { waiting_in };

    ghost end_in = { end_in };

    ghost counted = { λ newest. 0 };

    fn run_command<P: Write>(
        &mut self,
        command: &Command,
        pages: &mut P,
    ) -> Result<Reply, WriteFault> {
        let before = self.recorder.length();
        let answer = self.recorder.run_command(command, pages);
        if let Ok(reply) = answer {
            if let Some(join) = join_of(command, reply, before, self.recorder.length()) {
                self.join = Some(join);
            }
        }
        answer
    }

    fn run_flush(&mut self) -> Reply {
        self.recorder.run_flush()
    }

    fn waiting(&self) -> u64 {
        self.recorder.waiting()
    }

    fn kept_length(&self) -> u64 {
        self.recorder.kept_length()
    }
}
