//! Commands that are run in turn.
ghost use Rattle.std.specs.Prelude.{◌≡◌, IfOk, OnErr};
ghost use Rattle.import_record.specs.Running.{HasRun, StopsAt, answered_with, first_of, nothing, plus, with_taken};

use feed_replies::Reply;
use feed_runner::Runner;
use ogg_command::{Command, Refusal};
use ogg_page::WriteFault;
use std::io::Write;

/// What became of commands. A count doesn't go above the greatest `u64`.
#[derive(Clone, Copy, Debug, PartialEq, Eq)]
pub struct Answered {
    /// The first refusal, if there was one.
    pub refused: Option<Refusal>,
    /// How many links were begun.
    pub links: u64,
    /// How many packets were put.
    pub packets: u64,
}

impl Answered {
    /// No command was run.
    pub fn nothing() -> Answered
        ensures { result ≡ nothing }
    {
        Answered {
            refused: None,
            links: 0,
            packets: 0,
        }
    }

    /// The same after one more command, which got this reply.
    fn with(self, command: &Command, reply: Reply) -> Answered
        ensures { result ≡ answered_with self command.now reply }
    {
        match reply {
            Reply::Held(_) => self.with_taken(command),
            Reply::Kept(_) => self.with_taken(command),
            Reply::Refused(refusal) => Answered {
                refused: first_of(self.refused, refusal),
                ..self
            },
        }
    }

    /// The same after one more command that was taken.
    fn with_taken(self, command: &Command) -> Answered
        ensures { result ≡ with_taken self command.now }
    {
        match command {
            Command::Begin(_) => Answered {
                links: self.links.saturating_add(1),
                ..self
            },
            Command::Put(put) => Answered {
                packets: self.packets.saturating_add(put.entries.len() as u64),
                ..self
            },
            Command::End(_) => self,
        }
    }
}

/// The first of two refusals, if there was one before.
fn first_of(first: Option<Refusal>, refusal: Refusal) -> Option<Refusal>
    ensures { result ≡ first_of first refusal }
{
    match first {
        Some(first) => Some(first),
        None => Some(refusal),
    }
}

/// Runs the commands in turn. A refusal ends nothing.
pub fn run_all<T: Runner, P: Write>(
    runner: &mut T,
    commands: &[Command],
    pages: &mut P,
) -> Result<Answered, WriteFault>
    requires uncounted { (one : T) → T.counted one ≡ 0 }
    ensures ok { (before : T.State) → T.is_in before runner.old → IfOk result (λ answered. (after : T.State) × T.is_in after runner.new
        × HasRun T.answers commands.now answered before after (P.contents pages.old) (P.contents pages.new)) }
    ensures err { (before : T.State) → T.is_in before runner.old → OnErr result ((after : T.State) × T.is_in after runner.new
        × StopsAt T.answers commands.now before after (P.contents pages.old) (P.contents pages.new)) }
{
    let mut answered = Answered::nothing();
    for command in commands {
        match runner.run_command(command, pages) {
            Ok(reply) => answered = answered.with(command, reply),
            Err(fault) => return Err(fault),
        }
    }
    Ok(answered)
}
