//! Commands that the input's pages complete: they are changed as asked, and run.
ghost use Rattle.std.specs.Prelude.{◌≡◌, ◌≢◌, Err, IfOk, IfErr, List};
ghost use Rattle.ogg_command.specs.declared.command.Command.{Command as CommandOf};
ghost use Rattle.import_changes.specs.Changed.{Become};
ghost use Rattle.import_changes.specs.Steps.{BeginAt};
ghost use Rattle.import_record.specs.Begun.{begun_after, begun_of};
ghost use Rattle.import_record.specs.Running.{HasRun};
ghost use Rattle.import_record.specs.Steps.{BeginsLink, StopsBy};

use crate::answering::{Answered, run_all};
use crate::begun::{Begun, keep_all_open, keep_all_streams};
use crate::fault::RecordFault;
use feed_runner::Runner;
use import_changes::Changes;
use import_mend::Mend;
use ogg_command::Command;
use std::alloc::Global;
use std::io::Write;

/// What was done with a page, or at the end of the input.
#[derive(Clone, Copy, Debug, PartialEq, Eq)]
pub struct Taken {
    /// What was mended, if anything was.
    pub mend: Option<Mend>,
    /// What became of the commands that it completed.
    pub answered: Answered,
}

/// Has commands run, changed as asked at this time of day. After `Memory` none of them was; after `Write` a prefix of
/// them was.
#[tactic(auto, using(crate::proofs::Kept::begun_among))]
pub(crate) fn run<T: Runner, P: Write>(
    alloc: Global,
    utc: [u8; 20],
    changes: &mut Changes,
    begun: &mut Begun,
    runner: &mut T,
    pages: &mut P,
    commands: Vec<Command>,
) -> Result<Answered, RecordFault>
    requires uncounted { (one : T) → T.counted one ≡ 0 }
    ensures ran { (before : T.State) → T.is_in before runner.old → IfOk result (λ answered. (after : T.State) × T.is_in after runner.new
        × (given : List CommandOf) × Become changes.old changes.new commands.items given
        × (begun_of begun.new ≡ begun_after (begun_of begun.old) commands.items given)
        × HasRun T.answers given answered before after (P.contents pages.old) (P.contents pages.new)
        × BeginAt utc changes.old.options commands.items given) }
    ensures stops { (before : T.State) → T.is_in before runner.old → IfErr result (λ fault. (after : T.State) × T.is_in after runner.new
        × StopsBy T.answers fault before after (P.contents pages.old) (P.contents pages.new)) }
    ensures unread { result ≢ Err RecordFault.Read }
    // Memory is taken for what a link begins with, and for nothing else.
    ensures memory { result ≡ Err RecordFault.Memory → BeginsLink commands.items }
{
    match keep_all_streams(alloc, &mut begun.streams, commands.as_slice()) {
        Ok(()) => {}
        Err(_) => return Err(RecordFault::Memory),
    }
    let given = match changes.apply(commands, utc) {
        Ok(given) => given,
        Err(_) => return Err(RecordFault::Memory),
    };
    match keep_all_open(alloc, &mut begun.serials, given.as_slice()) {
        Ok(()) => {}
        Err(_) => return Err(RecordFault::Memory),
    }
    match run_all(runner, given.as_slice(), pages) {
        Ok(answered) => Ok(answered),
        Err(_) => Err(RecordFault::Write),
    }
}
