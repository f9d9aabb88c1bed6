//! The calls of a recorder, as steps of the law over committed bytes: each is the recorder's own call, and its contract
//! says that the committed bytes of every image stay those of the commands.
ghost use Rattle.std.specs.Prelude.{◌≡◌, ◌+◌, ◌≤◌, Bool, ℕ, List, false, true, length, IfOk, IfErr};
ghost use Rattle.ogg_command.specs.declared.command.Command.{Command as CommandOf};
ghost use Rattle.history.specs.World.{World, Opening, Opened, Committing, Looked, Sealing, Sealed, Faulted, happens};
ghost use Rattle.history.specs.History.{StandsIn};
ghost use Rattle.chain_rules.specs.Encoding.{links_after};
ghost use Rattle.file_recorder.specs.Recovery.{Links};
ghost use Rattle.file_recorder.specs.Answer.{command_step, flush_step};
ghost use Rattle.archive_laws.specs.Committing.{ShowsLinks, IsInLinks, IsStepOfLinks};

use crate::committing::CommittedLinks;
use chain_rules::{Command, Refusal, command_adds_its_packets, refusals_are_of_the_table};
use disk_model::{Disk, DiskFault};
use feed_replies::{Kept, Outcome};
use file_recorder::{OpenFault, Recorder};
use history::disks_stand_in_their_world;
use ogg_command::command_is_in_range;
use std::alloc::Global;

/// Opens a file. Every image since then has the committed bytes that an image had before.
pub fn open_file<D: Disk>(alloc: Global, disk: D) -> Result<Recorder<D>, (OpenFault, D)>
    ensures step { IfOk result (λ recorder. (first : Links) (w : World CommandOf) → StandsIn ShowsLinks links_after first w (D.state disk)
        → w.is_open ≡ false → D.is_honest disk
        → (found : Bool) × IsStepOfLinks D.Disk first w (Opened found) disk recorder.file.disk
        × IsInLinks D.Disk first (happens w (Opened found)) recorder) }
    ensures step_err { IfErr result (λ e. (first : Links) (w : World CommandOf) → w.is_open ≡ false → D.is_honest disk
        → IsStepOfLinks D.Disk first w (Faulted Opening) disk e.1) }
{
    // For the proof alone.
    disks_stand_in_their_world::<D, CommittedLinks>();
    match Recorder::open(alloc, disk) {
        Ok(recorder) => {
            let _end = recorder.end();
            Ok(recorder)
        }
        Err(fault) => Err(fault),
    }
}

/// Runs a command. Its pages are the next committed bytes, once it is kept. A fault of the disk leaves its whole group in
/// doubt.
pub fn run_command<D: Disk>(
    recorder: &mut Recorder<D>,
    command: &Command,
) -> Result<Outcome, Refusal>
    ensures step { (first : Links) (w : World CommandOf) → IsInLinks D.Disk first w recorder.old → D.is_honest recorder.old.file.disk
        → IsStepOfLinks D.Disk first w (command_step result (Committing command.now) command.now) recorder.old.file.disk recorder.new.file.disk
        × IsInLinks D.Disk first (happens w (command_step result (Committing command.now) command.now)) recorder.new }
{
    // For the proof alone.
    command_is_in_range(command);
    command_adds_its_packets();
    refusals_are_of_the_table();
    let _before = recorder.end();
    let answer = recorder.command(command);
    let _after = recorder.end();
    answer
}

/// Commits what waits.
pub fn flush_commands<D: Disk>(recorder: &mut Recorder<D>) -> Result<Kept, Refusal>
    ensures step { (first : Links) (w : World CommandOf) → IsInLinks D.Disk first w recorder.old → w.is_open ≡ true
        → D.is_honest recorder.old.file.disk
        → IsStepOfLinks D.Disk first w (flush_step result) recorder.old.file.disk recorder.new.file.disk
        × IsInLinks D.Disk first (happens w (flush_step result)) recorder.new }
{
    let answer = recorder.flush();
    // For the proof alone.
    let _after = recorder.end();
    answer
}

/// Reads committed bytes.
pub fn read_file<D: Disk>(
    recorder: &mut Recorder<D>,
    from: u64,
    buffer: &mut [u8],
) -> Result<(), DiskFault>
    requires { from + length buffer.old ≤ recorder.old.file.end }
    ensures step { (first : Links) (w : World CommandOf) → IsInLinks D.Disk first w recorder.old → D.is_honest recorder.old.file.disk
        → IsStepOfLinks D.Disk first w Looked recorder.old.file.disk recorder.new.file.disk
        × IsInLinks D.Disk first w recorder.new }
{
    recorder.read(from, buffer)
}

/// Seals a file.
pub fn seal_file<D: Disk>(recorder: Recorder<D>) -> Result<D, (DiskFault, D)>
    requires good { recorder.file.failed ≡ false }
    requires none { recorder.held ≡ 0 }
    ensures step { IfOk result (λ disk. (first : Links) (w : World CommandOf) → IsInLinks D.Disk first w recorder
        → D.is_honest recorder.file.disk → IsStepOfLinks D.Disk first w Sealed recorder.file.disk disk) }
    ensures step_err { IfErr result (λ e. (first : Links) (w : World CommandOf) → IsInLinks D.Disk first w recorder
        → D.is_honest recorder.file.disk → IsStepOfLinks D.Disk first w (Faulted Sealing) recorder.file.disk e.1) }
{
    match recorder.seal() {
        Ok(disk) => Ok(disk),
        Err(fault) => Err(fault),
    }
}
