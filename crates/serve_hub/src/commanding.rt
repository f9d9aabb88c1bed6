//! Commands go to the recorder of a hub, if there is a file.
ghost use Rattle.std.specs.Prelude.{◌≡◌, ◌≢◌, ◌≤◌, ℕ, None, Some, Err, Option, length, IsSome, IfErr};
ghost use Rattle.serve_machine.specs.Hub.{HubState, command_step, flush_step, group_step};
ghost use Rattle.feed_records.specs.declared.item.Record.{Record as RecordOf};
ghost use Rattle.file_recorder.specs.Recorder.{RecorderState};
ghost use Rattle.file_recorder.specs.Running.{Replies, reply_of, reply_of_flush};
ghost use Rattle.file_recorder.specs.Taking.{IsWholeChain};
ghost use Rattle.serve_hub.specs.declared.opening.Lost.{Lost};
ghost use Rattle.serve_hub.specs.Images.{IfFile, Records, Flushes};
ghost use Rattle.serve_hub.specs.Running.{RepliesIn};
ghost use Rattle.serve_hub.specs.Showing.{FindsLinks, ShowsFile, ShowsPlace, KeepsSessions};

use chain_rules::{Command, Refusal, command_adds_its_packets, refusals_are_of_the_table};
use disk_model::Disk;
use feed_replies::Kept;
use file_recorder::{Outcome, Recorder};
use ogg_command::command_is_in_range;

/// Records a command.
fn record_command<D: Disk>(
    recorder: &mut Recorder<D>,
    command: &Command,
) -> Result<Outcome, Refusal>
    ensures step { (before : HubState) → ShowsFile D.Disk recorder.old before → (after : HubState)
        × ShowsFile D.Disk recorder.new after × command_step before command.now result after × KeepsSessions before after }
    ensures linked { (before after : HubState) → ShowsFile D.Disk recorder.old before → command_step before command.now result after
        → FindsLinks before → FindsLinks after }
    ensures disk { Records D.Disk command.now result recorder.old recorder.new }
    ensures same { IfErr result (λ refusal. refusal ≢ Refusal.Disk → recorder.new ≡ recorder.old) }
    ensures whole { IsWholeChain recorder.old.chain }
    ensures replied { Replies recorder.old (RecordOf.Command command.now) (reply_of result) recorder.new }
{
    // For the proof alone.
    command_is_in_range(command);
    command_adds_its_packets();
    refusals_are_of_the_table();
    let _before = recorder.end();
    let answer = recorder.command(command);
    // For the proof alone.
    let _after = recorder.end();
    answer
}

/// Commits what waits.
fn flush_commands<D: Disk>(recorder: &mut Recorder<D>) -> Result<Kept, Refusal>
    ensures step { (before : HubState) → ShowsFile D.Disk recorder.old before → (after : HubState)
        × ShowsFile D.Disk recorder.new after × flush_step before result after × KeepsSessions before after }
    ensures linked { (before after : HubState) → ShowsFile D.Disk recorder.old before → flush_step before result after
        → FindsLinks before → FindsLinks after }
    ensures disk { Flushes D.Disk result recorder.old recorder.new }
    ensures same { IfErr result (λ refusal. refusal ≢ Refusal.Disk → recorder.new ≡ recorder.old) }
    ensures whole { IsWholeChain recorder.old.chain }
    ensures replied { Replies recorder.old RecordOf.Flush (reply_of_flush result) recorder.new }
{
    // For the proof alone.
    let _before = recorder.end();
    let answer = recorder.flush();
    // For the proof alone.
    let _after = recorder.end();
    answer
}

/// Records a command, if there is a file.
pub(crate) fn command_file<D: Disk>(
    file: &mut Option<Recorder<D>>,
    command: &Command,
) -> Result<Outcome, Refusal>
    ensures step { (lost : Option (Lost D)) (before : HubState) → ShowsPlace D.Disk file.old lost before → (after : HubState)
        × ShowsPlace D.Disk file.new lost after × command_step before command.now result after × KeepsSessions before after }
    ensures stays { file.new ≡ None → file.old ≡ None }
    ensures linked { (lost : Option (Lost D)) (before after : HubState) → ShowsPlace D.Disk file.old lost before → command_step before command.now result after
        → FindsLinks before → FindsLinks after }
    ensures disk { IfFile (Records D.Disk command.now result) file.old file.new }
    ensures same { IfErr result (λ refusal. refusal ≢ Refusal.Disk → file.new ≡ file.old) }
    ensures no_file { file.old ≡ None → result ≡ Err Refusal.Failed }
    ensures replied { RepliesIn file.old (RecordOf.Command command.now) (reply_of result) file.new }
{
    match file {
        Some(recorder) => record_command(recorder, command),
        None => Err(Refusal::Failed),
    }
}

/// Commits what waits, if there is a file.
pub(crate) fn flush_file<D: Disk>(file: &mut Option<Recorder<D>>) -> Result<Kept, Refusal>
    ensures step { (lost : Option (Lost D)) (before : HubState) → ShowsPlace D.Disk file.old lost before → (after : HubState)
        × ShowsPlace D.Disk file.new lost after × flush_step before result after × KeepsSessions before after }
    ensures stays { file.new ≡ None → file.old ≡ None }
    ensures linked { (lost : Option (Lost D)) (before after : HubState) → ShowsPlace D.Disk file.old lost before → flush_step before result after
        → FindsLinks before → FindsLinks after }
    ensures disk { IfFile (Flushes D.Disk result) file.old file.new }
    ensures same { IfErr result (λ refusal. refusal ≢ Refusal.Disk → file.new ≡ file.old) }
    ensures no_file { file.old ≡ None → result ≡ Err Refusal.Failed }
    ensures replied { RepliesIn file.old RecordOf.Flush (reply_of_flush result) file.new }
{
    match file {
        Some(recorder) => flush_commands(recorder),
        None => Err(Refusal::Failed),
    }
}

/// Sets how many commands share a commit.
pub(crate) fn group_file<D: Disk>(file: &mut Option<Recorder<D>>, most: u32)
    requires some { 1 ≤ most }
    requires few { most ≤ 1024 }
    requires none { (recorder : RecorderState D) → file.old ≡ Some recorder → recorder.held ≡ 0 }
    ensures set { (recorder : RecorderState D) → file.old ≡ Some recorder
        → file.new ≡ Some (record recorder { most = most }) }
    ensures stays { file.new ≡ None → file.old ≡ None }
{
    if let Some(recorder) = file {
        recorder.group(most);
    }
}

/// How many commands wait.
pub(crate) fn held_in<D: Disk>(file: &Option<Recorder<D>>) -> u64
    ensures { (lost : Option (Lost D)) (machine : HubState) → ShowsPlace D.Disk file.now lost machine
        → result ≡ machine.waiting }
{
    match file {
        Some(recorder) => recorder.held(),
        None => 0,
    }
}
