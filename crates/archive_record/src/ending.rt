//! What is open in a file is ended.
ghost use Rattle.std.specs.Prelude.{◌≡◌, ◌≢◌, List, OnOk, Err, false, true};
ghost use Rattle.feed_replies.specs.declared.reply.Reply.{Reply as ReplyOf};
ghost use Rattle.file_recorder.specs.Ending.{AllEnded, EndRefused};
ghost use Rattle.file_recorder.specs.Running.{Answers, Progress, progress, streams_in};
ghost use Rattle.history.specs.World.{World};
ghost use Rattle.link_chain.specs.ChainState.{is_open};
ghost use Rattle.link_chain.specs.Recording.{Recording};
ghost use Rattle.ogg_command.specs.declared.command.Command.{Command as CommandOf};
ghost use Rattle.ogg_command.specs.declared.refusal.Refusal.{Refusal as RefusalOf};
ghost use Rattle.archive_record.specs.Changing.{EndsOpen, holding_all};
ghost use Rattle.archive_record.specs.Resting.{IsAtRest};
ghost use Rattle.archive_record.specs.Writing.{HasDone, HasGoneOn};

use crate::beside::Beside;
use disk_model::Disk;
use feed_runner::Runner;
use file_recorder::Recorder;
use link_chain::is_open;
use ogg_command::Refusal;

/// Why a stream is open still, or its end isn't kept.
#[derive(Clone, Copy, Debug, PartialEq, Eq)]
pub enum Unended {
    /// The disk has failed.
    Failed,
    /// An end was refused for something else: this.
    Refused(Refusal),
}

/// Ends the streams that are open in the file, and keeps that with all that waits.
pub fn end_open<D: Disk>(recorder: &mut Recorder<D>) -> Result<(), Unended>
    ensures rests { OnOk result (IsAtRest recorder.new) }
    ensures failed { result ≡ Err Unended.Failed → recorder.new.file.failed ≡ true }
    ensures refused { (refusal : RefusalOf) → result ≡ Err (Unended.Refused refusal) → is_open recorder.new.chain ≡ true }
    // The refusal is that of the end of the first stream that was open then.
    ensures met { (first : Recording) (w : World CommandOf) (refusal : RefusalOf) → result ≡ Err (Unended.Refused refusal)
        → (after : Progress D) × (replies : List ReplyOf) × (after.now.chain ≡ recorder.new.chain)
        × EndRefused streams_in (Answers D.Disk) (progress first w recorder.old) after replies refusal }
    // Whatever the answer, what was done is steps of the file's history.
    ensures does { (first : Recording) (w : World CommandOf) → (after : Progress D) × (after.now ≡ recorder.new)
        × HasDone (Answers D.Disk) (progress first w recorder.old) after }
{
    let ended = end_streams(recorder);
    recorder.run_flush();
    if recorder.is_failed() {
        return Err(Unended::Failed);
    }
    ended
}

/// Ends the streams that are open in the file, up to the first whose end is refused. The ends may wait for their commit.
///
/// It is `Refused` for what refused that end, also if that is the disk.
pub fn end_streams<D: Disk>(recorder: &mut Recorder<D>) -> Result<(), Unended>
    ensures ended { OnOk result (is_open recorder.new.chain ≡ false) }
    ensures refused { (refusal : RefusalOf) → result ≡ Err (Unended.Refused refusal) → is_open recorder.new.chain ≡ true }
    ensures flushed { result ≢ Err Unended.Failed }
    ensures all { (first : Recording) (w : World CommandOf) → OnOk result ((after : Progress D) × (replies : List ReplyOf)
        × (after.now ≡ recorder.new) × AllEnded streams_in (Answers D.Disk) (progress first w recorder.old) after replies) }
    ensures met { (first : Recording) (w : World CommandOf) (refusal : RefusalOf) → result ≡ Err (Unended.Refused refusal)
        → (after : Progress D) × (replies : List ReplyOf) × (after.now ≡ recorder.new)
        × EndRefused streams_in (Answers D.Disk) (progress first w recorder.old) after replies refusal }
    ensures does { (first : Recording) (w : World CommandOf) → (after : Progress D) × (after.now ≡ recorder.new)
        × HasDone (Answers D.Disk) (progress first w recorder.old) after }
{
    match file_recorder::end_streams(recorder) {
        Ok(()) => Ok(()),
        Err(refusal) => Err(Unended::Refused(refusal)),
    }
}

/// Ends the streams that are open in a file, in one commit with what waits. Returns whether the next file goes on with it:
/// if a link was open, and each of its streams was ended.
pub(crate) fn end_held<D: Disk>(recorder: &mut Recorder<D>) -> (bool, Result<(), Unended>)
    ensures ends { (before : Progress D) → before.now ≡ recorder.old → (last : Progress D) × (last.now ≡ recorder.new)
        × EndsOpen D.Disk (holding_all before) last result.0 }
    ensures does { (w : World CommandOf) → HasGoneOn D.Disk w recorder.old recorder.new }
{
    let was_open = is_open(recorder.streams());
    recorder.hold_all();
    match end_streams(recorder) {
        Ok(()) => (was_open, Ok(())),
        Err(unended) => (false, Err(unended)),
    }
}

/// Tells that not all that was open in a file was ended, when the input was read up to this offset. The file has ended with
/// so many bytes.
pub(crate) fn tell_unended<B: Beside>(
    ended: Result<(), Unended>,
    offset: u64,
    end: u64,
    beside: &mut B,
) {
    match ended {
        Ok(()) => {}
        Err(Unended::Refused(refusal)) => beside.refused(offset, refusal),
        Err(Unended::Failed) => beside.lost(offset, end),
    }
}
