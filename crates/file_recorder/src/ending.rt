//! Streams that an earlier run left open.
ghost use Rattle.std.specs.Prelude.{◌≡◌, IfOk, OnOk, OnErr, IfErr, List, [], false, true};
ghost use Rattle.feed_records.specs.declared.item.Record.{Record as RecordOf};
ghost use Rattle.feed_replies.specs.declared.reply.Reply.{Reply as ReplyOf};
ghost use Rattle.link_chain.specs.ChainState.{is_open};
ghost use Rattle.link_chain.specs.Recording.{Recording};
ghost use Rattle.ogg_command.specs.declared.command.Command.{Command as CommandOf};
ghost use Rattle.history.specs.World.{World};
ghost use Rattle.file_recorder.specs.Running.{Progress, Answers, Replies as RepliesOf, streams_in, progress};
ghost use Rattle.file_recorder.specs.Taking.{IsWholeChain};
ghost use Rattle.file_recorder.specs.Ending.{AllEnded, EndRefused, HasEnded, HasToldSome, first_open};

use crate::laws::ends_leave_fewer_open;
use crate::recorder::Recorder;
use chain_rules::{Command, Refusal, StreamState};
use disk_model::Disk;
use feed_replies::Reply;
use feed_runner::Replies;
use ogg_page::WriteFault;
use std::io;

/// Ends each stream that the file's last link has left open, in the order of their first pages. Each end is a command
/// like any other: it is answered, and may wait for its group. It stops at the first end that is refused, and returns
/// whether a stream is still open: then the last reply refuses the end of the first of these. If a reply can't be told
/// nothing more is done.
pub fn end_open_streams<D: Disk, S: Replies>(
    recorder: &mut Recorder<D>,
    replies: &mut S,
) -> Result<bool, WriteFault>
    ensures ok { (first : Recording) (w : World CommandOf) → OnOk result ((after : Progress D) × (after.now ≡ recorder.new)
        × HasEnded (Answers D.Disk) (progress first w recorder.old) after
        (S.lines replies.old) (S.lines replies.new)) }
    ensures left { IfOk result (λ left. left ≡ is_open recorder.new.chain) }
    ensures err { (first : Recording) (w : World CommandOf) → OnErr result ((after : Progress D) × (after.now ≡ recorder.new)
        × HasToldSome (Answers D.Disk) S.waits (progress first w recorder.old) after
        (S.lines replies.old) (S.lines replies.new)) }
{
    // For the proof alone.
    ends_leave_fewer_open::<D>();
    while let Some(serial) = recorder.first_open() {
        let reply = recorder.end_stream(serial);
        match replies.reply(&reply, &mut io::sink()) {
            Ok(()) => {}
            Err(fault) => return Err(fault),
        }
        if let Reply::Refused(_) = reply {
            return Ok(true);
        }
    }
    Ok(false)
}

/// The same, and tells the replies to nobody. It returns what the first end that was refused was refused as.
pub fn end_streams<D: Disk>(recorder: &mut Recorder<D>) -> Result<(), Refusal>
    ensures ended { (first : Recording) (w : World CommandOf) → OnOk result ((after : Progress D) × (replies : List ReplyOf)
        × (after.now ≡ recorder.new) × AllEnded streams_in (Answers D.Disk) (progress first w recorder.old) after replies) }
    ensures refused { (first : Recording) (w : World CommandOf) → IfErr result (λ refusal. (after : Progress D)
        × (replies : List ReplyOf) × (after.now ≡ recorder.new)
        × EndRefused streams_in (Answers D.Disk) (progress first w recorder.old) after replies refusal) }
    ensures none { OnOk result (is_open recorder.new.chain ≡ false) }
    ensures left { OnErr result (is_open recorder.new.chain ≡ true) }
{
    // For the proof alone.
    ends_leave_fewer_open::<D>();
    while let Some(serial) = recorder.first_open() {
        if let Reply::Refused(refusal) = recorder.end_stream(serial) {
            return Err(refusal);
        }
    }
    Ok(())
}

impl<D: Disk> Recorder<D> {
    /// The serial of the first stream of the last link that hasn't ended.
    fn first_open(&self) -> Option<u32>
        ensures first { result ≡ first_open self.now.chain.streams }
        ensures whole { IsWholeChain self.now.chain }
    {
        first_open(self.shape.streams())
    }

    /// Ends a stream, and returns the reply.
    fn end_stream(&mut self, serial: u32) -> Reply
        ensures answers { (before : Progress D) → before.now ≡ self.old → (after : Progress D)
            × Answers D.Disk before (RecordOf.Command (CommandOf.End serial)) result [] after × (after.now ≡ self.new) }
        ensures replies { RepliesOf self.old (RecordOf.Command (CommandOf.End serial)) result self.new }
    {
        let end = Command::End(serial);
        self.answer(&end)
    }
}

/// The serial of the first stream that hasn't ended.
pub fn first_open(streams: &[StreamState]) -> Option<u32>
    ensures { result ≡ first_open streams.now }
{
    let stream = streams.iter().find(|stream| !stream.ended)?;
    Some(stream.serial)
}
