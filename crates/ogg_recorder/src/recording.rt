//! The run over a whole feed.
ghost use Rattle.std.specs.Prelude.{◌≡◌, ◌↔◌, ◌≤◌, IfOk, IfErr, None};
ghost use Rattle.disk_model.specs.Frame.{Frame};
ghost use Rattle.link_chain.specs.Recording.{Recording};
ghost use Rattle.ogg_command.specs.declared.command.Command.{Command as CommandOf};
ghost use Rattle.history.specs.World.{World};
ghost use Rattle.feed_run.specs.Run.{RunsWhole, EndsBy, streams, streams_to};
ghost use Rattle.file_recorder.specs.Running.{Progress, Answers, progress, waiting_in};
ghost use Rattle.ogg_recorder.specs.Recorded.{HasRecorded, answered_to, answered_by};

use disk_model::Disk;
use feed_replies::{RunFault, Tally};
use feed_run::{Ahead, Unknown, run_feed_for};
use feed_runner::Replies;
use file_recorder::{Recorded, Recorder, records_are_steps};
use history::{disks_stand_in_their_world, runs_show_first_commands};
use std::alloc::Global;
use std::io::{self, Read, Sink, Write};

/// Runs the records of a feed. The pages of a command go to the recorder's disk, and then the line of its reply to
/// `replies`, before the next record is read. A flush keeps what waits; it isn't counted.
///
/// At the end of the feed it flushes what waits, and returns the counts, with the length of the committed bytes. It
/// stops at the first fault. `Feed` is a fault of the feed, and `TooMany` says that a record follows 4,294,967,295
/// others, and isn't run: in both cases what waits is flushed. `Write` says that `replies` has failed: nothing is
/// flushed then, and what waits still waits. A disk fault ends nothing: it is the reply of the command that met it,
/// and each command after it is refused as `Failed`. What waited is lost then, and no reply says that it is kept.
pub fn record_feed<D: Disk, R: Read, W: Write>(
    alloc: Global,
    reader: &mut R,
    replies: &mut W,
    recorder: &mut Recorder<D>,
) -> Result<Tally, RunFault>
    // What was read, run and written, on any disk. For an honest disk it says also what was recorded: the bytes, and
    // what every image showed meanwhile in each history in which the recorder stands.
    ensures ok { (first : Recording) (w : World CommandOf)
        → IfOk result (λ tally. (after : Progress D) × (after.now ≡ recorder.new)
        × (run : RunsWhole (Answers D.Disk) waiting_in
        (streams (R.remaining reader.old) None (W.contents replies.old)) (streams (R.remaining reader.new) None (W.contents replies.new))
        (progress first w recorder.old) after after.now.file.end tally)
        × HasRecorded D.Disk (progress first w recorder.old) after
        (answered_to (Answers D.Disk) waiting_in (Ok tt)
        (streams (R.remaining reader.old) None (W.contents replies.old)) (streams (R.remaining reader.new) None (W.contents replies.new))
        (progress first w recorder.old) after run.run)) }
    ensures err { (first : Recording) (w : World CommandOf)
        → IfErr result (λ fault. (after : Progress D) × (after.now ≡ recorder.new)
        × (run : EndsBy (Answers D.Disk) waiting_in fault
        (streams (R.remaining reader.old) None (W.contents replies.old)) (streams (R.remaining reader.new) None (W.contents replies.new))
        (progress first w recorder.old) after)
        × HasRecorded D.Disk (progress first w recorder.old) after
        (answered_by (Answers D.Disk) waiting_in fault
        (streams (R.remaining reader.old) None (W.contents replies.old)) (streams (R.remaining reader.new) None (W.contents replies.new))
        (progress first w recorder.old) after run)) }

    ensures frame { Frame D.Disk recorder.old.file.disk recorder.new.file.disk ⊥ }
{
    record_feed_for::<Unknown, D, R, W>(alloc, reader, replies, recorder)
}

/// The same with any taker of replies. If it wants no further record, the run ends as at the end of the feed. Before
/// more of the feed may be waited for, and at the end, what waits with it goes out.
pub fn record_feed_for<A: Ahead<R>, D: Disk, R: Read, S: Replies>(
    alloc: Global,
    reader: &mut R,
    replies: &mut S,
    recorder: &mut Recorder<D>,
) -> Result<Tally, RunFault>
    // What was read, run and written, on any disk. For an honest disk it says also what was recorded: the bytes, and
    // what every image showed meanwhile in each history in which the recorder stands.
    ensures ok { (first : Recording) (w : World CommandOf)
        → IfOk result (λ tally. (after : Progress D) × (after.now ≡ recorder.new)
        × (run : RunsWhole (Answers D.Disk) waiting_in
        (streams_to (R.remaining reader.old) None (S.lines replies.old) S.waits (S.enough replies.old)) (streams_to (R.remaining reader.new) None (S.lines replies.new) S.waits (S.enough replies.new))
        (progress first w recorder.old) after after.now.file.end tally)
        × HasRecorded D.Disk (progress first w recorder.old) after
        (answered_to (Answers D.Disk) waiting_in (Ok tt)
        (streams_to (R.remaining reader.old) None (S.lines replies.old) S.waits (S.enough replies.old)) (streams_to (R.remaining reader.new) None (S.lines replies.new) S.waits (S.enough replies.new))
        (progress first w recorder.old) after run.run)) }
    ensures err { (first : Recording) (w : World CommandOf)
        → IfErr result (λ fault. (after : Progress D) × (after.now ≡ recorder.new)
        × (run : EndsBy (Answers D.Disk) waiting_in fault
        (streams_to (R.remaining reader.old) None (S.lines replies.old) S.waits (S.enough replies.old)) (streams_to (R.remaining reader.new) None (S.lines replies.new) S.waits (S.enough replies.new))
        (progress first w recorder.old) after)
        × HasRecorded D.Disk (progress first w recorder.old) after
        (answered_by (Answers D.Disk) waiting_in fault
        (streams_to (R.remaining reader.old) None (S.lines replies.old) S.waits (S.enough replies.old)) (streams_to (R.remaining reader.new) None (S.lines replies.new) S.waits (S.enough replies.new))
        (progress first w recorder.old) after run)) }

    ensures frame { Frame D.Disk recorder.old.file.disk recorder.new.file.disk ⊥ }
{
    records_are_steps::<D>();
    // For the proof alone.
    runs_show_first_commands::<D, Recorded>();
    disks_stand_in_their_world::<D, Recorded>();
    let _end = recorder.end();
    let mut none = io::sink();
    run_feed_for::<A, Recorder<D>, R, Sink, S>(alloc, recorder, reader, &mut none, replies)
}
