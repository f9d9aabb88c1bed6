//! A feed that is recorded step by step, while its file is served.
ghost use Rattle.std.specs.Prelude.{◌≡◌, ℕ, [], Option, Some, None, Ok, Err, IfSome, true, false};
ghost use Rattle.feed_run.specs.Run.{streams};
ghost use Rattle.serve_hub.specs.Running.{Progress, IsIn};
ghost use Rattle.serve_hub.specs.Showing.{Shows};
ghost use Rattle.serve_machine.specs.Hub.{HubState};
ghost use Rattle.ogg_serve.specs.Feeding.{Follows, HasStepped, feed_state, lasting, says_failed, step_at};
ghost use Rattle.ogg_serve.specs.FileHistory.{ContinuesHistory};
ghost use Rattle.ogg_serve.specs.Steps.{TakesStep};

use chain_rules::Refusal;
use disk_model::Disk;
use feed_replies::{Reply, RunFault};
use feed_run::FeedRun;
use file_recorder::Recorded;
use history::disks_stand_in_their_world;
use serve_hub::{Hub, OpenFault};
use std::alloc::Global;
use std::io::{Read, Write, sink};
use std::marker::Model;

/// A feed that is recorded step by step, and the writer of its replies.
#[derive(Drop)]
pub struct LiveFeed<R: Read, W: Write + Drop> {
    reader: R,
    replies: W,
    run: FeedRun,
    // what every further step answers, if the feed has ended
    ended: Option<Result<Step, RunFault>>,
}

impl<R: Read, W: Write + Drop> Model for LiveFeed<R, W> {
    ghost use Rattle.ogg_serve.specs.Feeding.{FeedState, feed_state};

    ghost Value = { FeedState R W };

    ghost view = { λ f. feed_state f.reader f.replies f.run f.ended };
}

/// What a step of a feed has done.
#[derive(Clone, Copy, Debug, PartialEq, Eq)]
pub enum Step {
    /// A record was run, or what waited was flushed, and the line of this reply was written.
    Done(Reply),
    /// The feed has ended.
    End,
    /// The disk has failed, and the file could not be opened again.
    Lost(OpenFault),
}

impl<R: Read, W: Write + Drop> LiveFeed<R, W> {
    /// A feed of which nothing has been read. No memory is taken.
    pub fn new(alloc: Global, reader: R, replies: W) -> LiveFeed<R, W>
        ensures reader { result.reader ≡ reader }
        ensures replies { result.replies ≡ replies }
        ensures ended { result.ended ≡ None }
        ensures version { result.run.version ≡ None }
        ensures records { result.run.records ≡ 0 }
        ensures outcome { result.run.outcome ≡ None }
    {
        LiveFeed {
            reader,
            replies,
            run: FeedRun::new(alloc),
            ended: None,
        }
    }

    /// Reads the next record, has the hub run it, and writes the line of its reply. At the feed's end, at a fault
    /// of the feed, and if a record follows 4,294,967,295 others, what waits is flushed first, as a step with its
    /// own reply. The end and each fault stay.
    ///
    /// If the reply says that the disk has failed, the file is opened again, once. If that fails, the answer is
    /// `Lost` from then on. Otherwise the feed goes on over what was found, with counts from 1.
    pub fn step<D: Disk + Drop>(&mut self, hub: &mut Hub<D>) -> Result<Step, RunFault>
        ensures stepped { (before : Progress D) → IsIn D.Disk before hub.old → self.old.ended ≡ None → self.old.run.outcome ≡ None
            → (after : Progress D) × IsIn D.Disk after hub.new
            × HasStepped D.Disk
            (streams (R.remaining self.old.reader) None (W.contents self.old.replies))
            (streams (R.remaining self.new.reader) None (W.contents self.new.replies)) self.old.run self.new.run before after result }

        // By the machine alone, and with the answers that stay.
        ensures takes { (before : HubState) → Shows D.Disk hub.old before → (after : HubState) × Shows D.Disk hub.new after
            × TakesStep D.Disk R.remaining W.contents self.old self.new before after }

        // In each history in which the hub stood, the record is what comes next, and so is the reopening after it.
        ensures history { (before : HubState) → Shows D.Disk hub.old before
            → ContinuesHistory D.Disk hub.old hub.new }

        // What it answers from then on.
        ensures ended { self.old.ended ≡ None → self.new.ended ≡ lasting result }

        // The end and each fault stay.
        ensures closed { self.old.ended ≡ None → IfSome self.old.run.outcome (λ outcome. (result ≡ step_at outcome)
            × (self.new ≡ feed_state self.old.reader self.old.replies self.old.run (Some result)) × (hub.new ≡ hub.old)) }
        ensures stays { IfSome self.old.ended (λ answer. (result ≡ answer) × (self.new ≡ self.old) × (hub.new ≡ hub.old)) }
    {
        // For the proof alone.
        disks_stand_in_their_world::<D, Recorded>();
        if let Some(answer) = self.ended {
            return answer;
        }
        let answer = take_step(&mut self.run, hub, &mut self.reader, &mut self.replies);
        self.ended = lasting(answer);
        answer
    }

    /// What every further step answers, if the feed has ended.
    pub fn ended(&self) -> Option<Result<Step, RunFault>>
        ensures { result ≡ self.now.ended }
    {
        self.ended
    }
}

/// What a step answers from then on, if it isn't a reply.
fn lasting(answer: Result<Step, RunFault>) -> Option<Result<Step, RunFault>>
    ensures { result ≡ lasting answer }
{
    match answer {
        Ok(Step::Done(_)) => None,
        answer => Some(answer),
    }
}

/// Takes a step of the run, and opens the file again if the disk has failed in it.
fn take_step<D: Disk + Drop, R: Read, W: Write>(
    run: &mut FeedRun,
    hub: &mut Hub<D>,
    reader: &mut R,
    replies: &mut W,
) -> Result<Step, RunFault>
    ensures stepped { (before : Progress D) → IsIn D.Disk before hub.old → run.old.outcome ≡ None
        → (after : Progress D) × IsIn D.Disk after hub.new
        × HasStepped D.Disk
        (streams (R.remaining reader.old) None (W.contents replies.old)) (streams (R.remaining reader.new) None (W.contents replies.new))
        run.old run.new before after result }
    ensures closed { IfSome run.old.outcome (λ outcome. (result ≡ step_at outcome) × (run.new ≡ run.old) × (hub.new ≡ hub.old)
        × (reader.new ≡ reader.old) × (replies.new ≡ replies.old)) }
{
    match run.step(hub, reader, &mut sink(), replies) {
        Ok(Some(reply)) => Ok(follow(hub, reply)),
        Ok(None) => Ok(Step::End),
        Err(fault) => Err(fault),
    }
}

/// Opens the file again if the reply says that the disk has failed.
fn follow<D: Disk + Drop>(hub: &mut Hub<D>, reply: Reply) -> Step
    ensures { (before : Progress D) → IsIn D.Disk before hub.old → (after : Progress D) × IsIn D.Disk after hub.new
        × Follows D.Disk reply result before after }
{
    if says_failed(reply) {
        match hub.reopen() {
            Ok(()) => Step::Done(reply),
            Err(fault) => Step::Lost(fault),
        }
    } else {
        Step::Done(reply)
    }
}

/// Whether the reply says that the disk has failed in this record.
fn says_failed(reply: Reply) -> bool
    ensures { result ≡ says_failed reply }
{
    match reply {
        Reply::Refused(Refusal::Disk) => true,
        _ => false,
    }
}
