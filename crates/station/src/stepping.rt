//! What is recorded, step by step.
ghost use Rattle.std.specs.Prelude.{◌≡◌, ◌≢◌, ◌⊎◌, ◌||◌, None, Option, Some, OnErr, OnOk, is_some, length, true, false};
ghost use Rattle.station_hub.specs.Waking.{is_due as are_due, woken_at};
ghost use Rattle.station.specs.Ending.{gathers};
ghost use Rattle.slab.specs.Slab.{get};
ghost use Rattle.serve_clients.specs.Client.{ClientState};
ghost use Rattle.serve_clients.specs.Clients.{OthersStay};
ghost use Rattle.serve_clients.specs.declared.client.Stage.TheVariants.{Feeding as FeedingOf};
ghost use Rattle.feed_replies.specs.declared.reply.Reply.{Reply as ReplyOf};
ghost use Rattle.gate_file.specs.declared.fault.OpenFault.{OpenFault as OpenFaultOf};
ghost use Rattle.import_record.specs.declared.answering.Answered.{Answered as AnsweredOf};
ghost use Rattle.import_record.specs.declared.fault.RecordFault.{RecordFault as RecordFaultOf};
ghost use Rattle.ogg_command.specs.declared.refusal.Refusal.{Refusal as RefusalOf};
ghost use Rattle.serve_hub.specs.Parts.{failed_in, is_at_rest, serials_in};
ghost use Rattle.serve_hub.specs.Running.{IsIn, Progress};
ghost use Rattle.station.specs.Clocks.{HasReopenedAt, KeepsClocks, clocks_of, since_after, streams_in};
ghost use Rattle.station.specs.Beginning.{BeginsBeside, GoesOnAgain, HasReopened, run_in};
ghost use Rattle.station_sources.specs.Air.{parting_answer};
ghost use Rattle.station_sources.specs.Taking.{is_foreign};
ghost use Rattle.station.specs.Parting.{FeederParts, HasParted};
ghost use Rattle.station.specs.Kept.{AreKept, AreLeft};
ghost use Rattle.station.specs.Passing.{ArePassed};
ghost use Rattle.station_hub.specs.Ending.{EndsOpen};
ghost use Rattle.station_hub.specs.Live.{RecordsLive};
ghost use Rattle.station_sources.specs.declared.air.OnAir.{OnAir as OnAirOf};
ghost use Rattle.station_hub.specs.Patience.{is_due, until_due};
ghost use Rattle.station.specs.Stepping.{BeginsBy, FreesBy, GoesOnWithLoss, HasFlushed, HasGivenUp, IsSucceededBy, IsTurnedAway, NothingPends, PartedBy, PartsBy, RestsBy, RestsUnless, TakesFromSource, only_refused, reopens, with_done};
ghost use Rattle.station.specs.Succeeding.{IsSucceeded, SameWait};
ghost use Rattle.serve_hub.specs.Showing.{Shows};
ghost use Rattle.serve_machine.specs.Hub.{HubState};

use crate::station::Station;
use disk_model::Disk;
use feed_replies::Reply;
use feed_runner::Runner;
use gate_file::OpenFault;
use import_mend::Mend;
use import_record::{Answered, RecordFault, Step, Taken, run_all};
use ogg_command::Refusal;
use serve_clients::Stage;
use serve_sources::Outcome;
use station_hub::{is_due, until_due};
use station_sources::{Feeder, OnAir, Took, counted};
use std::io;

/// What a step has done.
#[derive(Clone, Copy, Debug, PartialEq, Eq)]
pub enum Done {
    /// Nothing: there was nothing to do.
    Nothing,
    /// Bytes were taken.
    Bytes,
    /// What waited was committed, or couldn't be.
    Flushed(Reply),
    /// A step was taken of the source's stream.
    Stepped(Step),
    /// The source's stream has ended at this offset. If what was open of it couldn't be ended and kept, that was refused
    /// so first.
    Ended {
        offset: u64,
        junk: Option<Mend>,
        taken: Taken,
        refused: Option<Refusal>,
    },
    /// The source left the air, since its stream isn't Ogg: so many bytes of it were passed over, and there is no page
    /// among them. Nothing of it was recorded. What was open couldn't be ended and kept if that was refused.
    Foreign {
        feeder: Feeder,
        passed: u64,
        refused: Option<Refusal>,
    },
    /// The source was given up. What was open of it became what it becomes at its end.
    GivenUp {
        fault: RecordFault,
        refused: Option<Refusal>,
    },
    /// The disk had failed, and the file was opened again. This became of the commands that were run then: the ends of
    /// what was open, and what begins the source's link again.
    Reopened(Answered),
    /// The disk had failed, and the file couldn't be opened again.
    Lost(OpenFault),
    /// The disk has failed again, and nothing was kept since it did before.
    Failed,
}

/// Whether something may be lost of a source that leaves the air.
fn is_lost(given_up: bool, refused: Option<Refusal>) -> bool
    ensures { result ≡ (given_up || is_some refused) }
{
    given_up || refused.is_some()
}

/// What became of the ends alone that were run.
fn only_refused(ended: Result<(), Refusal>) -> Answered
    ensures { result ≡ only_refused ended }
{
    match ended {
        Ok(()) => Answered::nothing(),
        Err(refusal) => Answered {
            refused: Some(refusal),
            ..Answered::nothing()
        },
    }
}

impl<D: Disk + Drop> Station<D> {
    /// Does what is next to be done for what is recorded: commits what waits, if it is time, or takes the next page of
    /// the source, or its end. A fault of the disk is answered by one reopening, unless nothing was kept since the one
    /// before. Call it until it has done `Nothing`.
    pub fn step(&mut self, now: u64) -> Done
        // What is recorded of a source is what import_record says of its bytes.
        ensures takes { (air : OnAirOf) → self.old.air ≡ Some air
            → TakesFromSource D.Disk result air self.new.air self.old.live self.new.live }
        // What the connection of a source that leaves the air is told says what became of its stream.
        ensures parts { (air : OnAirOf) → self.old.air ≡ Some air → PartedBy result air self.old.clients.slots self.new.clients.slots }
        // A source that isn't Ogg leaves the air before anything else is taken of it.
        ensures foreign { (air : OnAirOf) (machine : HubState) → self.old.air ≡ Some air → Shows D.Disk self.old.live.hub machine
            → failed_in self.old.live.hub.file ≡ false → is_due machine.waiting self.old.waiting_since now ≡ false
            → is_foreign air.has_page air.import.input.pages.offset ≡ true → IsTurnedAway air result }
        // It is given up only for want of memory, where there was no room, or if a read has failed; or with a disk that has.
        ensures cause { (air : OnAirOf) (fault : RecordFaultOf) (refused : Option RefusalOf) → self.old.air ≡ Some air
            → failed_in self.old.live.hub.file ≡ false → result ≡ Done.GivenUp fault refused → HasGivenUp D.Disk fault air self.old.live }
        // A fault of the disk comes before anything of the source that follows, and is noted.
        ensures failed { failed_in self.old.live.hub.file ≡ true → reopens result ≡ true }
        ensures noted { (air : OnAirOf) (answered : AnsweredOf) → self.old.air ≡ Some air → result ≡ Done.Reopened answered
            → GoesOnWithLoss air self.new.air }
        ensures resumes { (air : OnAirOf) (answered : AnsweredOf) (machine : HubState) → self.old.air ≡ Some air → Shows D.Disk self.old.live.hub machine
            → result ≡ Done.Reopened answered → HasReopened D.Disk answered air self.new.air self.new.live machine }
        // Once a source has left the air, what was open is ended and kept, or it is told why not; the same once the file was
        // opened again while nobody is on the air.
        ensures at_rest { RestsBy result self.new.live.hub.file }
        ensures frees { FreesBy result self.old.air self.new.live.hub.file }
        // The air is offered then to those that wait for it, in turn, until one of them has it.
        ensures succeeded { IsSucceededBy result self.old.clients.slots self.new.clients.slots self.new.air }
        ensures begins { BeginsBy result (serials_in self.new.live.hub.file) self.old.options.skeletons (run_in self.new.air) }
        // What waits is committed once it is due, and answered as the recorder does.
        ensures commits { (machine : HubState) → Shows D.Disk self.old.live.hub machine → failed_in self.old.live.hub.file ≡ false
            → is_due machine.waiting self.old.waiting_since now ≡ true → HasFlushed D.Disk result self.old.live self.new.live }
        // Nothing is committed before it is due.
        ensures rests { (machine : HubState) (reply : ReplyOf) → Shows D.Disk self.old.live.hub machine → result ≡ Done.Flushed reply
            → is_due machine.waiting self.old.waiting_since now ≡ true }
        ensures flushed { (reply : ReplyOf) → result ≡ Done.Flushed reply
            → (self.new.air ≡ self.old.air) × HasFlushed D.Disk result self.old.live self.new.live }
        // It does nothing only if the disk works, nothing that waits is due, and nothing is pending of the source.
        ensures idle { result ≡ Done.Nothing → NothingPends self.old.air × (failed_in self.old.live.hub.file ≡ false) }
        ensures undue { (machine : HubState) → Shows D.Disk self.old.live.hub machine → result ≡ Done.Nothing
            → is_due machine.waiting self.old.waiting_since now ≡ false }
        ensures nothing { result ≡ Done.Nothing → (self.new.live ≡ self.old.live) × (self.new.air ≡ self.old.air) }
        // What waits has waited since the step that took the first of it.
        ensures since { (machine : HubState) → Shows D.Disk self.old.live.hub machine → failed_in self.old.live.hub.file ≡ false
            → is_due machine.waiting self.old.waiting_since now ≡ false → self.new.waiting_since ≡ since_after machine.waiting self.old.waiting_since now }
        ensures due { (machine : HubState) → Shows D.Disk self.old.live.hub machine
            → (failed_in self.old.live.hub.file ≡ true) ⊎ (is_due machine.waiting self.old.waiting_since now ≡ true)
            → self.new.waiting_since ≡ self.old.waiting_since }
        // After a fault of the disk the file is opened again, unless nothing more was committed since it was before.
        ensures again { result ≡ Done.Failed → HasReopenedAt D.Disk self.old.live self.old.reopened }
        ensures once { failed_in self.old.live.hub.file ≡ true → (result ≡ Done.Failed) ⊎ HasReopenedAt D.Disk self.old.live self.new.reopened }
        ensures more { failed_in self.old.live.hub.file ≡ true → result ≢ Done.Failed → (machine : HubState) → Shows D.Disk self.old.live.hub machine
            → self.old.reopened ≢ Some (length machine.committed) }
        ensures works { failed_in self.old.live.hub.file ≡ false → self.new.reopened ≡ self.old.reopened }
        // How it is run, and whether it comes to its end, stays; what was done is counted.
        ensures rest { (self.new.options ≡ self.old.options) × (self.new.ending ≡ self.old.ending)
            × (streams_in self.new.counts ≡ streams_in (with_done result self.old.counts)) }
        // When everybody was looked at stays.
        ensures looked { self.new.looked ≡ self.old.looked }
        // If more is committed, listeners are woken now, or it is remembered that they are to be.
        ensures wakes { (before after : HubState) → Shows D.Disk self.old.live.hub before → Shows D.Disk self.new.live.hub after
            → length before.committed ≢ length after.committed
            → (self.new.waking ≡ woken_at now (length after.committed)) ⊎ (self.new.waking.unheard ≡ true) }
        // While something waits for them, they weren't to be woken.
        ensures undue_yet { (machine : HubState) → Shows D.Disk self.new.live.hub machine → self.new.waking.unheard ≡ true
            → are_due (gathers self.new.air self.new.ending) self.new.waking now (length machine.committed) ≡ false }
        // No session is touched, and the places stay those of the file.
        ensures records { RecordsLive D.Disk self.old.live self.new.live }
        // Of the connections only the one changes that sent the source which has left the air, and those that waited for
        // it; others may have got a turn.
        ensures kept { AreKept self.old.options.password now self.old.clients.slots self.new.clients.slots }
        ensures passed { ArePassed self.old.clients.slots self.new.clients.slots }
    {
        let end = self.live.hub().end();
        let done = self.step_once(now);
        self.count(done);
        if self.live.hub().end() != end {
            self.counts.commits = counted(self.counts.commits, 1);
            self.waking = self.waking.with_more();
        }
        self.wake_listeners(now);
        self.wake_feeder();
        done
    }

    /// Counts what a step has done.
    fn count(&mut self, done: Done)
        ensures { self.new ≡ record self.old { counts = with_done done self.old.counts } }
    {
        match done {
            Done::Stepped(step) => self.counts = self.counts.with_step(step),
            Done::Ended { junk, taken, .. } => {
                self.counts = self.counts.with_end(junk, taken);
            }
            Done::Foreign { .. } => {
                self.counts.sources_refused = counted(self.counts.sources_refused, 1);
            }
            Done::Reopened(_) => self.counts.reopenings = counted(self.counts.reopenings, 1),
            _ => {}
        }
    }

    /// Does what is next to be done.
    fn step_once(&mut self, now: u64) -> Done
        ensures takes { (air : OnAirOf) → self.old.air ≡ Some air
            → TakesFromSource D.Disk result air self.new.air self.old.live self.new.live }
        ensures parts { (air : OnAirOf) → self.old.air ≡ Some air
            → PartsBy result air self.old.clients.slots self.new.clients.slots }
        ensures foreign { (air : OnAirOf) (machine : HubState) → self.old.air ≡ Some air → Shows D.Disk self.old.live.hub machine
            → failed_in self.old.live.hub.file ≡ false → is_due machine.waiting self.old.waiting_since now ≡ false
            → is_foreign air.has_page air.import.input.pages.offset ≡ true → IsTurnedAway air result }
        ensures cause { (air : OnAirOf) (fault : RecordFaultOf) (refused : Option RefusalOf) → self.old.air ≡ Some air
            → failed_in self.old.live.hub.file ≡ false → result ≡ Done.GivenUp fault refused → HasGivenUp D.Disk fault air self.old.live }
        ensures at_rest { RestsBy result self.new.live.hub.file }
        ensures frees { FreesBy result self.old.air self.new.live.hub.file }
        ensures succeeded { IsSucceededBy result self.old.clients.slots self.new.clients.slots self.new.air }
        ensures begins { BeginsBy result (serials_in self.new.live.hub.file) self.old.options.skeletons (run_in self.new.air) }
        ensures failed { failed_in self.old.live.hub.file ≡ true → reopens result ≡ true }
        ensures noted { (air : OnAirOf) (answered : AnsweredOf) → self.old.air ≡ Some air → result ≡ Done.Reopened answered
            → GoesOnWithLoss air self.new.air }
        ensures resumes { (air : OnAirOf) (answered : AnsweredOf) (machine : HubState) → self.old.air ≡ Some air → Shows D.Disk self.old.live.hub machine
            → result ≡ Done.Reopened answered → HasReopened D.Disk answered air self.new.air self.new.live machine }
        ensures commits { (machine : HubState) → Shows D.Disk self.old.live.hub machine → failed_in self.old.live.hub.file ≡ false
            → is_due machine.waiting self.old.waiting_since now ≡ true → HasFlushed D.Disk result self.old.live self.new.live }
        ensures rests { (machine : HubState) (reply : ReplyOf) → Shows D.Disk self.old.live.hub machine → result ≡ Done.Flushed reply
            → is_due machine.waiting self.old.waiting_since now ≡ true }
        ensures flushed { (reply : ReplyOf) → result ≡ Done.Flushed reply
            → (self.new.air ≡ self.old.air) × HasFlushed D.Disk result self.old.live self.new.live }
        ensures idle { result ≡ Done.Nothing → NothingPends self.old.air × (failed_in self.old.live.hub.file ≡ false) }
        ensures undue { (machine : HubState) → Shows D.Disk self.old.live.hub machine → result ≡ Done.Nothing
            → is_due machine.waiting self.old.waiting_since now ≡ false }
        ensures nothing { result ≡ Done.Nothing → (self.new.live ≡ self.old.live) × (self.new.air ≡ self.old.air) }
        ensures records { RecordsLive D.Disk self.old.live self.new.live }
        ensures clocks { clocks_of self.new ≡ record (clocks_of self.old) { waiting_since = self.new.waiting_since; reopened = self.new.reopened } }
        ensures since { (machine : HubState) → Shows D.Disk self.old.live.hub machine → failed_in self.old.live.hub.file ≡ false
            → is_due machine.waiting self.old.waiting_since now ≡ false → self.new.waiting_since ≡ since_after machine.waiting self.old.waiting_since now }
        ensures due { (machine : HubState) → Shows D.Disk self.old.live.hub machine
            → (failed_in self.old.live.hub.file ≡ true) ⊎ (is_due machine.waiting self.old.waiting_since now ≡ true)
            → self.new.waiting_since ≡ self.old.waiting_since }
        ensures again { result ≡ Done.Failed → HasReopenedAt D.Disk self.old.live self.old.reopened }
        ensures once { failed_in self.old.live.hub.file ≡ true → (result ≡ Done.Failed) ⊎ HasReopenedAt D.Disk self.old.live self.new.reopened }
        ensures more { failed_in self.old.live.hub.file ≡ true → result ≢ Done.Failed → (machine : HubState) → Shows D.Disk self.old.live.hub machine
            → self.old.reopened ≢ Some (length machine.committed) }
        ensures works { failed_in self.old.live.hub.file ≡ false → self.new.reopened ≡ self.old.reopened }
        ensures kept { AreKept self.old.options.password now self.old.clients.slots self.new.clients.slots }
    {
        if self.live.hub().is_failed() {
            return self.reopen(now);
        }
        if is_due(self.live.hub().held(), self.waiting_since, now) {
            return Done::Flushed(self.live.run_flush());
        }
        let waited = self.live.hub().held() > 0;
        let done = self.step_air(now);
        if !waited {
            self.waiting_since = now;
        }
        done
    }

    /// Takes a step of the source, if there is one.
    fn step_air(&mut self, now: u64) -> Done
        ensures takes { (air : OnAirOf) → self.old.air ≡ Some air
            → TakesFromSource D.Disk result air self.new.air self.old.live self.new.live }
        ensures parts { (air : OnAirOf) → self.old.air ≡ Some air
            → PartsBy result air self.old.clients.slots self.new.clients.slots }
        ensures foreign { (air : OnAirOf) → self.old.air ≡ Some air
            → is_foreign air.has_page air.import.input.pages.offset ≡ true → IsTurnedAway air result }
        ensures cause { (air : OnAirOf) (fault : RecordFaultOf) (refused : Option RefusalOf) → self.old.air ≡ Some air
            → result ≡ Done.GivenUp fault refused → HasGivenUp D.Disk fault air self.old.live }
        ensures at_rest { RestsBy result self.new.live.hub.file }
        ensures succeeded { IsSucceededBy result self.old.clients.slots self.new.clients.slots self.new.air }
        ensures begins { BeginsBy result (serials_in self.new.live.hub.file) self.old.options.skeletons (run_in self.new.air) }
        ensures goes_on { (answered : AnsweredOf) → result ≢ Done.Reopened answered }
        ensures rests { (reply : ReplyOf) → result ≢ Done.Flushed reply }
        ensures works { result ≢ Done.Failed }
        ensures idle { result ≡ Done.Nothing → NothingPends self.old.air }
        ensures nothing { result ≡ Done.Nothing → (self.new.live ≡ self.old.live) × (self.new.air ≡ self.old.air) }
        ensures records { RecordsLive D.Disk self.old.live self.new.live }
        ensures clocks { KeepsClocks self.old self.new }
        ensures kept { AreKept self.old.options.password now self.old.clients.slots self.new.clients.slots }
    {
        let Some(air) = &mut self.air else {
            return Done::Nothing;
        };
        match air.step(&mut self.live) {
            Ok(Took::Nothing) => Done::Nothing,
            Ok(Took::Bytes) => Done::Bytes,
            Ok(Took::Stepped(step)) => Done::Stepped(step),
            Ok(Took::Foreign { passed }) => {
                let feeder = air.feeder();
                let refused = self.leave_the_air(false, now);
                Done::Foreign {
                    feeder,
                    passed,
                    refused,
                }
            }
            Ok(
                Took::Ended {
                    offset,
                    junk,
                    taken,
                },
            ) => {
                let refused = self.leave_the_air(false, now);
                Done::Ended {
                    offset,
                    junk,
                    taken,
                    refused,
                }
            }
            Err(fault) => self.give_up(fault, now),
        }
    }

    /// Nobody is on the air any more. What is open is ended, what waits is committed, and the peer is answered if it
    /// waits for that. If the source was given up, or something is refused now, something of it may be lost. It returns
    /// what was refused first.
    fn leave_the_air(&mut self, given_up: bool, now: u64) -> Option<Refusal>
        ensures parts { (air : OnAirOf) → self.old.air ≡ Some air
            → FeederParts (parting_answer (given_up || is_some result) air) air self.old.clients.slots self.new.clients.slots }
        ensures at_rest { self.old.air ≢ None → RestsUnless result self.new.live.hub.file }
        ensures succeeded { self.old.air ≢ None → IsSucceeded self.old.clients.slots self.new.clients.slots self.new.air }
        ensures begins { self.old.air ≢ None → BeginsBeside (serials_in self.new.live.hub.file) self.old.options.skeletons (run_in self.new.air) }
        ensures records { RecordsLive D.Disk self.old.live self.new.live }
        ensures clocks { KeepsClocks self.old self.new }
        ensures kept { AreKept self.old.options.password now self.old.clients.slots self.new.clients.slots }
    {
        match self.air.take() {
            Some(air) => self.left_by(&air, given_up, now),
            None => None,
        }
    }

    /// This source isn't on the air any more.
    fn left_by(&mut self, air: &OnAir, given_up: bool, now: u64) -> Option<Refusal>
        ensures parts { FeederParts (parting_answer (given_up || is_some result) air.now) air.now self.old.clients.slots self.new.clients.slots }
        ensures at_rest { RestsUnless result self.new.live.hub.file }
        ensures succeeded { self.old.air ≡ None → IsSucceeded self.old.clients.slots self.new.clients.slots self.new.air }
        ensures begins { self.old.air ≡ None → BeginsBeside (serials_in self.new.live.hub.file) self.old.options.skeletons (run_in self.new.air) }
        ensures records { RecordsLive D.Disk self.old.live self.new.live }
        ensures clocks { KeepsClocks self.old self.new }
        ensures kept { AreKept self.old.options.password now self.old.clients.slots self.new.clients.slots }
    {
        self.waking = self.waking.with_more();
        let refused = self.unended();
        let lost = is_lost(given_up, refused);
        self.answer_feeder(air, lost);
        self.offer_again(now);
        refused
    }

    /// Ends what is open, as `end_open` does. It returns what was refused first, if anything was.
    fn unended(&mut self) -> Option<Refusal>
        ensures rest { self.new ≡ record self.old { live = self.new.live } }
        ensures at_rest { RestsUnless result self.new.live.hub.file }
        ensures records { RecordsLive D.Disk self.old.live self.new.live }
    {
        match self.end_open() {
            Ok(()) => None,
            Err(refusal) => Some(refusal),
        }
    }

    /// A source has left the air. If a connection sent it, that gets its last bytes.
    fn answer_feeder(&mut self, air: &OnAir, lost: bool)
        ensures parts { FeederParts (parting_answer lost air.now) air.now self.old.clients.slots self.new.clients.slots }
        ensures waits { SameWait self.old.clients.slots self.new.clients.slots }
        ensures rest { self.new ≡ record self.old { clients = self.new.clients } }
        ensures left { AreLeft self.old.clients.slots self.new.clients.slots }
    {
        if let Feeder::Peer(key) = air.feeder() {
            self.part(key, air.answer(lost));
        }
    }

    /// A source has left the air. Its connection gets this answer, if it waits for one, and nothing more.
    fn part(&mut self, key: usize, answer: Option<Outcome>)
        ensures parts { (client : ClientState) → get self.old.clients.slots key ≡ Some client → client.stage ≡ FeedingOf
            → (after : ClientState) × (get self.new.clients.slots key ≡ Some after) × HasParted answer client after }
        ensures waits { SameWait self.old.clients.slots self.new.clients.slots }
        ensures others { OthersStay key self.old.clients self.new.clients }
        ensures rest { self.new ≡ record self.old { clients = self.new.clients } }
        ensures left { AreLeft self.old.clients.slots self.new.clients.slots }
    {
        let Some(client) = self.clients.slots.get_mut(key) else {
            return;
        };
        if client.stage != Stage::Feeding {
            return;
        }
        match answer {
            Some(outcome) => client.tell_last(outcome.answer()),
            None => client.go_to(Stage::Ending),
        }
    }

    /// Ends each stream that the file's last link has open, and commits that. It stops at the first end that is refused.
    /// Unless all of it is done then, it returns what was refused first.
    pub fn end_open(&mut self) -> Result<(), Refusal>
        ensures rest { self.new ≡ record self.old { live = self.new.live } }
        ensures rests { OnOk result (is_at_rest self.new.live.hub.file ≡ true) }
        ensures left { OnErr result (is_at_rest self.new.live.hub.file ≡ false) }
        // Each stream that is open is tried in turn, up to the first whose end is refused.
        ensures ends { EndsOpen result self.old.live.hub self.new.live.hub }
        ensures records { RecordsLive D.Disk self.old.live self.new.live }
    {
        self.live.end_open()
    }

    /// Opens the file again, if anything was kept since that was done before.
    fn reopen(&mut self, now: u64) -> Done
        ensures at_rest { RestsBy result self.new.live.hub.file }
        ensures frees { FreesBy result self.old.air self.new.live.hub.file }
        ensures noted { (air : OnAirOf) (answered : AnsweredOf) → self.old.air ≡ Some air → result ≡ Done.Reopened answered
            → GoesOnWithLoss air self.new.air }
        ensures resumes { (air : OnAirOf) (answered : AnsweredOf) (machine : HubState) → self.old.air ≡ Some air → Shows D.Disk self.old.live.hub machine
            → result ≡ Done.Reopened answered → HasReopened D.Disk answered air self.new.air self.new.live machine }
        ensures parts { (air : OnAirOf) (fault : RecordFaultOf) (refused : Option RefusalOf) → self.old.air ≡ Some air → result ≡ Done.GivenUp fault refused
            → FeederParts (parting_answer true air) air self.old.clients.slots self.new.clients.slots }
        ensures succeeded { IsSucceededBy result self.old.clients.slots self.new.clients.slots self.new.air }
        ensures begins { BeginsBy result (serials_in self.new.live.hub.file) self.old.options.skeletons (run_in self.new.air) }
        ensures waits { result ≡ Done.Failed → self.new ≡ self.old }
        ensures lost { (fault : OpenFaultOf) → result ≡ Done.Lost fault → (self.new.air ≡ self.old.air) × (self.new.clients ≡ self.old.clients) }
        ensures reopens { reopens result ≡ true }
        ensures records { RecordsLive D.Disk self.old.live self.new.live }
        ensures clocks { clocks_of self.new ≡ record (clocks_of self.old) { reopened = self.new.reopened } }
        // It was opened again, unless nothing more was committed since it was before.
        ensures again { result ≡ Done.Failed → HasReopenedAt D.Disk self.old.live self.old.reopened }
        ensures once { (result ≡ Done.Failed) ⊎ HasReopenedAt D.Disk self.old.live self.new.reopened }
        ensures more { result ≢ Done.Failed → (machine : HubState) → Shows D.Disk self.old.live.hub machine → self.old.reopened ≢ Some (length machine.committed) }
        ensures kept { AreKept self.old.options.password now self.old.clients.slots self.new.clients.slots }
    {
        let end = self.live.hub().end();
        if self.reopened == Some(end) {
            return Done::Failed;
        }
        self.reopened = Some(end);
        match self.live.reopen() {
            Ok(()) => self.resume(now),
            Err(fault) => Done::Lost(fault),
        }
    }

    /// What is on the air goes on in the file that was opened again. What waited may be lost. If nobody is on the air, what
    /// is open is nobody's, and is ended.
    pub fn resume(&mut self, now: u64) -> Done
        ensures at_rest { RestsBy result self.new.live.hub.file }
        ensures frees { FreesBy result self.old.air self.new.live.hub.file }
        ensures noted { (air : OnAirOf) (answered : AnsweredOf) → self.old.air ≡ Some air → result ≡ Done.Reopened answered
            → GoesOnWithLoss air self.new.air }
        ensures resumes { (air : OnAirOf) (answered : AnsweredOf) (before : Progress D) → self.old.air ≡ Some air → IsIn D.Disk before self.old.live.hub
            → result ≡ Done.Reopened answered → GoesOnAgain D.Disk answered air self.new.air self.new.live before }
        ensures parts { (air : OnAirOf) (fault : RecordFaultOf) (refused : Option RefusalOf) → self.old.air ≡ Some air → result ≡ Done.GivenUp fault refused
            → FeederParts (parting_answer true air) air self.old.clients.slots self.new.clients.slots }
        ensures succeeded { IsSucceededBy result self.old.clients.slots self.new.clients.slots self.new.air }
        ensures begins { BeginsBy result (serials_in self.new.live.hub.file) self.old.options.skeletons (run_in self.new.air) }
        ensures none { self.old.air ≡ None → ((answered : AnsweredOf) × (result ≡ Done.Reopened answered)) × (self.new ≡ record self.old { live = self.new.live }) }
        ensures reopens { reopens result ≡ true }
        ensures becomes { ((answered : AnsweredOf) × (result ≡ Done.Reopened answered))
            ⊎ ((fault : RecordFaultOf) × (refused : Option RefusalOf) × (result ≡ Done.GivenUp fault refused)) }
        ensures records { RecordsLive D.Disk self.old.live self.new.live }
        ensures clocks { KeepsClocks self.old self.new }
        ensures kept { AreKept self.old.options.password now self.old.clients.slots self.new.clients.slots }
    {
        let Some(air) = &mut self.air else {
            return Done::Reopened(only_refused(self.end_open()));
        };
        air.lose();
        let hub = self.live.hub();
        let resumed = match air.resume(hub.streams(), hub.serials()) {
            Ok(commands) => run_all(&mut self.live, commands.as_slice(), &mut io::sink()),
            Err(_) => return self.give_up(RecordFault::Memory, now),
        };
        match resumed {
            Ok(answered) => Done::Reopened(answered),
            Err(_) => self.give_up(RecordFault::Write, now),
        }
    }

    /// The source leaves the air before its end.
    fn give_up(&mut self, fault: RecordFault, now: u64) -> Done
        ensures done { (refused : Option RefusalOf) × (result ≡ Done.GivenUp fault refused) × (self.old.air ≢ None → RestsUnless refused self.new.live.hub.file) }
        ensures parts { (air : OnAirOf) → self.old.air ≡ Some air
            → FeederParts (parting_answer true air) air self.old.clients.slots self.new.clients.slots }
        ensures succeeded { self.old.air ≢ None → IsSucceeded self.old.clients.slots self.new.clients.slots self.new.air }
        ensures begins { self.old.air ≢ None → BeginsBeside (serials_in self.new.live.hub.file) self.old.options.skeletons (run_in self.new.air) }
        ensures records { RecordsLive D.Disk self.old.live self.new.live }
        ensures clocks { KeepsClocks self.old self.new }
        ensures kept { AreKept self.old.options.password now self.old.clients.slots self.new.clients.slots }
    {
        let refused = self.leave_the_air(true, now);
        Done::GivenUp { fault, refused }
    }

    /// How many milliseconds may be waited before `step` commits what waits, if nothing comes; none if nothing waits.
    pub(crate) fn until_due(&self, now: u64) -> Option<u64>
        ensures { (machine : HubState) → Shows D.Disk self.now.live.hub machine
            → result ≡ until_due machine.waiting self.now.waiting_since now }
    {
        until_due(self.live.hub().held(), self.waiting_since, now)
    }
}
