//! A hub, and where listeners may join what it records.
ghost use Rattle.std.specs.Prelude.{◌≡◌, ◌++◌, ⊤, ℕ, Bool, true, false, List, [], None, Some, IfErr, IfOk, OnOk, OnErr, Result, length};
ghost use Rattle.std.specs.Io.KnownBytes.{Appends};
ghost use Rattle.ogg_page.specs.Output.{WritesPart};
ghost use Rattle.feed_records.specs.declared.item.Record.{Record as RecordOf};
ghost use Rattle.chain_rules.specs.Decision.{is_begin};
ghost use Rattle.feed_replies.specs.declared.reply.Reply.{Reply as ReplyOf};
ghost use Rattle.feed_replies.specs.declared.reply.Reply.TheVariants.{Held as HeldOf};
ghost use Rattle.feed_runner.specs.Refusing.{refuses};
ghost use Rattle.file_recorder.specs.Ending.{AllEnded, EndRefused};
ghost use Rattle.file_recorder.specs.Recorder.{committed};
ghost use Rattle.gate_file.specs.Commit.{CommitsTo};
ghost use Rattle.gate_file.specs.Gate.{EachImage};
ghost use Rattle.serve_hub.specs.Exchanging.{only_read};
ghost use Rattle.serve_hub.specs.Parts.{OnlySessions, hub_parts, is_at_rest, is_settled};
ghost use Rattle.ogg_command.specs.declared.command.Command.{Command as CommandOf};
ghost use Rattle.serve_hub.specs.Running.{RepliesIn};
ghost use Rattle.serve_hub.specs.Showing.{Shows};
ghost use Rattle.serve_live.specs.Boundaries.{no_link, place_to_join};
ghost use Rattle.serve_machine.specs.Calls.{Steps, found_by};
ghost use Rattle.serve_machine.specs.Hub.{Close, HubState, Reopen};
ghost use Rattle.serve_machine.specs.declared.fault.HubFault.{HubFault as HubFaultOf};
ghost use Rattle.station_hub.specs.Keeping.{KeepsRecorded};
ghost use Rattle.station_hub.specs.Ending.{EndsOpen, HubReplies, streams_of};
ghost use Rattle.station_hub.specs.Live.{BeginsOver, RecordsLive};
ghost use Rattle.station_hub.specs.LiveRunning.{IsLiveIn, LiveAnswers, LiveProgress};
ghost use Rattle.station_hub.specs.Places.{answered_by, committed_to, reopened_to};
ghost use Rattle.station_hub.specs.Tracking.{IsOpenIn, IsTold, KeepsPlaces};
ghost use Rattle.station_hub.specs.declared.places.Answered.{Answered as AnsweredOf};

use crate::laws::listeners_join_committed_links;
use crate::places::{Answered, Places};
use disk_model::Disk;
use feed_replies::Reply;
use feed_runner::Runner;
use file_recorder::{Recorder, ends_leave_fewer_open, first_open};
use gate_file::OpenFault;
use link_chain::is_open;
use ogg_command::{Command, Refusal, command_is_in_range};
use ogg_page::WriteFault;
use serve_hub::Hub;
use serve_live::JoinPlace;
use serve_machine::calls_move_their_session;
use std::alloc::{AllocError as Memory, Global};
use std::io::Write;

/// A hub, and where listeners may join the link that it records.
#[derive(Drop)]
pub struct LiveHub<D: Disk> {
    pub(crate) hub: Hub<D>,
    places: Places,
}

impl<D: Disk + Drop> LiveHub<D> {
    /// Nobody joins before a link begins.
    pub fn new(alloc: Global, hub: Hub<D>) -> Result<LiveHub<D>, Memory>
        ensures hub { IfOk result (λ live. live.hub ≡ hub) }
        ensures places { IfOk result (λ live. live.places ≡ record { boundaries = no_link; begun = None }) }
        ensures begins { IfOk result (λ live. BeginsOver hub live) }
    {
        listeners_join_committed_links();
        let places = Places::new(alloc)?;
        Ok(LiveHub { hub, places })
    }

    /// The hub, to be looked at.
    pub fn hub(&self) -> &Hub<D>
        ensures { result.now ≡ self.now.hub }
    {
        &self.hub
    }

    /// Returns the hub. What waits isn't committed.
    pub fn into_hub(self) -> Hub<D>
        ensures { result ≡ self.hub }
    {
        self.hub
    }

    /// Where a listener joins, if a link is open whose beginning is known.
    pub fn place(&self) -> Option<JoinPlace>
        ensures { result ≡ place_to_join self.now.places.boundaries }
    {
        self.places.place()
    }

    /// Ends a session. After a fault of the file it has ended already.
    pub fn close(&mut self, id: u64)
        ensures step { (answer : Result ⊤ HubFaultOf) × Steps (Shows D.Disk) self.old.hub self.new.hub (λ after. Close id answer) }
        ensures parts { OnlySessions self.old.hub self.new.hub }
        ensures recorded { KeepsRecorded D.Disk self.old.hub self.new.hub }
        ensures places { self.new.places ≡ self.old.places }
    {
        // For the proof alone.
        calls_move_their_session();
        let _ = self.hub.close(id);
    }

    /// Opens the file again, as the hub does, with its faults. What waited is lost, or was committed after all, and where
    /// listeners join follows from that.
    pub fn reopen(&mut self) -> Result<(), OpenFault>
        ensures step { Steps (Shows D.Disk) self.old.hub self.new.hub (λ after. Reopen (found_by result after)) }
        ensures same { OnErr result (self.new.places ≡ self.old.places) }
        ensures keeps { KeepsPlaces (Shows D.Disk) self.old.hub self.old.places self.new.hub self.new.places }
        ensures records { RecordsLive D.Disk self.old self.new }
    {
        listeners_join_committed_links();
        let end = self.hub.end();
        match self.hub.reopen() {
            Ok(()) => {
                self.reopened(end);
                Ok(())
            }
            Err(fault) => Err(fault),
        }
    }

    /// From now on the file is read by this recorder, as [`Hub::read_by`] has it.
    pub fn read_by(&mut self, recorder: Recorder<D>) -> Result<Recorder<D>, D>
        ensures before { IfOk result (λ before. self.old.hub.file ≡ Some before) }
        ensures lost { IfErr result (λ disk. self.old.hub.file ≡ None) }
        ensures places { self.new.places ≡ self.old.places }
        ensures rest { self.new.hub ≡ hub_parts (Some recorder) self.new.hub.lost self.old.hub.index self.old.hub.sessions
            self.old.hub.next self.old.hub.most self.old.hub.room }
        ensures shown { (machine : HubState) → Shows D.Disk self.old.hub machine → is_settled self.old.hub.file ≡ true
            → recorder.file.failed ≡ true → D.is_honest recorder.file.disk
            → committed D.state recorder ≡ machine.committed
            → EachImage (D.state recorder.file.disk) (CommitsTo machine.committed)
            → Shows D.Disk self.new.hub (only_read recorder machine) }
    {
        self.hub.read_by(recorder)
    }

    /// Ends each stream that the file's last link has open, and commits that. It stops at the first end that is refused.
    /// Unless all of it is done then, it returns what was refused first.
    pub fn end_open(&mut self) -> Result<(), Refusal>
        ensures rests { OnOk result (is_at_rest self.new.hub.file ≡ true) }
        ensures left { OnErr result (is_at_rest self.new.hub.file ≡ false) }
        ensures ends { EndsOpen result self.old.hub self.new.hub }
        ensures records { RecordsLive D.Disk self.old self.new }
    {
        let ended = self.end_all();
        let flushed = self.run_flush();
        match ended {
            Ok(()) => refusal_in(flushed),
            Err(refusal) => Err(refusal),
        }
    }

    /// Ends the open streams in turn, up to the first end that is refused. It returns what that was refused as.
    fn end_all(&mut self) -> Result<(), Refusal>
        ensures ended { OnOk result ((replies : List ReplyOf) × AllEnded streams_of HubReplies self.old.hub self.new.hub replies) }
        ensures refused { IfErr result (λ refusal. (replies : List ReplyOf)
            × EndRefused streams_of HubReplies self.old.hub self.new.hub replies refusal) }
        ensures records { RecordsLive D.Disk self.old self.new }
    {
        // For the proof alone.
        ends_leave_fewer_open::<D>();
        while let Some(serial) = first_open(self.hub.streams()) {
            if let Reply::Refused(refusal) = self.end_stream(serial) {
                return Err(refusal);
            }
        }
        Ok(())
    }

    /// Ends a stream, and returns the reply.
    fn end_stream(&mut self, serial: u32) -> Reply
        ensures replied { RepliesIn self.old.hub.file (RecordOf.Command (CommandOf.End serial)) result self.new.hub.file }
        ensures records { RecordsLive D.Disk self.old self.new }
    {
        let end = Command::End(serial);
        self.answer(&end)
    }

    /// Runs a command, and returns the reply that says what became of it.
    fn answer(&mut self, command: &Command) -> Reply
        ensures answers { (before : LiveProgress D) → IsLiveIn D.Disk before self.old → (after : LiveProgress D)
            × LiveAnswers D.Disk before (RecordOf.Command command.now) result [] after
            × IsLiveIn D.Disk after self.new }
        ensures replied { RepliesIn self.old.hub.file (RecordOf.Command command.now) result self.new.hub.file }
        ensures keeps { KeepsPlaces (Shows D.Disk) self.old.hub self.old.places self.new.hub self.new.places }
    {
        listeners_join_committed_links();
        // For the proof alone.
        command_is_in_range(command);
        let length = self.hub.length();
        let reply = self.hub.answer(command);
        self.answered(command, length, reply);
        reply
    }

    /// A command got this reply. Before it, the file and what waited had `before` bytes. A boundary at which listeners join
    /// is one only once it is committed.
    fn answered(&mut self, command: &Command, before: u64, reply: Reply)
        ensures hub { self.new.hub ≡ self.old.hub }
        ensures waits { (count : ℕ) → reply ≡ HeldOf count → self.new.places.boundaries ≡ self.old.places.boundaries }
        // What is told of the command is what the hub has.
        ensures told { (old machine : HubState) → Shows D.Disk self.old.hub machine
            → (old.in_doubt ≡ None → before ≡ length (old.committed ++ old.held))
            → (answered : AnsweredOf) × IsTold command.now old machine answered × (self.new.places ≡ answered_by reply answered self.old.places) }
    {
        self.places.answered(
            reply,
            Answered {
                begins: is_begin(command),
                before,
                after: self.hub.length(),
                end: self.hub.end(),
                is_open: is_open(self.hub.streams()),
            },
        );
    }

    /// All that waited was committed.
    fn committed(&mut self)
        ensures hub { self.new.hub ≡ self.old.hub }
        ensures told { (machine : HubState) → Shows D.Disk self.old.hub machine → (going : Bool) × IsOpenIn machine going
            × (self.new.places ≡ committed_to (length machine.committed) going self.old.places) }
    {
        let open = is_open(self.hub.streams());
        self.places.committed(self.hub.end(), open);
    }

    /// The file was opened again, which had `end` committed bytes before.
    fn reopened(&mut self, end: u64)
        ensures hub { self.new.hub ≡ self.old.hub }
        ensures told { (machine : HubState) → Shows D.Disk self.old.hub machine → (going : Bool) × IsOpenIn machine going
            × (self.new.places ≡ reopened_to end (length machine.committed) going self.old.places) }
    {
        let open = is_open(self.hub.streams());
        self.places.reopened(end, self.hub.end(), open);
    }
}

/// Whether the command begins a link.
fn is_begin(command: &Command) -> bool
    ensures { result ≡ is_begin command.now }
{
    matches!(command, Command::Begin(_))
}

/// What this reply refuses, if it does.
fn refusal_in(reply: Reply) -> Result<(), Refusal>
    ensures ok { OnOk result (refuses reply ≡ false) }
    ensures err { IfErr result (λ refusal. reply ≡ ReplyOf.Refused refusal) }
{
    match reply {
        Reply::Refused(refusal) => Err(refusal),
        Reply::Held(_) => Ok(()),
        Reply::Kept(_) => Ok(()),
    }
}

/// It answers as its hub does, and where its listeners join stay places of its file.
impl<D: Disk + Drop> Runner for LiveHub<D> {
    ghost use Rattle.station_hub.specs.LiveRunning.{LiveProgress, IsLiveIn, LiveAnswers, waiting_in, end_in};

    ghost State = { LiveProgress D };

    ghost is_in = { IsLiveIn D.Disk };

    ghost answers = { LiveAnswers D.Disk };

    ghost held_in = { waiting_in };

    ghost end_in = { end_in };

    ghost counted = { λ live. 0 };

    fn run_command<P: Write>(
        &mut self,
        command: &Command,
        pages: &mut P,
    ) -> Result<Reply, WriteFault>
        ensures ok { (before : LiveProgress D) → IsLiveIn D.Disk before self.old
            → IfOk result (λ reply. (own : List ℕ) × (after : LiveProgress D)
            × LiveAnswers D.Disk before (RecordOf.Command command.now) reply own after
            × IsLiveIn D.Disk after self.new × Appends (P.contents pages.old) (P.contents pages.new) own) }
        ensures err { (before : LiveProgress D) → IsLiveIn D.Disk before self.old
            → OnErr result ((reply : ReplyOf) × (own : List ℕ) × (after : LiveProgress D)
            × LiveAnswers D.Disk before (RecordOf.Command command.now) reply own after
            × IsLiveIn D.Disk before self.new × WritesPart (P.contents pages.old) (P.contents pages.new) own) }
        ensures keeps { KeepsPlaces (Shows D.Disk) self.old.hub self.old.places self.new.hub self.new.places }
    {
        Ok(self.answer(command))
    }

    fn run_flush(&mut self) -> Reply
        ensures answers { (before : LiveProgress D) → IsLiveIn D.Disk before self.old → (after : LiveProgress D)
            × LiveAnswers D.Disk before RecordOf.Flush result [] after
            × IsLiveIn D.Disk after self.new }
        ensures replied { RepliesIn self.old.hub.file RecordOf.Flush result self.new.hub.file }
        ensures keeps { KeepsPlaces (Shows D.Disk) self.old.hub self.old.places self.new.hub self.new.places }
    {
        listeners_join_committed_links();
        let reply = self.hub.run_flush();
        if let Reply::Kept(_) = reply {
            self.committed();
        }
        reply
    }

    fn waiting(&self) -> u64 {
        self.hub.held()
    }

    fn kept_length(&self) -> u64 {
        self.hub.end()
    }
}
