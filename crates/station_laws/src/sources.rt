//! What always holds of the sources of a station.
ghost use Rattle.std.specs.Prelude.{◌≡◌, ◌++◌, ◌+◌, ◌-◌, ◌<◌, ◌^◌, ◌∷◌, ◌⊎◌, [], ℕ, List, None, Some, Option, length};
ghost use Rattle.import_mend.specs.Found.{AreGoodPages};
ghost use Rattle.import_mend.specs.declared.mend.Mend.{Mend as MendOf};
ghost use Rattle.import_record.specs.declared.intake.Taken.{Taken as TakenOf};
ghost use Rattle.import_record.specs.Pushing.{Call, Feeds, NeedsNone, bytes_in, events_in};
ghost use Rattle.import_record.specs.declared.reading.Step.{Step as StepOf};
ghost use Rattle.import_record.specs.Whole.{pages_in};
ghost use Rattle.ogg_command.specs.declared.refusal.Refusal.{Refusal as RefusalOf};
ghost use Rattle.serve_hub.specs.Running.{IsIn, Progress};
ghost use Rattle.serve_hub.specs.Showing.{Shows};
ghost use Rattle.serve_machine.specs.Hub.{HubState};
ghost use Rattle.station_hub.specs.declared.live_hub.LiveHub.{LiveHub as LiveHubOf};
ghost use Rattle.station_sources.specs.Importing.{rest_of};
ghost use Rattle.station_sources.specs.Taking.{input_of};
ghost use Rattle.station_sources.specs.declared.air.OnAir.{OnAir as OnAirOf};
ghost use Rattle.station_hub.specs.Keeping.{KeepsRecorded};
ghost use Rattle.station.specs.Keeping.{IsFedMore};
ghost use Rattle.station_laws.specs.Recorded.{AnswersOn, AreCalled, AreLast, IsImported, SourceCall, came_in, file_of};
ghost use Rattle.station.specs.Stepping.{TakesFromSource};

use disk_model::Disk;
use feed_replies::Reply;
use feed_runner::Runner;
use import_record::{pages_that_come_are_the_good_pages, recordings_are_runs_of_mended_commands};
use ogg_command::Command;
use ogg_page::WriteFault;
use station::Done;
use station_hub::LiveHub;
use station_sources::sources_are_imported;
use std::io::Write;

/// A hub as those see it who look at its file alone: for the proof alone.
struct FileHub<D: Disk> {
    live: LiveHub<D>,
}

/// It answers as its hub does, but what its answers depend on is the file alone.
impl<D: Disk + Drop> Runner for FileHub<D> {
    ghost State = { HubState };

    ghost is_in = { λ file own. (before : Progress D) × IsIn D.Disk before own.live.hub × (file_of before.machine ≡ file) };

    ghost answers = { AnswersOn D.Disk };

    ghost held_in = { λ file. file.waiting };

    ghost end_in = { λ file. length file.committed };

    ghost counted = { λ own. 0 };

    fn run_command<P: Write>(
        &mut self,
        command: &Command,
        pages: &mut P,
    ) -> Result<Reply, WriteFault> {
        self.live.run_command(command, pages)
    }

    fn run_flush(&mut self) -> Reply {
        self.live.run_flush()
    }

    fn waiting(&self) -> u64 {
        self.live.waiting()
    }

    fn kept_length(&self) -> u64 {
        self.live.kept_length()
    }
}

/// Whatever calls come while a source has the air, for it and for other connections, what is recorded of it is an
/// import of the bytes that came to its stream, however they came. Without a framing these are all bytes that came, in
/// their order. The pages that are taken are the good pages of them.
pub fn stations_import_their_sources<D: Disk + Drop>()
    ensures so_far { (calls : List SourceCall) (old new : OnAirOf) (live last : LiveHubOf D) (machine : HubState)
        → AreCalled D.Disk calls old new live last → Shows D.Disk live.hub machine
        → (after : HubState) × Shows D.Disk last.hub after × (taken : List Call)
        × Feeds (AnswersOn D.Disk) taken (input_of old.import) (input_of new.import) (file_of machine) (file_of after)
        × (old.body ≡ None → (rest_of old ++ came_in calls ≡ bytes_in taken ++ rest_of new) × (new.body ≡ None))
        × (old.import.input.pages.outcome ≡ None → old.import.input.pages.offset + length (old.import.input.pages.unread ++ bytes_in taken) < 2 ^ 64 - 1
        → (rest : List ℕ) × AreGoodPages old.import.input.pages.offset (old.import.input.pages.unread ++ bytes_in taken) (pages_in (events_in taken)) rest) }
    // So it is of a source that has come to its end.
    ensures ended { (calls last : List SourceCall) (old mid new : OnAirOf) (live between ending gone : LiveHubOf D) (next : Option OnAirOf)
        (machine : HubState) (offset : ℕ) (junk : Option MendOf) (taken : TakenOf) (refused : Option RefusalOf)
        → AreCalled D.Disk calls old mid live between → AreLast D.Disk last mid new between ending
        → TakesFromSource D.Disk (Done.Ended offset junk taken refused) new next ending gone → Shows D.Disk live.hub machine
        → IsImported D.Disk calls offset taken old mid machine }
    // Calls that follow make the list longer. Bytes that came are in it as they came, or it is noted that there was no room
    // for them.
    ensures joins { (calls later : List SourceCall) (old mid new : OnAirOf) (live between last : LiveHubOf D)
        → AreCalled D.Disk calls old mid live between → AreCalled D.Disk later mid new between last
        → AreCalled D.Disk (calls ++ later) old new live last }
    ensures fed { (bytes : List ℕ) (old : OnAirOf) (now : Option OnAirOf) (live last : LiveHubOf D)
        → IsFedMore old.feeder bytes (Some old) now → KeepsRecorded D.Disk live.hub last.hub
        → (new : OnAirOf) × (now ≡ Some new)
        × (AreCalled D.Disk (SourceCall.Came bytes ∷ []) old new live last ⊎ AreCalled D.Disk (SourceCall.Noted ∷ []) old new live last) }
    // So it is of a step, as far as more bytes weren't needed for it.
    ensures passed { (old : OnAirOf) (now : Option OnAirOf) (live last : LiveHubOf D) → TakesFromSource D.Disk Done.Bytes old now live last
        → (new : OnAirOf) × (now ≡ Some new) × AreCalled D.Disk (SourceCall.WentOn ∷ []) old new live last }
    ensures stepped { (step : StepOf) (old : OnAirOf) (now : Option OnAirOf) (live last : LiveHubOf D) (machine : HubState)
        → NeedsNone step old.import.input.pages → Shows D.Disk live.hub machine → TakesFromSource D.Disk (Done.Stepped step) old now live last
        → (new : OnAirOf) × (now ≡ Some new) × AreCalled D.Disk (SourceCall.Took step ∷ []) old new live last }
{
    sources_are_imported::<FileHub<D>>();
    recordings_are_runs_of_mended_commands::<FileHub<D>>();
    pages_that_come_are_the_good_pages::<FileHub<D>>();
}
