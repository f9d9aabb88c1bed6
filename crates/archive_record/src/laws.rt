//! What always holds of archives.
ghost use Rattle.std.specs.Prelude.{◌≡◌, ◌++◌, ◌+◌, ◌-◌, ◌<◌, ◌^◌, ◌∷◌, ◌⊎◌, [], ℕ, List, None, Option, Some, length};
ghost use Rattle.feed_records.specs.declared.item.Record.TheVariants.{Flush};
ghost use Rattle.feed_replies.specs.declared.reply.Reply.{Reply as ReplyOf};
ghost use Rattle.import_gather.specs.Gathered.{HasGathered};
ghost use Rattle.import_mend.specs.Found.{AreGoodPages};
ghost use Rattle.import_changes.specs.Changed.{Become};
ghost use Rattle.import_mend.specs.Whole.{HasMended, IsStart, TakesPages};
ghost use Rattle.import_record.specs.Begun.{streams_after};
ghost use Rattle.import_record.specs.Pushing.{Comes, NeedsNone};
ghost use Rattle.import_record.specs.Running.{nothing};
ghost use Rattle.import_record.specs.Steps.{IntakeState, state_of};
ghost use Rattle.import_record.specs.Whole.{Done, pages_in};
ghost use Rattle.ogg_page.specs.Page.{Page};
ghost use Rattle.import_record.specs.declared.answering.Answered.{Answered as AnsweredOf};
ghost use Rattle.import_record.specs.declared.intake.Taken.{Taken as TakenOf};
ghost use Rattle.import_record.specs.declared.reading.ImportRun.{ImportRun as ImportRunOf};
ghost use Rattle.import_record.specs.declared.reading.Step.{Step as StepOf};
ghost use Rattle.archive_folder.specs.declared.names.Fate.TheVariants.{Stays};
ghost use Rattle.archive_history.specs.Archive.{Archive as Account, Newest as NewestFile, names};
ghost use Rattle.file_recorder.specs.Steps.{Stands};
ghost use Rattle.ogg_command.specs.declared.command.Command.{Command as CommandOf};
ghost use Rattle.archive_record.specs.Account.{LeadsTo};
ghost use Rattle.archive_record.specs.Leading.{CallsLeadOn};
ghost use Rattle.archive_record.specs.Changing.{GoesOver, HasBegun, HasNotEnded, IsReopened, IsSetAside};
ghost use Rattle.archive_record.specs.Recorded.{AreCalled, Begins, Call, Came, Flushed, GiveOn, HasKept, HaveKept, IsRecordedOver, Looked, Reopened, SetAside, Took, Unended, WentOver, Works, came_in, mends_of, more_of, pages_of};
ghost use Rattle.archive_record.specs.Stepping.{HasFinished, HasFlushed, HasStepped, input_of};
ghost use Rattle.archive_record.specs.Writing.{AnswersIn, IsNow, Writing};
ghost use Rattle.archive_record.specs.declared.newest.Newest.{Newest as NewestOf};

use crate::newest::Newest;
use archive_folder::Folder;
use archive_history::{calls_are_events, calls_lead_on, events_lead_on};
use disk_model::Disk;
use feed_replies::Reply;
use feed_runner::Runner;
use file_recorder::{Recorded, images_show_one_recording};
use import_mend::{commands_begin_links_without_a_skeleton, commands_hold_sound_links};
use import_record::{
    pages_that_come_are_the_good_pages, recordings_are_runs_of_mended_commands,
    recordings_are_steps_of_their_file,
};
use ogg_command::Command;
use ogg_page::WriteFault;
use std::io::Write;

/// Somebody who answers every command, and keeps none: for the proof alone.
struct Anybody;

impl Runner for Anybody {
    ghost use Rattle.archive_record.specs.Anybody.{Answers};

    ghost State = { Unit {0} };

    ghost is_in = { λ before own. Unit {0} };

    ghost answers = { Answers };

    ghost held_in = { λ before. 0 };

    ghost end_in = { λ before. 0 };

    ghost counted = { λ own. 0 };

    fn run_command<P: Write>(
        &mut self,
        _command: &Command,
        _pages: &mut P,
    ) -> Result<Reply, WriteFault> {
        Ok(Reply::Held(0))
    }

    fn run_flush(&mut self) -> Reply {
        Reply::Held(0)
    }

    fn waiting(&self) -> u64 {
        0
    }

    fn kept_length(&self) -> u64 {
        0
    }
}

/// Whichever calls are made of an archive while an input is recorded, what is recorded over its files, one after the other,
/// is a recording of the input: its pages are the good pages of the bytes that came, each is taken once and in order, and
/// the commands are those of the mended pages. A link that is open where a file ends is ended there, and begins again in
/// the next one.
pub fn archives_record_their_input<D: Disk + Drop, F: Folder<File = D> + Drop>()
    // So it is from a file on that is recorded into.
    ensures so_far { (bound : Option ℕ) (calls : List (Call F)) (old new : Option (NewestOf D)) (run last : ImportRunOf) (before : Writing D)
        → IsNow before old → AreCalled D.Disk F.is_honest F.file bound calls old run new last
        → (over : IsRecordedOver D.Disk F.is_honest F.file bound before (state_of run) new (state_of last))
        × TakesPages (pages_in over.events ++ pages_of over.parts) (state_of run).mending (state_of last).mending
        (over.done.mends ++ mends_of over.parts) (over.done.more ++ more_of over.parts)
        × ((state_of last).begun.streams ≡ streams_after (state_of run).begun.streams (over.done.more ++ more_of over.parts))
        × (run.input.pages.outcome ≡ None → run.input.pages.offset + length (run.input.pages.unread ++ came_in calls) < 2 ^ 64 - 1
        → (rest : List ℕ) × AreGoodPages run.input.pages.offset (run.input.pages.unread ++ came_in calls)
        (pages_in over.events ++ pages_of over.parts) rest) }
    // Of an input from its start on: the commands hold what sound links hold, and in each file they are the link that begins
    // again, under serials that the file before doesn't have, and then what its pages become.
    ensures gives { (bound : Option ℕ) (before : Writing D) (now : Option (NewestOf D)) (start new : IntakeState) → IsStart start.mending
        → (over : IsRecordedOver D.Disk F.is_honest F.file bound before start now new)
        → (links : List (List Page)) × HasMended links new.mending.gathered (over.done.more ++ more_of over.parts)
        × Become start.changes over.mid.changes over.done.more over.done.given × GiveOn over.parts over.last over.mid new }
    // At the end of the input what is open is ended in the newest file: these ends and the commands before hold whole links.
    ensures ends { (bound : Option ℕ) (before : Writing D) (now after : Option (NewestOf D)) (start : IntakeState) (run last : ImportRunOf)
        (taken : TakenOf) → IsStart start.mending
        → (over : IsRecordedOver D.Disk F.is_honest F.file bound before start now (state_of run))
        → (finished : HasFinished D.Disk taken run last over.after after)
        → (links : List (List Page)) × HasGathered links (state_of last).mending.gathered
        ((over.done.more ++ more_of over.parts) ++ finished.ends.more) }
    // So each file has the commands that are kept in it, in order, and its records are steps of its history.
    ensures kept { (bound : Option ℕ) (before : Writing D) (now : Option (NewestOf D)) (old new : IntakeState)
        → (over : IsRecordedOver D.Disk F.is_honest F.file bound before old now new)
        → HasKept D.Disk before over.last over.done × HaveKept D.Disk over.parts }
    // The first file is begun with nothing in it.
    ensures first { (bound : Option ℕ) (answered : AnsweredOf) (now : Option (NewestOf D)) → HasBegun D.Disk bound [] answered now
        → (begun after : Writing D) × Works begun × Begins D.Disk bound begun × IsNow after now
        × (reply : ReplyOf) × AnswersIn D.Disk begun Flush reply [] after }
    // Calls that follow make the list longer, each by what it says.
    ensures joins { (bound : Option ℕ) (calls later : List (Call F)) (old mid new : Option (NewestOf D)) (run between last : ImportRunOf)
        → AreCalled D.Disk F.is_honest F.file bound calls old run mid between
        → AreCalled D.Disk F.is_honest F.file bound later mid between new last
        → AreCalled D.Disk F.is_honest F.file bound (calls ++ later) old run new last }
    ensures came { (bound : Option ℕ) (bytes : List ℕ) (old : Option (NewestOf D)) (run next : ImportRunOf)
        → Comes bytes (input_of run) (input_of next) → AreCalled D.Disk F.is_honest F.file bound (Came bytes ∷ []) old run old next }
    ensures took { (bound : Option ℕ) (step : StepOf) (old now : Option (NewestOf D)) (run next : ImportRunOf) → NeedsNone step run.input.pages
        → ((before : Writing D) → IsNow before old → HasStepped D.Disk step run next before now)
        → AreCalled D.Disk F.is_honest F.file bound (Took step ∷ []) old run now next }
    ensures flushed { (bound : Option ℕ) (old now : Option (NewestOf D)) (run : ImportRunOf)
        → ((before : Writing D) → IsNow before old → HasFlushed D.Disk before now)
        → AreCalled D.Disk F.is_honest F.file bound (Flushed ∷ []) old run now run }
    ensures looked { (bound : Option ℕ) (old : Option (NewestOf D)) (run : ImportRunOf)
        → AreCalled D.Disk F.is_honest F.file bound (Looked ∷ []) old run old run }
    ensures changed { (bound out : Option ℕ) (folder : F) (answered : AnsweredOf) (newest : NewestOf D) (old now : Option (NewestOf D))
        (run next : ImportRunOf) → old ≡ Some newest
        → ((before : Writing D) → IsNow before old → GoesOver D.Disk F.is_honest F.file folder bound run next answered before now)
        ⊎ (((before : Writing D) → IsNow before old → HasNotEnded D.Disk out newest before now) × (answered ≡ nothing) × (next ≡ run))
        → AreCalled D.Disk F.is_honest F.file bound (WentOver folder answered ∷ []) old run now next
        ⊎ AreCalled D.Disk F.is_honest F.file bound (Unended ∷ []) old run now next }
    ensures recovered { (bound : Option ℕ) (answered : AnsweredOf) (newest : NewestOf D) (old now : Option (NewestOf D))
        (run next : ImportRunOf) → old ≡ Some newest
        → IsReopened D.Disk newest.name run next answered now
        ⊎ IsSetAside D.Disk bound newest.recorder.chain.serials run next answered now
        → AreCalled D.Disk F.is_honest F.file bound (Reopened answered ∷ []) old run now next
        ⊎ AreCalled D.Disk F.is_honest F.file bound (SetAside answered ∷ []) old run now next }
{
    recordings_are_runs_of_mended_commands::<Newest<D>>();
    pages_that_come_are_the_good_pages::<Anybody>();
    recordings_are_steps_of_their_file::<D>();
    commands_begin_links_without_a_skeleton();
    commands_hold_sound_links();
}

/// What is recorded into the newest file of an archive leads from one account of its folder to another: the same, but that
/// the newest file has come as far as its recorder has.
pub fn records_lead_on<D: Disk + Drop, F: Folder<File = D> + Drop>()
    ensures { (begun last : Writing D) (done : Done) → HasKept D.Disk begun last done → Stands D.Disk begun.progress → begun.progress.first ≡ []
        → (a : Account CommandOf) (file : NewestFile CommandOf) (folder : F) (disks : ℕ → D)
        → a.newest ≡ Some file → file.name.fate ≡ Stays → file.world ≡ begun.progress.world
        → disks file.name.number ≡ begun.progress.now.file.disk → F.names folder ≡ names a
        → (b : Account CommandOf) × (after : ℕ → D) × (b.newest ≡ Some (record { name = file.name; world = last.progress.world }))
        × (b.ended ≡ a.ended) × (after file.name.number ≡ last.progress.now.file.disk) × (F.names folder ≡ names b)
        × LeadsTo F.names F.moment F.left_since D.Disk a folder disks b folder after × Stands D.Disk last.progress }
{
    files_lead_on::<D, F>();
}

/// What is done with the files of an archive leads from one account of its folder to another.
pub(crate) fn files_lead_on<D: Disk, F: Folder<File = D>>()
    ensures { CallsLeadOn F.names F.moment F.left_since D.Disk }
{
    calls_are_events::<Recorded>();
    calls_lead_on::<D, F, Recorded>();
    events_lead_on::<D, F, Recorded>();
    images_show_one_recording();
}
