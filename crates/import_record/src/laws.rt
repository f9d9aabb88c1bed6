//! What always holds of recordings.
ghost use Rattle.std.specs.Prelude.{◌≡◌, ◌+◌, ◌-◌, ◌<◌, ◌^◌, ◌++◌, ◌∷◌, [], ℕ, None, List, length};
ghost use Rattle.link_chain.specs.declared.stream_state.StreamState.{StreamState as StreamStateOf};
ghost use Rattle.import_changes.specs.Changed.{Become, HasChangedBeside};
ghost use Rattle.import_mend.specs.Found.{AreGoodPages, HoldsNone};
ghost use Rattle.import_mend.specs.Whole.{IsStart, TakesPages};
ghost use Rattle.import_record.specs.Pushing.{Call, Feeds, Imports, InputState, bytes_in, events_in};
ghost use Rattle.import_record.specs.Begun.{streams_after};
ghost use Rattle.import_record.specs.Steps.{IntakeState};
ghost use Rattle.import_record.specs.Whole.{Done, Event, GoOn, IsRecorded, IsResumed, Records, pages_in};
ghost use Rattle.chain_rules.specs.Commands.{bytes_of_commands};
ghost use Rattle.file_recorder.specs.Steps.{HasSteps, HasWaiting};
ghost use Rattle.feed_runner.specs.Counting.{kept_after};
ghost use Rattle.ogg_command.specs.declared.command.Command.{Command as CommandOf};
ghost use Rattle.file_recorder.specs.Recorder.{committed};
ghost use Rattle.file_recorder.specs.Recovery.{Links};
ghost use Rattle.file_recorder.specs.Running.{Answers, Progress};

use disk_model::Disk;
use feed_runner::Runner;
use file_recorder::records_are_steps;
use import_mend::{
    commands_begin_links_without_a_skeleton, commands_hold_sound_links,
    pages_found_are_the_good_pages,
};

/// Pages that are taken in turn, with flushes between them, are a run of commands. The commands are those of the mended
/// pages, and these hold what sound links hold; their streams are begun under serials that weren't taken before.
pub fn recordings_are_runs_of_mended_commands<T: Runner>()
    ensures takes { (events : List Event) (old new : IntakeState) (done : Done) (before after : T.State)
        → Records T.answers events old new done before after
        → TakesPages (pages_in events) old.mending new.mending done.mends done.more
        × (new.begun.streams ≡ streams_after old.begun.streams done.more) }
    ensures changed { (events : List Event) (old new : IntakeState) (done : Done) (before after : T.State) → GoOn events
        → Records T.answers events old new done before after → Become old.changes new.changes done.more done.given }
    ensures recorded { (events : List Event) (serials : List ℕ) (start new : IntakeState) (done : Done) (before after : T.State)
        → IsStart start.mending → HasChangedBeside serials start.changes [] [] → GoOn events
        → Records T.answers events start new done before after → IsRecorded T.answers serials new done before after }
    // After the file was opened again: what was run before, and what state its runner was in, doesn't matter.
    ensures resumed { (events later : List Event) (streams : List StreamStateOf) (serials : List ℕ) (start old new : IntakeState)
        (earlier done : Done) (first stopped before after : T.State)
        → IsStart start.mending → Records T.answers events start old earlier first stopped
        → GoOn later → Records T.answers (Event.Resuming streams serials ∷ later) old new done before after
        → IsResumed T.answers streams serials old new done before after }
{
    commands_begin_links_without_a_skeleton();
    commands_hold_sound_links();
}

/// If a recorder runs them, they are steps of the history of its file: so at each moment every image of an honest disk
/// shows a prefix of these commands, with all that were acknowledged. The file grows by exactly those that are kept.
pub fn recordings_are_steps_of_their_file<D: Disk>()
    ensures steps { (events : List Event) (old new : IntakeState) (done : Done) (before after : Progress D)
        → Records (Answers D.Disk) events old new done before after
        → HasSteps D.Disk before after done.records done.replies }
    ensures bytes { (events : List Event) (old new : IntakeState) (done : Done) (before after : Progress D)
        → Records (Answers D.Disk) events old new done before after
        → D.is_honest before.now.file.disk → (links : Links) (waiting : List CommandOf) → HasWaiting D.state links waiting before.now
        → committed D.state after.now ≡ committed D.state before.now ++ bytes_of_commands links (kept_after waiting done.records done.replies) }
{
    records_are_steps::<D>();
}

/// However the bytes of an input come, the pages that are taken are the good pages of them all, in order, and what is
/// recorded is a recording of these pages. Bytes that come in other pieces have the same pages.
pub fn pages_that_come_are_the_good_pages<T: Runner>()
    ensures so_far { (calls : List Call) (old new : InputState) (before after : T.State) → Feeds T.answers calls old new before after
        → old.pages.outcome ≡ None → old.pages.offset + length (old.pages.unread ++ bytes_in calls) < 2 ^ 64 - 1
        → (rest : List ℕ) × AreGoodPages old.pages.offset (old.pages.unread ++ bytes_in calls) (pages_in (events_in calls)) rest }
    ensures all { (bytes : List ℕ) (events : List Event) (old new : InputState) (before after : T.State)
        → Imports T.answers bytes events old new before after
        → old.pages.outcome ≡ None → old.pages.offset + length (old.pages.unread ++ bytes) < 2 ^ 64 - 1
        → (rest : List ℕ) × AreGoodPages old.pages.offset (old.pages.unread ++ bytes) (pages_in events) rest × HoldsNone rest }
    ensures records { (bytes : List ℕ) (events : List Event) (old new : InputState) (before after : T.State)
        → Imports T.answers bytes events old new before after → (done : Done) × Records T.answers events old.intake new.intake done before after }
    ensures pieces { (bytes : List ℕ) (events others : List Event) (old new last : InputState) (before after later : T.State)
        → Imports T.answers bytes events old new before after → Imports T.answers bytes others old last before later
        → old.pages.outcome ≡ None → old.pages.offset + length (old.pages.unread ++ bytes) < 2 ^ 64 - 1
        → pages_in events ≡ pages_in others }
{
    pages_found_are_the_good_pages();
}
