//! What is recovered of a file, whatever happens to it.
ghost use Rattle.std.specs.Prelude.{◌≡◌, ◌⊎◌, ◌++◌, ◌<◌, [], false, true, ℕ, List, Some, take};
ghost use Rattle.disk_model.specs.Image.{IsImage};
ghost use Rattle.ogg_page.specs.declared.fault.PageFault.{PageFault as PageFaultOf};
ghost use Rattle.gate_file.specs.Found.{IsDamagedAt};
ghost use Rattle.gate_file.specs.Gate.{EndsAt};
ghost use Rattle.link_chain.specs.ChainState.{ChainState as ChainStateOf};
ghost use Rattle.link_chain.specs.Recording.{Recording};
ghost use Rattle.link_chain.specs.declared.chain_fault.ChainFault.{ChainFault as ChainFaultOf};
ghost use Rattle.chain_rules.specs.Recording.{add, after as after_commands};
ghost use Rattle.ogg_command.specs.declared.command.Command.{Command as CommandOf};
ghost use Rattle.history.specs.Showing.{ShowsOnly, Finds};
ghost use Rattle.history.specs.World.{World, Call, Step, begun, commands};
ghost use Rattle.history.specs.Commands.{ShowsFirst};
ghost use Rattle.history.specs.History.{Leaves, MayBegin, IsHistory};
ghost use Rattle.file_recorder.specs.Recovery.{Links, Shows, Accepts};
ghost use Rattle.file_recorder.specs.Taking.{HoldsChain, IsBrokenAt, IsUnfinished, IsWholeChain};
ghost use Rattle.feed_records.specs.declared.item.Record.{Record};
ghost use Rattle.feed_replies.specs.declared.reply.Reply.{Reply};
ghost use Rattle.feed_runner.specs.Answering.{AnswersAll};
ghost use Rattle.feed_runner.specs.Counting.{kept_after};
ghost use Rattle.chain_rules.specs.Commands.{bytes_of_commands};
ghost use Rattle.file_recorder.specs.Recorder.{RecorderState, committed};
ghost use Rattle.file_recorder.specs.Running.{Progress, Answers, Replies};
ghost use Rattle.file_recorder.specs.Ending.{first_open, unended};
ghost use Rattle.feed_runner.specs.Refusing.{refuses};
ghost use Rattle.file_recorder.specs.Steps.{HasSteps, HasWaiting};

use chain_rules::{ends_end_their_streams, refusals_are_of_the_table};
use disk_model::Disk;
use history::{Recordings, stops_keep_what_was_acknowledged};

/// Recordings in a file of links, and the commands that they grow by.
pub struct Recorded;

impl Recordings for Recorded {
    ghost use Rattle.std.specs.Prelude.{◌≡◌};
    ghost use Rattle.link_chain.specs.Recording.{Recording as RecordingOf};
    ghost use Rattle.chain_rules.specs.Recording.{add as add_command};
    ghost use Rattle.ogg_command.specs.declared.command.Command.{Command as CommandOf};
    ghost use Rattle.file_recorder.specs.Recovery.{Shows, Accepts};
    ghost use Rattle.file_recorder.specs.RecoveryLaws.{shows_one, adds as adds_command};

    ghost Command = { CommandOf };

    ghost State = { RecordingOf };

    ghost Recording = { RecordingOf };

    ghost shows = { Shows };

    ghost accepts = { Accepts };

    ghost next = { add_command };

    ghost holds = { λ state recording. state ≡ recording };

    ghost add = { add_command };

    ghost one = { shows_one };

    ghost adds = { adds_command };
}

/// An image shows one recording at most, and that of a new file shows the recording of no links.
pub fn images_show_one_recording()
    ensures one { (image : List ℕ) (recording other : Recording) → Shows image recording → Shows image other → recording ≡ other }
    ensures new { Shows [] [] }
{}

/// Bytes that show a recording have no page that is damaged or may not follow, and no packet in them is unfinished: an
/// opening refuses them only for want of memory, or by the disk.
pub fn what_shows_a_recording_is_opened()
    ensures damaged { (contents : List ℕ) (recording : Recording) → Shows contents recording
        → (offset : ℕ) (fault : PageFaultOf) → IsDamagedAt contents offset fault → ⊥ }
    ensures broken { (contents : List ℕ) (recording : Recording) → Shows contents recording → (end : ℕ) → EndsAt contents end
        → (offset : ℕ) (fault : ChainFaultOf) → IsBrokenAt (take end contents) offset fault → ⊥ }
    ensures unfinished { (contents : List ℕ) (recording : Recording) → Shows contents recording → (end : ℕ) → EndsAt contents end
        → (serial : ℕ) → IsUnfinished (take end contents) serial → ⊥ }
    // What is opened shows one.
    ensures shown { (contents : List ℕ) (end : ℕ) (chain : ChainStateOf) → EndsAt contents end
        → HoldsChain (take end contents) chain → (recording : Recording) × Shows contents recording }
{}

/// After any list of openings, commands, flushes, sealings and stops, at any moment, every image of the disk shows
/// the first recording with the first k commands added, in order and whole. Every acknowledged command is among them,
/// and for each opening at most one group that wasn't acknowledged, whole or not at all. The premises are what
/// `IsHistory` says: at first every image shows one and the same recording, the disk is honest, nobody else writes,
/// and after a fault or a stop the file is opened again.
pub fn acknowledged_commands_survive<D: Disk>()
    // Between two calls.
    ensures at_end { (first : Recording) (disk now : D) (w : World CommandOf) (steps : List (Step CommandOf × D))
        → IsHistory D.Disk Shows Accepts add first disk steps w now
        → (image : List ℕ) → IsImage (D.state now) image
        → ShowsFirst Shows Accepts add first steps w image }

    // At each moment of one more call.
    ensures any_moment { (first : Recording) (disk now : D) (w : World CommandOf) (steps : List (Step CommandOf × D))
        → IsHistory D.Disk Shows Accepts add first disk steps w now
        → (call : Call CommandOf) (new : D) → MayBegin Accepts add first w call
        → Leaves D.Disk Shows add first w call now new
        → (image : List ℕ) → D.images_since new (D.moment now) image
        → ShowsFirst Shows Accepts add first steps (begun w call) image }

    // While a recorder is open, every image shows only what is acknowledged: nothing that waits.
    ensures while_open { (first : Recording) (disk now : D) (w : World CommandOf) (steps : List (Step CommandOf × D))
        → IsHistory D.Disk Shows Accepts add first disk steps w now
        → w.is_open ≡ true → ShowsOnly Shows (D.state now) (after_commands first w.acknowledged) }

    // What an opening finds is the acknowledged commands, without the group in doubt or with it.
    ensures opening { (first : Recording) (disk now : D) (w : World CommandOf) (steps : List (Step CommandOf × D))
        → IsHistory D.Disk Shows Accepts add first disk steps w now
        → (new : D) (found : Recording) → Finds Shows (D.state now) (D.state new) found
        → (found ≡ after_commands first w.acknowledged) ⊎ (found ≡ after_commands first (commands w)) }
{
    stops_keep_what_was_acknowledged::<D, Recorded>();
}

/// Records that a recorder has answered in turn are steps of the history of its file, each of them a command or a
/// flush. The commands that they acknowledge are those whose replies say that they are kept, in order.
pub fn records_are_steps<D: Disk>()
    ensures steps { (before after : Progress D) (records : List Record) (replies : List Reply) (bytes : List ℕ)
        → AnswersAll (Answers D.Disk) before records replies bytes after
        → HasSteps D.Disk before after records replies }
    // On an honest disk the committed bytes grow by exactly those of the kept commands.
    ensures bytes { (before after : Progress D) (records : List Record) (replies : List Reply) (bytes : List ℕ)
        → AnswersAll (Answers D.Disk) before records replies bytes after
        → D.is_honest before.now.file.disk → (links : Links) (waiting : List CommandOf) → HasWaiting D.state links waiting before.now
        → committed D.state after.now ≡ committed D.state before.now ++ bytes_of_commands links (kept_after waiting records replies) }
{
    refusals_are_of_the_table();
}

/// The end of the first open stream that isn't refused leaves a stream less open: so who ends one stream after the other
/// comes to an end.
pub fn ends_leave_fewer_open<D: Disk>()
    ensures { (old new : RecorderState D) (serial : ℕ) (reply : Reply) → IsWholeChain old.chain → first_open old.chain.streams ≡ Some serial
        → Replies old (Record.Command (CommandOf.End serial)) reply new → refuses reply ≡ false
        → unended new.chain.streams < unended old.chain.streams }
{
    ends_end_their_streams();
}
