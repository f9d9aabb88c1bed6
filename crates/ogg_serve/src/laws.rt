//! What always holds of a feed that is recorded while its file is served.
ghost use Rattle.std.specs.Prelude.{◌+◌, ◌++◌, ℕ, List};
ghost use Rattle.link_chain.specs.Recording.{Recording};
ghost use Rattle.chain_rules.specs.Recording.{add};
ghost use Rattle.feed_records.specs.declared.item.Record.{Record};
ghost use Rattle.feed_replies.specs.declared.reply.Reply.{Reply};
ghost use Rattle.feed_runner.specs.Answering.{AnswersAll};
ghost use Rattle.ogg_command.specs.declared.command.Command.{Command as CommandOf};
ghost use Rattle.history.specs.World.{World, Step as StepOf, run};
ghost use Rattle.history.specs.History.{IsHistory};
ghost use Rattle.file_recorder.specs.Recovery.{Shows, Accepts};
ghost use Rattle.serve_hub.specs.Parts.{HubParts};
ghost use Rattle.serve_machine.specs.Hub.{HubState};
ghost use Rattle.serve_machine.specs.Own.{KeepsFile};
ghost use Rattle.ogg_serve.specs.Feeding.{FeedState};
ghost use Rattle.ogg_serve.specs.Life.{HasLived, HaveCounts, IsNewFeed, LiveAnswers};
ghost use Rattle.ogg_serve.specs.FileHistory.{ContinuesHistory, StandsOn};
ghost use Rattle.ogg_serve.specs.Steps.{TakesSteps};

use disk_model::Disk;
use std::io::{Read, Write};

/// The steps of a feed are one run over it, as feed_run says of a whole run, whichever calls of sessions come between
/// them: connections, and what `serve_one` and `live_one` do. Each record is answered as by a hub without sessions; after
/// the reply that the disk has failed the file is opened again, and counts begin again.
pub fn feeds_are_run_beside_sessions<D: Disk, F: Read, L: Write>()
    ensures lives { (n : ℕ) (old new : FeedState F L) (before after : HubState) → IsNewFeed old
        → TakesSteps D.Disk F.remaining L.contents n old new before after
        → HasLived F.remaining L.contents old new before after }
    // Steps, then calls that leave the file, as those of sessions do, and then further steps.
    ensures joins { (n m : ℕ) (old mid new : FeedState F L) (before one two after : HubState)
        → TakesSteps D.Disk F.remaining L.contents n old mid before one
        → KeepsFile one two
        → TakesSteps D.Disk F.remaining L.contents m mid new two after
        → TakesSteps D.Disk F.remaining L.contents (n + m) old new before after }
    ensures counts { (before after : HubState) (records : List Record) (replies : List Reply) (bytes : List ℕ)
        → AnswersAll LiveAnswers before records replies bytes after → HaveCounts before.count records replies }
{}

/// What a hub's calls add to a history makes a history. So whatever sessions are served, and whatever of a feed is
/// recorded meanwhile, `acknowledged_commands_survive` (file_recorder) says what every image shows, between the calls of
/// the disk and in each of them: a prefix of the commands, with every acknowledged one.
pub fn histories_go_on_beside_sessions<D: Disk>()
    ensures { (first : Recording) (begun disk : D) (w : World CommandOf) (steps : List (StepOf CommandOf × D)) (old new : HubParts D)
        → IsHistory D.Disk Shows Accepts add first begun steps w disk
        → StandsOn D.Disk first w old.file old.lost disk
        → ContinuesHistory D.Disk old new
        → (more : List (StepOf CommandOf × D)) × (now : D)
        × IsHistory D.Disk Shows Accepts add first begun (steps ++ more) (run w more) now
        × StandsOn D.Disk first (run w more) new.file new.lost now }
{}
