//! The law, of recordings in files of links.
ghost use Rattle.std.specs.Prelude.{◌≡◌, [], ℕ, List};
ghost use Rattle.chain_rules.specs.Recording.{add};
ghost use Rattle.ogg_command.specs.declared.command.Command.{Command as CommandOf};
ghost use Rattle.history.specs.Commands.{IsPartOf};
ghost use Rattle.file_recorder.specs.Recovery.{Shows, Accepts};
ghost use Rattle.archive_history.specs.Archive.{Archive, Move, nothing, begun_by, acknowledged, all_acknowledged};
ghost use Rattle.archive_history.specs.Showing.{ShowsArchive, ShowsCommands};
ghost use Rattle.archive_history.specs.History.{Point, Event, IsImageOf, MayMove, LeavesAll, WasImage, IsArchiveHistory, ThrowsNothing, answered};

use archive_folder::Folder;
use archive_history::archives_keep_what_was_acknowledged;
use disk_model::Disk;
use file_recorder::{Recorded, images_show_one_recording};

/// After any beginnings of files, commands, endings, settings aside, removals and stops, every image of the folder holds,
/// file after file, the recordings that the acknowledged commands made, but for files that were thrown away.
pub fn acknowledged_commands_survive_in_archives<D: Disk, F: Folder<File = D>>()
    // Between two calls.
    ensures at_end { (start now : Point F D) (a : Archive CommandOf) (events : List (Event CommandOf × Archive CommandOf × Point F D))
        → IsArchiveHistory F.names F.moment F.left_since D.Disk Shows Accepts add [] start events a now
        → (image : List (ℕ × List ℕ))
        → IsImageOf F.names F.moment F.left_since D.Disk Shows Accepts add [] now image
        → ShowsArchive Shows add [] a image × ShowsCommands Shows add [] a image }

    // Every acknowledged command stands in the account, and all of it is there if nothing was thrown away.
    ensures account { (start now : Point F D) (a : Archive CommandOf) (events : List (Event CommandOf × Archive CommandOf × Point F D))
        → IsArchiveHistory F.names F.moment F.left_since D.Disk Shows Accepts add [] start events a now
        → IsPartOf (answered nothing events) (all_acknowledged a) }
    ensures nothing_thrown { (start now : Point F D) (a : Archive CommandOf) (events : List (Event CommandOf × Archive CommandOf × Point F D))
        → IsArchiveHistory F.names F.moment F.left_since D.Disk Shows Accepts add [] start events a now
        → ThrowsNothing events
        → acknowledged a ≡ all_acknowledged a }

    // At each moment of one more call.
    ensures any_moment { (start now : Point F D) (a : Archive CommandOf) (events : List (Event CommandOf × Archive CommandOf × Point F D))
        → IsArchiveHistory F.names F.moment F.left_since D.Disk Shows Accepts add [] start events a now
        → (move : Move CommandOf) (new : Point F D)
        → MayMove F.names F.moment F.left_since D.Disk Shows Accepts add [] a move
        → LeavesAll F.names F.moment F.left_since D.Disk Shows Accepts add [] a move now new
        → (image : List (ℕ × List ℕ))
        → WasImage F.names F.moment F.left_since D.Disk Shows Accepts add [] a move now new image
        → ShowsArchive Shows add [] (begun_by a move) image × ShowsCommands Shows add [] (begun_by a move) image }
{
    images_show_one_recording();
    archives_keep_what_was_acknowledged::<D, F, Recorded>();
}
