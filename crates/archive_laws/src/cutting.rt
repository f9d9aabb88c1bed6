//! What can be cut of an archive, whatever happens to its folder.
ghost use Rattle.std.specs.Prelude.{◌≡◌, [], ℕ, List};
ghost use Rattle.ogg_command.specs.declared.command.Command.{Command as CommandOf};
ghost use Rattle.history.specs.Commands.{IsPartOf};
ghost use Rattle.chain_rules.specs.Encoding.{links_after};
ghost use Rattle.archive_history.specs.Archive.{Archive, Move, nothing, begun_by, acknowledged, all_acknowledged};
ghost use Rattle.archive_history.specs.History.{Point, Event, IsImageOf, MayMove, LeavesAll, WasImage, IsArchiveHistory, ThrowsNothing, answered};
ghost use Rattle.archive_laws.specs.Committing.{ShowsLinks, AcceptsAfter};
ghost use Rattle.archive_laws.specs.Cutting.{ShowsCuts};

use crate::committing::CommittedLinks;
use archive_cut::cuts_of_times_add_up;
use archive_folder::Folder;
use archive_history::{archives_keep_what_was_acknowledged, folders_stand_as_their_account};
use chain_rules::commands_add_their_packets;
use disk_model::Disk;

/// After any beginnings of files, commands, endings, settings aside, removals and stops, at any moment, whatever is read
/// of an image can be cut by times: each file has the bytes of its own commands, and no others; over any division of time
/// each packet that was acknowledged and not thrown away comes exactly once. Calls of a recorder are steps of such a
/// history (`run_command` and the calls beside it). Not shown to be one, of the calls that an archive makes: `open_empty`
/// and `flush_and_seal`, with which it begins a file and ends one with what waits.
pub fn every_image_shows_what_is_cut<D: Disk, F: Folder<File = D>>()
    // Between two calls.
    ensures at_end { (start now : Point F D) (a : Archive CommandOf) (events : List (Event CommandOf × Archive CommandOf × Point F D))
        → IsArchiveHistory F.names F.moment F.left_since D.Disk ShowsLinks AcceptsAfter links_after [] start events a now
        → (image : List (ℕ × List ℕ))
        → IsImageOf F.names F.moment F.left_since D.Disk ShowsLinks AcceptsAfter links_after [] now image
        → ShowsCuts a image }

    // Every acknowledged command stands in the account, and all of it is there if nothing was thrown away.
    ensures account { (start now : Point F D) (a : Archive CommandOf) (events : List (Event CommandOf × Archive CommandOf × Point F D))
        → IsArchiveHistory F.names F.moment F.left_since D.Disk ShowsLinks AcceptsAfter links_after [] start events a now
        → IsPartOf (answered nothing events) (all_acknowledged a) }
    ensures nothing_thrown { (start now : Point F D) (a : Archive CommandOf) (events : List (Event CommandOf × Archive CommandOf × Point F D))
        → IsArchiveHistory F.names F.moment F.left_since D.Disk ShowsLinks AcceptsAfter links_after [] start events a now
        → ThrowsNothing events
        → acknowledged a ≡ all_acknowledged a }

    // At each moment of one more call.
    ensures any_moment { (start now : Point F D) (a : Archive CommandOf) (events : List (Event CommandOf × Archive CommandOf × Point F D))
        → IsArchiveHistory F.names F.moment F.left_since D.Disk ShowsLinks AcceptsAfter links_after [] start events a now
        → (move : Move CommandOf) (new : Point F D)
        → MayMove F.names F.moment F.left_since D.Disk ShowsLinks AcceptsAfter links_after [] a move
        → LeavesAll F.names F.moment F.left_since D.Disk ShowsLinks AcceptsAfter links_after [] a move now new
        → (image : List (ℕ × List ℕ))
        → WasImage F.names F.moment F.left_since D.Disk ShowsLinks AcceptsAfter links_after [] a move now new image
        → ShowsCuts (begun_by a move) image }
{
    archives_keep_what_was_acknowledged::<D, F, CommittedLinks>();
    folders_stand_as_their_account::<D, F, CommittedLinks>();
    commands_add_their_packets();
    cuts_of_times_add_up();
}
