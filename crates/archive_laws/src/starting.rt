//! On which folders a program may start.
ghost use Rattle.std.specs.Prelude.{◌≡◌, ◌++◌, ◌∷◌, [], ℕ, List, None};
ghost use Rattle.ogg_command.specs.declared.command.Command.{Command as CommandOf};
ghost use Rattle.archive_folder.specs.Names.{AreRising, listed};
ghost use Rattle.archive_history.specs.Archive.{Archive, names};
ghost use Rattle.archive_history.specs.Ending.{EndIsSafe};
ghost use Rattle.archive_history.specs.Starting.{AllStay};
ghost use Rattle.archive_record.specs.Reaching.{MayBeWritten};
ghost use Rattle.archive_laws.specs.Starting.{AreOurs};

use archive_folder::Folder;
use archive_history::the_last_file_is_kept;
use disk_model::Disk;
use file_recorder::Recorded;

/// The last file of a folder may be written, if no name of it is in doubt, what came after that file held nothing, and
/// each file is ours and was closed. A start asks that (`MayStart` of archive_record).
pub fn last_files_may_be_written<D: Disk, F: Folder<File = D>>()
    ensures last { (a : Archive CommandOf) (front : List ℕ) (n : ℕ) → AreRising (names a) → AllStay (names a) → EndIsSafe a → AreOurs a
        → listed (names a) ≡ front ++ n ∷ [] → MayBeWritten a n }
    ensures none { (a : Archive CommandOf) → AllStay (names a) → listed (names a) ≡ [] → a.newest ≡ None }
{
    the_last_file_is_kept::<D, F, Recorded>();
}
