//! What every history of an archive keeps.
ghost use Rattle.std.specs.Prelude.{◌≡◌, ◌⊎◌, [], ◌∷◌, ◌++◌, None, Some, ℕ, List};
ghost use Rattle.disk_model.specs.Image.{DiskState, IsImage, IsSettled};
ghost use Rattle.archive_folder.specs.declared.names.Name.{Name};
ghost use Rattle.archive_folder.specs.Clock.{MayHaveMade, MayHaveRemoved, NamesPass};
ghost use Rattle.archive_folder.specs.Names.{IsLeft, AreRising, listed, made, removed, synced, restarted};
ghost use Rattle.history.specs.Commands.{IsPartOf};
ghost use Rattle.archive_folder.specs.declared.names.Fate.TheVariants.{Stays};
ghost use Rattle.history.specs.World.{Step, Flushed, Sealed, happens};
ghost use Rattle.history.specs.History.{IsStep};
ghost use Rattle.archive_history.specs.Archive.{Archive, Newest, Move, Making, Throwing, nothing, names, begun_by, recorded, ended_with, set_aside, shut, Resolves, acknowledged, all_acknowledged};
ghost use Rattle.archive_history.specs.Showing.{numbers, ShowsArchive, ShowsCommands};
ghost use Rattle.archive_history.specs.Accounted.{StandsAs};
ghost use Rattle.archive_history.specs.History.{Point, point, with_disk, IsAnswer, IsSafe, Event, IsNotNewest, IsOnly, IsImageOf, MayMove, LeavesAll, LeavesNames, WasImage, IsEvent, IsArchiveHistory, Resumes, ThrowsNothing, answered};
ghost use Rattle.archive_history.specs.Ending.{EndIsSafe, KeepsLast};
ghost use Rattle.archive_history.specs.Leading.{Leads};
ghost use Rattle.archive_history.specs.Starting.{AllStay, EndsEmpty, LastFile};

use archive_folder::Folder;
use disk_model::Disk;
use history::{Recordings, disks_stand_in_their_world};

/// After any beginnings of files, commands, endings, settings aside, removals and stops, at any moment, every image of
/// the folder shows, file after file, what was acknowledged and not thrown away, and perhaps the group in doubt of the
/// newest file and of one that was set aside. The premise is that an empty file shows `first`.
pub fn archives_keep_what_was_acknowledged<D: Disk, F: Folder<File = D>, B: Recordings>()
    // Between two calls.
    ensures at_end { (first : B.State) (start now : Point F D) (a : Archive B.Command)
        (events : List (Event B.Command × Archive B.Command × Point F D))
        → B.shows [] first
        → IsArchiveHistory F.names F.moment F.left_since D.Disk B.shows B.accepts B.next
        first start events a now
        → (image : List (ℕ × List ℕ))
        → IsImageOf F.names F.moment F.left_since D.Disk B.shows B.accepts B.next
        first now image
        → ShowsArchive B.shows B.next first a image
        × ShowsCommands B.shows B.next first a image }

    // What the answers acknowledged stands in the account, in its order and once.
    ensures account { (first : B.State) (start now : Point F D) (a : Archive B.Command)
        (events : List (Event B.Command × Archive B.Command × Point F D))
        → B.shows [] first
        → IsArchiveHistory F.names F.moment F.left_since D.Disk B.shows B.accepts B.next
        first start events a now
        → IsPartOf (answered nothing events) (all_acknowledged a) }

    // It is missing in an image only if its file was thrown away: if none is, all of it is there.
    ensures nothing_thrown { (first : B.State) (start now : Point F D) (a : Archive B.Command)
        (events : List (Event B.Command × Archive B.Command × Point F D))
        → B.shows [] first
        → IsArchiveHistory F.names F.moment F.left_since D.Disk B.shows B.accepts B.next
        first start events a now
        → ThrowsNothing events
        → acknowledged a ≡ all_acknowledged a }

    // At each moment of one more call.
    ensures any_moment { (first : B.State) (start now : Point F D) (a : Archive B.Command)
        (events : List (Event B.Command × Archive B.Command × Point F D))
        → B.shows [] first
        → IsArchiveHistory F.names F.moment F.left_since D.Disk B.shows B.accepts B.next
        first start events a now
        → (move : Move B.Command) (new : Point F D)
        → MayMove F.names F.moment F.left_since D.Disk B.shows B.accepts B.next
        first a move
        → LeavesAll F.names F.moment F.left_since D.Disk B.shows B.accepts B.next
        first a move now new
        → (image : List (ℕ × List ℕ))
        → WasImage F.names F.moment F.left_since D.Disk B.shows B.accepts B.next
        first a move now new image
        → ShowsArchive B.shows B.next first (begun_by a move) image
        × ShowsCommands B.shows B.next first (begun_by a move) image }
{
    disks_stand_in_their_world::<D, B>();
}

/// A folder that stands as its account says shows what the account says, now and at each moment of a call, and stands
/// so after every event: so a history may begin with any such folder.
pub fn folders_stand_as_their_account<D: Disk, F: Folder<File = D>, B: Recordings>()
    ensures now { (first : B.State) (a : Archive B.Command) (point : Point F D)
        → StandsAs F.names D.Disk B.shows B.next first a point
        → (image : List (ℕ × List ℕ))
        → IsImageOf F.names F.moment F.left_since D.Disk B.shows B.accepts B.next
        first point image
        → ShowsArchive B.shows B.next first a image
        × ShowsCommands B.shows B.next first a image }
    // The files of every image come in the order of their numbers, if the folder is honest.
    ensures in_order { (first : B.State) (point : Point F D) → F.is_honest point.folder
        → (image : List (ℕ × List ℕ))
        → IsImageOf F.names F.moment F.left_since D.Disk B.shows B.accepts B.next
        first point image
        → AreRising (restarted (numbers image)) }
    ensures any_moment { (first : B.State) (a : Archive B.Command) (move : Move B.Command) (old new : Point F D)
        → B.shows [] first
        → StandsAs F.names D.Disk B.shows B.next first a old
        → MayMove F.names F.moment F.left_since D.Disk B.shows B.accepts B.next
        first a move
        → LeavesAll F.names F.moment F.left_since D.Disk B.shows B.accepts B.next
        first a move old new
        → (image : List (ℕ × List ℕ))
        → WasImage F.names F.moment F.left_since D.Disk B.shows B.accepts B.next
        first a move old new image
        → ShowsArchive B.shows B.next first (begun_by a move) image
        × ShowsCommands B.shows B.next first (begun_by a move) image }
    ensures event { (first : B.State) (a b : Archive B.Command) (event : Event B.Command) (old new : Point F D)
        → B.shows [] first
        → StandsAs F.names D.Disk B.shows B.next first a old
        → IsEvent F.names F.moment F.left_since D.Disk B.shows B.accepts B.next
        first a event b old new
        → F.names new.folder ≡ names b
        → StandsAs F.names D.Disk B.shows B.next first b new }
{
    disks_stand_in_their_world::<D, B>();
}

/// Events that lead from one account and point to another go on with those that lead on from there. A folder that stood as
/// the one account says stands as the other, and a history goes on by them.
pub fn events_lead_on<D: Disk, F: Folder<File = D>, B: Recordings>()
    ensures nothing { (first : B.State) (a : Archive B.Command) (here : Point F D)
        → Leads F.names F.moment F.left_since D.Disk B.shows B.accepts B.next
        first a here a here }
    ensures both { (first : B.State) (a b c : Archive B.Command) (old mid new : Point F D)
        → Leads F.names F.moment F.left_since D.Disk B.shows B.accepts B.next
        first a old b mid
        → Leads F.names F.moment F.left_since D.Disk B.shows B.accepts B.next
        first b mid c new
        → Leads F.names F.moment F.left_since D.Disk B.shows B.accepts B.next
        first a old c new }
    ensures stands { (first : B.State) (a b : Archive B.Command) (old new : Point F D)
        → B.shows [] first
        → StandsAs F.names D.Disk B.shows B.next first a old
        → Leads F.names F.moment F.left_since D.Disk B.shows B.accepts B.next
        first a old b new
        → StandsAs F.names D.Disk B.shows B.next first b new }
    ensures history { (first : B.State) (start now new : Point F D) (a b : Archive B.Command)
        (events : List (Event B.Command × Archive B.Command × Point F D))
        → IsArchiveHistory F.names F.moment F.left_since D.Disk B.shows B.accepts B.next
        first start events a now
        → Leads F.names F.moment F.left_since D.Disk B.shows B.accepts B.next
        first a now b new
        → (all : List (Event B.Command × Archive B.Command × Point F D))
        × IsArchiveHistory F.names F.moment F.left_since D.Disk B.shows B.accepts B.next
        first start all b new }
{
    disks_stand_in_their_world::<D, B>();
}

/// What came after the last file whose name stays holds nothing, whatever happens, if the last such file is never thrown
/// away: so who starts on a folder finds the last file that was recorded.
pub fn the_last_file_is_kept<D: Disk, F: Folder<File = D>, B: Recordings>()
    ensures begins { EndIsSafe (nothing {C = B.Command}) }
    ensures event { (first : B.State) (a b : Archive B.Command) (event : Event B.Command) (old new : Point F D)
        → IsEvent F.names F.moment F.left_since D.Disk B.shows B.accepts B.next
        first a event b old new
        → KeepsLast a event → EndIsSafe a → EndIsSafe b }
    ensures found { (a : Archive B.Command) (n : ℕ) (front : List ℕ)
        → AreRising (names a) → AllStay (names a) → EndIsSafe a
        → listed (names a) ≡ front ++ n ∷ [] → LastFile a n }
{}

/// What calls lead to that change no name, a sync of the folder, and what is done with the newest file.
pub fn calls_lead_on<D: Disk, F: Folder<File = D>, B: Recordings>()
    // Names are listed, a file is opened or given back.
    ensures asking { (first : B.State) (a : Archive B.Command) (disks : ℕ → D) (old new : F)
        → F.is_honest old
        → NamesPass (F.moment old) (F.moment new) (F.left_since old) (F.left_since new) (F.names old)
        → F.names new ≡ F.names old → F.names old ≡ names a
        → Leads F.names F.moment F.left_since D.Disk B.shows B.accepts B.next
        first a (point old disks) a (point new disks) }
    ensures syncing { (first : B.State) (a : Archive B.Command) (disks : ℕ → D) (old new : F)
        → F.is_honest old
        → NamesPass (F.moment old) (F.moment new) (F.left_since old) (F.left_since new) (F.names old)
        → F.names new ≡ synced (F.names old) → F.names old ≡ names a
        → (b : Archive B.Command) × Resolves a b × (F.names new ≡ names b)
        × Leads F.names F.moment F.left_since D.Disk B.shows B.accepts B.next
        first a (point old disks) b (point new disks) }
    // A step of the newest file's recorder, if what it acknowledges can't be lost with the file's name.
    ensures recording { (first : B.State) (a : Archive B.Command) (file : Newest B.Command) (disks : ℕ → D) (folder : F)
        (step : Step B.Command) (disk : D)
        → a.newest ≡ Some file → F.names folder ≡ names a → IsAnswer step → IsSafe file.name.fate (happens file.world step)
        → IsStep D.Disk B.shows B.accepts B.next first file.world step (disks file.name.number) disk
        → Leads F.names F.moment F.left_since D.Disk B.shows B.accepts B.next
        first a (point folder disks) (recorded a step) (point folder (with_disk file.name.number disk disks)) }
    // The newest file has ended.
    ensures ending { (first : B.State) (a : Archive B.Command) (file : Newest B.Command) (disks : ℕ → D) (folder : F) (bytes : List ℕ)
        → a.newest ≡ Some file → F.names folder ≡ names a → file.world.in_doubt ≡ []
        → IsOnly bytes (D.state (disks file.name.number))
        → Leads F.names F.moment F.left_since D.Disk B.shows B.accepts B.next
        first a (point folder disks) (ended_with a bytes) (point folder disks) }
    // What waited in it is kept, it is sealed, and it has ended.
    ensures sealing { (first : B.State) (a : Archive B.Command) (file : Newest B.Command) (disks : ℕ → D) (folder : F) (disk : D) (bytes : List ℕ)
        → a.newest ≡ Some file → F.names folder ≡ names a → file.name.fate ≡ Stays
        → IsStep D.Disk B.shows B.accepts B.next first file.world Flushed (disks file.name.number) disk
        → IsStep D.Disk B.shows B.accepts B.next first (happens file.world Flushed) Sealed disk disk
        → IsOnly bytes (D.state disk)
        → (b : Archive B.Command) × (b.newest ≡ None) × (F.names folder ≡ names b)
        × Leads F.names F.moment F.left_since D.Disk B.shows B.accepts B.next
        first a (point folder disks) b (point folder (with_disk file.name.number disk disks)) }
    // It is left exactly as it is.
    ensures setting_aside { (first : B.State) (a : Archive B.Command) (file : Newest B.Command) (here : Point F D)
        → a.newest ≡ Some file → F.names here.folder ≡ names a
        → Leads F.names F.moment F.left_since D.Disk B.shows B.accepts B.next
        first a here (set_aside a) here }
    // It is the newest again.
    ensures resuming { (first : B.State) (a b : Archive B.Command) (here : Point F D)
        → Resumes a b → F.names here.folder ≡ names a
        → Leads F.names F.moment F.left_since D.Disk B.shows B.accepts B.next
        first a here b here }
{}

/// What the folder's clauses say of its names is what the account says: of a making, a removal and a sync, and of every
/// stop.
pub fn calls_are_events<B: Recordings>()
    ensures making { (a : Archive B.Command) (n : ℕ) → a.newest ≡ None
        → names (begun_by a (Making n)) ≡ made n (names a) }
    ensures throwing { (a : Archive B.Command) (n : ℕ) → IsNotNewest n a.newest
        → names (begun_by a (Throwing n)) ≡ removed n (names a) }
    // A making and a removal that failed are events too, whatever they left.
    ensures failed_making { (a : Archive B.Command) (n : ℕ) (new : List Name) → a.newest ≡ None
        → (new ≡ names a) ⊎ MayHaveMade n (names a) new
        → (b : Archive B.Command) × Resolves (begun_by a (Making n)) b × (new ≡ names b) }
    ensures failed_throwing { (a : Archive B.Command) (n : ℕ) (new : List Name) → IsNotNewest n a.newest
        → MayHaveRemoved n (names a) new
        → (b : Archive B.Command) × Resolves (begun_by a (Throwing n)) b × (new ≡ names b) }
    ensures syncing { (a : Archive B.Command)
        → (b : Archive B.Command) × Resolves a b × (names b ≡ synced (names a)) }
    ensures stopping { (a : Archive B.Command) (left : List ℕ) → IsLeft (names a) left
        → (b : Archive B.Command) × Resolves (shut a) b × (names b ≡ restarted left) }
    // A step of the recorder, an ending, a setting aside and a resuming change no name.
    ensures recorded { (a : Archive B.Command) (step : Step B.Command) → names (recorded a step) ≡ names a }
    ensures ended { (a : Archive B.Command) (bytes : List ℕ) → names (ended_with a bytes) ≡ names a }
    ensures set_aside { (a : Archive B.Command) → names (set_aside a) ≡ names a }
    ensures resumed { (a b : Archive B.Command) → Resumes a b → names b ≡ names a }

    // A call that changed nothing is an event too.
    ensures unchanged { (a : Archive B.Command) → Resolves a a }

    // Who starts on a folder, syncs it and lists it, finds the newest at the list's end, or a file that may be it.
    ensures starting { (a : Archive B.Command) (n : ℕ) (front : List ℕ)
        → AreRising (names a) → AllStay (names a) → EndsEmpty a.ended
        → listed (names a) ≡ front ++ n ∷ [] → LastFile a n }

    // A file that is sealed may be ended.
    ensures ending { (disk : DiskState) → IsSettled disk → IsImage disk disk.contents
        → IsOnly disk.contents disk }
{}

/// What a call of a folder says of the time that passed is what every stop since has left; so is a second call's, if it
/// keeps within the same bound.
pub fn calls_leave_names<F: Folder>()
    ensures once { (old new : F) (bound : List Name) → F.is_honest old
        → NamesPass (F.moment old) (F.moment new) (F.left_since old) (F.left_since new) bound
        → ((left : List ℕ) → IsLeft (F.names old) left → IsLeft bound left)
        → LeavesNames F.moment F.left_since bound old new }
    ensures twice { (old mid new : F) (bound second : List Name)
        → LeavesNames F.moment F.left_since bound old mid
        → NamesPass (F.moment mid) (F.moment new) (F.left_since mid) (F.left_since new) second
        → ((left : List ℕ) → IsLeft second left → IsLeft bound left)
        → LeavesNames F.moment F.left_since bound old new }
{}
