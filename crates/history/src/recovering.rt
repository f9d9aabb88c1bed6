//! From an image's bytes to what it shows.
ghost use Rattle.std.specs.Prelude.{◌++◌, ℕ, List, take};
ghost use Rattle.std.specs.List.{fold};
ghost use Rattle.disk_model.specs.Image.{DiskState, IsImage};
ghost use Rattle.disk_model.specs.Leaving.{LeavesOnly};
ghost use Rattle.history.specs.Showing.{ShowsOne, ShowsEither, IsAsBefore, Finds};
ghost use Rattle.history.specs.World.{World, Step, commands};
ghost use Rattle.history.specs.Commands.{AreAccepted, ShowsFirst};
ghost use Rattle.history.specs.Recovery.{CommitsOne, HoldsOne, Recovers, CommitsEither};

use crate::Recordings;
use disk_model::Disk;

/// How images show states: an image commits to some of its bytes, and these hold a state.
pub trait Committed {
    ghost State: { Type 0 };

    ghost commits_to: { List ℕ → List ℕ → Type 0 };

    ghost holds: { List ℕ → State → Type 0 };

    /// An image commits to one list of bytes at most.
    ghost commits_one: { CommitsOne commits_to };

    /// Bytes hold one state at most.
    ghost holds_one: { HoldsOne holds };
}

/// Images that commit to bytes show what the bytes hold.
pub fn images_show_what_their_bytes_hold<D: Disk, B: Committed>()
    ensures one { ShowsOne (Recovers B.commits_to B.holds) }
    // A staging, a sealing, or a making ready.
    ensures same { (old new : D) (bytes : List ℕ) (state : B.State) → B.holds bytes state
        → LeavesOnly D.Disk old new (λ image. B.commits_to image bytes)
        → LeavesOnly D.Disk old new
        (λ image. Recovers B.commits_to B.holds image state) }
    // A commit of a group's pages.
    ensures group { (old new : D) (bytes pages : List ℕ) (now then : B.State)
        → B.holds bytes now → B.holds (bytes ++ pages) then
        → LeavesOnly D.Disk old new (CommitsEither B.commits_to bytes pages)
        → LeavesOnly D.Disk old new
        (ShowsEither (Recovers B.commits_to B.holds) now then) }
    // A reading, or an opening up to its sync.
    ensures read { (old new : D) → LeavesOnly D.Disk old new (IsImage (D.state old))
        → LeavesOnly D.Disk old new
        (IsAsBefore (Recovers B.commits_to B.holds) (D.state old)) }
    // An opening: up to its sync, and then a making ready.
    ensures opened { (old mid new : D) (bytes source : List ℕ)
        → IsImage (D.state old) source → B.commits_to source bytes
        → LeavesOnly D.Disk old mid (IsImage (D.state old))
        → LeavesOnly D.Disk mid new (λ image. B.commits_to image bytes)
        → LeavesOnly D.Disk old new
        (IsAsBefore (Recovers B.commits_to B.holds) (D.state old)) }
    // What it finds.
    ensures finds { (before now : DiskState) (bytes source : List ℕ) (state : B.State)
        → IsImage before source → B.commits_to source bytes
        → ((image : List ℕ) → IsImage now image → B.commits_to image bytes)
        → B.holds bytes state → Finds (Recovers B.commits_to B.holds) before now state }
{}

/// The recording after the first k commands is the first recording with these commands added.
pub fn recordings_grow_by_commands<D: Disk, B: Recordings>()
    ensures grows { (state : B.State) (recording : B.Recording) (more : List B.Command)
        → B.holds state recording → AreAccepted B.accepts B.next state more
        → B.holds (fold B.next state more) (fold B.add recording more) }
    // So what images show holds the first recording with a prefix of the commands added.
    ensures shown { (first : B.State) (recording : B.Recording) (steps : List (Step B.Command × D))
        (w : World B.Command) (image : List ℕ) → B.holds first recording
        → (first_ones : ShowsFirst B.shows B.accepts B.next first steps w image)
        → (state : B.State) × B.shows image state
        × B.holds state (fold B.add recording (take first_ones.k (commands w))) }
{}
