//! What every history keeps.
ghost use Rattle.std.specs.Prelude.{◌≡◌, ◌⊎◌, ◌<◌, ◌≤◌, ◌++◌, true, Bool, ℕ, List, length};
ghost use Rattle.std.specs.List.{fold, AllByRecursion};
ghost use Rattle.disk_model.specs.Image.{IsImage};
ghost use Rattle.disk_model.specs.Leaving.{LeavesOnly};
ghost use Rattle.history.specs.Showing.{ShowsOnly, Finds};
ghost use Rattle.history.specs.World.{World, Call, Opening, Step, Opened, Session, start, happens, run, begun, disk_after, now_in, commands, sessions_of, GroupsUpTo};
ghost use Rattle.history.specs.Commands.{ShowsFirst};
ghost use Rattle.history.specs.History.{ShowsWorld, StandsIn, Leaves, Meets, MayBegin, IsStep, AreSteps, IsHistory};
ghost use Rattle.history.specs.Runs.{ShowsSome, AreCommands, accepted};

use crate::Recordings;
use disk_model::Disk;

/// After any openings, commands, flushes, sealings and stops, at any moment, every image shows what a prefix of the
/// commands has recorded. Every acknowledged command is in that prefix, and each group is there as a whole or not at
/// all.
pub fn stops_keep_what_was_acknowledged<D: Disk, B: Recordings>()
    // Between two calls.
    ensures at_end { (first : B.State) (disk now : D) (w : World B.Command)
        (steps : List (Step B.Command × D))
        → IsHistory D.Disk B.shows B.accepts B.next
        first disk steps w now
        → (image : List ℕ) → IsImage (D.state now) image
        → ShowsFirst B.shows B.accepts B.next first steps w image }

    // At each moment of one more call.
    ensures any_moment { (first : B.State) (disk now : D) (w : World B.Command)
        (steps : List (Step B.Command × D))
        → IsHistory D.Disk B.shows B.accepts B.next
        first disk steps w now
        → (call : Call B.Command) (new : D) → MayBegin B.accepts B.next first w call
        → Leaves D.Disk B.shows B.next first w call now new
        → (image : List ℕ) → D.images_since new (D.moment now) image
        → ShowsFirst B.shows B.accepts B.next first steps (begun w call) image }

    // While the recording is open, every image shows only what is acknowledged: nothing that waits.
    ensures while_open { (first : B.State) (disk now : D) (w : World B.Command)
        (steps : List (Step B.Command × D))
        → IsHistory D.Disk B.shows B.accepts B.next
        first disk steps w now
        → w.is_open ≡ true → ShowsOnly B.shows (D.state now) (now_in B.next first w) }

    // What an opening finds is the acknowledged commands, without the group in doubt or with it.
    ensures opening { (first : B.State) (disk now : D) (w : World B.Command)
        (steps : List (Step B.Command × D))
        → IsHistory D.Disk B.shows B.accepts B.next
        first disk steps w now
        → (new : D) (found : B.State) → Finds B.shows (D.state now) (D.state new) found
        → (found ≡ now_in B.next first w) ⊎ (found ≡ fold B.next first (commands w)) }
{}

/// A disk that stands in a world stands, at each moment of a call, in the world that the call began, and after a step
/// in the next one.
pub fn disks_stand_in_their_world<D: Disk, B: Recordings>()
    ensures any_moment { (first : B.State) (w : World B.Command) (call : Call B.Command) (old new : D)
        → StandsIn B.shows B.next first w (D.state old)
        → Leaves D.Disk B.shows B.next first w call old new
        → (image : List ℕ) → D.images_since new (D.moment old) image
        → ShowsWorld B.shows B.next first (begun w call) image }
    ensures step { (first : B.State) (w : World B.Command) (step : Step B.Command) (old new : D)
        → StandsIn B.shows B.next first w (D.state old)
        → IsStep D.Disk B.shows B.accepts B.next
        first w step old new
        → StandsIn B.shows B.next first (happens w step) (D.state new) }
    // What an opening finds makes it a step.
    ensures opened { (first : B.State) (w : World B.Command) (old new : D) (found : B.State)
        → StandsIn B.shows B.next first w (D.state old)
        → Leaves D.Disk B.shows B.next first w Opening old new
        → Finds B.shows (D.state old) (D.state new) found
        → (with_group : Bool) × (found ≡ now_in B.next first (happens w (Opened with_group)))
        × Meets D.Disk B.shows B.next
        first w (Opened with_group) old new }
{}

/// What is acknowledged stays so, and in its place.
pub fn acknowledged_commands_stay<D: Disk, B: Recordings>()
    ensures { (w : World B.Command) (steps : List (Step B.Command × D)) → (more : List B.Command)
        × ((run w steps).acknowledged ≡ w.acknowledged ++ more) }
{}

/// If at most `most` commands share a commit, an opening finds at most `most` that weren't acknowledged. If each
/// command has a commit of its own, it finds at most one.
pub fn groups_in_doubt_are_short<D: Disk, B: Recordings>()
    ensures { (most : ℕ) (steps : List (Step B.Command × D)) → 0 < most → GroupsUpTo most start steps
        → AllByRecursion (λ (session : Session B.Command). length session.in_doubt ≤ most)
        (sessions_of steps (run start steps)) }
{}

/// Steps that go on from where other steps ended are steps.
pub fn histories_go_on<D: Disk, B: Recordings>()
    ensures steps { (first : B.State) (w : World B.Command) (disk : D)
        (some more : List (Step B.Command × D))
        → AreSteps D.Disk B.shows B.accepts B.next
        first w disk some
        → AreSteps D.Disk B.shows B.accepts B.next
        first (run w some) (disk_after disk some) more
        → AreSteps D.Disk B.shows B.accepts B.next
        first w disk (some ++ more) }
    ensures run { (w : World B.Command) (some more : List (Step B.Command × D))
        → run w (some ++ more) ≡ run (run w some) more }
    ensures disk { (disk : D) (some more : List (Step B.Command × D))
        → disk_after disk (some ++ more) ≡ disk_after (disk_after disk some) more }
{}

/// At each moment of a call that records many commands, the images show a prefix of those that it accepted.
pub fn runs_show_first_commands<D: Disk, B: Recordings>()
    ensures { (first : B.State) (w : World B.Command) (disk : D) (steps : List (Step B.Command × D))
        → D.is_honest disk → ShowsOnly B.shows (D.state disk) (now_in B.next first w)
        → AreSteps D.Disk B.shows B.accepts B.next
        first w disk steps
        → AreCommands steps
        → LeavesOnly D.Disk disk (disk_after disk steps)
        (ShowsSome B.shows B.next first (w.acknowledged ++ w.held ++ accepted steps)) }
{}
