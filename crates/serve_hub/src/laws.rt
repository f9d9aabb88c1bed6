//! What always holds of the listeners of a hub.
ghost use Rattle.std.specs.Prelude.{◌≡◌, ◌++◌, ℕ, List, Some, false};
ghost use Rattle.std.specs.List.{AllByRecursion};
ghost use Rattle.disk_model.specs.Leaving.{LeavesOnly};
ghost use Rattle.gate_file.specs.Commit.{CommitsToEither};
ghost use Rattle.gate_file.specs.Gate.{EachImage};
ghost use Rattle.ogg_page.specs.Page.{Page};
ghost use Rattle.link_chain.specs.ChainState.{chain_state_of, is_open};
ghost use Rattle.link_chain.specs.Links.{AreLinks};
ghost use Rattle.serve_live.specs.Hearing.{IsHearing};
ghost use Rattle.serve_live.specs.Listening.{ListenerState};
ghost use Rattle.serve_live.specs.Live.{IsLive, Moment};
ghost use Rattle.serve_live.specs.Places.{IsPlaceIn};
ghost use Rattle.serve_live.specs.declared.listener.JoinPlace.{JoinPlace as JoinPlaceOf};
ghost use Rattle.serve_machine.specs.Hub.{HubState, Event, hub_step};
ghost use Rattle.serve_machine.specs.Run.{Step, AreSteps};
ghost use Rattle.serve_machine.specs.Sound.{HasCommand, IsRecorded, IsSound};
ghost use Rattle.serve_hub.specs.Images.{disk_in};
ghost use Rattle.serve_hub.specs.Listening.{ShowsHeard, waiting_at};
ghost use Rattle.serve_hub.specs.Parts.{HubParts};
ghost use Rattle.serve_hub.specs.Showing.{Shows};

use disk_model::Disk;
use serve_live::{
    listeners_hear_what_they_should, places_are_moments, sessions_hear_what_is_committed,
    what_is_live_is_a_chain,
};
use serve_machine::committed_bytes_grow;

/// A listener goes on hearing what it should, whichever calls of the hub come: what it was given stays the front of
/// what is heard of the committed bytes, which grow.
pub fn listeners_go_on_hearing()
    ensures step { (old new : HubState) (event : Event) (moment : Moment) (listener : ListenerState) (given : List ℕ)
        → IsSound old → HasCommand event → hub_step old event new → IsHearing moment old.committed listener given
        → IsHearing moment new.committed listener given }
    ensures steps { (start : HubState) (steps : List Step) (moment : Moment) (listener : ListenerState) (given : List ℕ)
        → IsSound start → AllByRecursion (λ (step : Step). HasCommand step.event) steps → AreSteps start steps
        → IsHearing moment start.committed listener given
        → AllByRecursion (λ (step : Step). IsHearing moment step.after.committed listener given) steps }
{
    committed_bytes_grow();
    listeners_hear_what_they_should();
}

/// A listener that waits while no link is open has joined at a moment of the file. So what it hears is a chain of links,
/// whatever is committed since; and so is what one hears that joined a link.
pub fn what_a_hub_lets_hear_is_a_chain()
    ensures waits { (front committed more bytes : List ℕ) (closed links : List (List Page)) → AreLinks front closed
        → is_open (chain_state_of closed) ≡ false → committed ≡ front ++ more → AreLinks committed links
        → IsLive (waiting_at front) committed bytes → (heard : List (List Page)) × AreLinks bytes heard }
    ensures joins { (front committed more bytes : List ℕ) (moment : Moment) (place : JoinPlaceOf) (links after : List (List Page))
        → AreLinks front links → IsPlaceIn links moment place → committed ≡ front ++ more → AreLinks committed after
        → IsLive moment committed bytes → (heard : List (List Page)) × AreLinks bytes heard }
{
    places_are_moments();
    what_is_live_is_a_chain();
}

/// What a listener was given is on the disk: each image of it shows the same, whether the machine stops now or later.
/// Of what each image commits to, what the listener would hear begins with what it was given.
pub fn images_show_what_was_heard<D: Disk>()
    ensures images { (hub : HubParts D) (disk : D) (machine : HubState) (moment : Moment) (listener : ListenerState) (given : List ℕ)
        → Shows D.Disk hub machine → disk_in hub.file hub.lost ≡ Some disk → IsSound machine
        → IsHearing moment machine.committed listener given → EachImage (D.state disk) (ShowsHeard moment given) }
    // While a call appends, each image since it began commits to what was committed, or to that with all that is
    // appended.
    ensures calls { (old new : D) (committed more : List ℕ) (moment : Moment) (listener : ListenerState) (given : List ℕ)
        → IsRecorded committed → IsRecorded (committed ++ more) → IsHearing moment committed listener given
        → LeavesOnly D.Disk old new (CommitsToEither committed more)
        → LeavesOnly D.Disk old new (ShowsHeard moment given) }
{
    sessions_hear_what_is_committed();
}
