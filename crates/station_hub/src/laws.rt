//! What always holds of what a hub gives, and of where its listeners join.
ghost use Rattle.std.specs.Prelude.{◌≡◌, ◌≢◌, ◌⊎◌, ◌++◌, ◌≤◌, ℕ, Bool, List, [], None, Some, Ok, Err, Result, drop, length, take};
ghost use Rattle.ogg_page.specs.Page.{Page};
ghost use Rattle.link_chain.specs.Links.{AreLinks};
ghost use Rattle.link_chain.specs.Recording.{HoldsLinks, Recording};
ghost use Rattle.ogg_command.specs.Command.{IsCommand};
ghost use Rattle.ogg_command.specs.declared.command.Command.{Command as CommandOf};
ghost use Rattle.ogg_command.specs.declared.refusal.Refusal.{Refusal as RefusalOf};
ghost use Rattle.feed_replies.specs.declared.reply.Kept.{Kept as KeptOf};
ghost use Rattle.file_recorder.specs.Running.{reply_of};
ghost use Rattle.feed_replies.specs.declared.outcome.Outcome.{Outcome as OutcomeOf};
ghost use Rattle.serve_live.specs.Boundaries.{no_link, place_to_join};
ghost use Rattle.serve_hub.specs.Parts.{HubParts};
ghost use Rattle.serve_hub.specs.Showing.{Shows};
ghost use Rattle.serve_live.specs.Hearing.{IsHearing};
ghost use Rattle.serve_live.specs.Listening.{ListenerState};
ghost use Rattle.serve_live.specs.Live.{Moment};
ghost use Rattle.serve_live.specs.Places.{IsPlaceIn};
ghost use Rattle.serve_live.specs.declared.listener.JoinPlace.{JoinPlace as JoinPlaceOf};
ghost use Rattle.serve_responses.specs.Response.{IsResponse};
ghost use Rattle.serve_machine.specs.Hub.{Event, Flush, Given, HubState, Pull, Reading, Receive, Record, Reopen, hub_step, phase_of};
ghost use Rattle.serve_machine.specs.Run.{session_of};
ghost use Rattle.serve_machine.specs.declared.answers.Progress.TheVariants.{Ready};
ghost use Rattle.serve_machine.specs.declared.fault.HubFault.{HubFault as HubFaultOf};
ghost use Rattle.serve_machine.specs.Sound.{Extends};
ghost use Rattle.serve_clients.specs.Client.{ClientState, HasWritten, cut, given};
ghost use Rattle.station_hub.specs.Giving.{HasPulled, Owes};
ghost use Rattle.station_hub.specs.Marking.{Start};
ghost use Rattle.station_hub.specs.Places.{PlacesState, answered_by, committed_to, reopened_to};
ghost use Rattle.station_hub.specs.Tracking.{IsOpenIn, IsTold, Tracks};
ghost use Rattle.station_hub.specs.declared.places.Answered.{Answered as AnsweredOf};
ghost use Rattle.serve_clients.specs.declared.client.Stage.TheVariants.{Cut as CutOf, Sending as SendingOf};

use chain_rules::commands_add_their_packets;
use disk_model::Disk;
use link_chain::bytes_are_one_chain;
use serve_live::{commands_make_places, listeners_hear_what_they_should};
use serve_machine::{calls_move_their_session, other_sessions_stay};

/// A connection that is served by a session is owed its response, byte for byte, from the call that completes its head
/// on. What is given to it and written is the front of what it is owed, and what is kept or still to be pulled is the
/// rest, until it is cut. No call of another session and none of the recorder changes what it is owed.
pub fn connections_are_owed_their_responses()
    ensures begins { (before after : HubState) (client : ClientState) (id : ℕ) (received bytes : List ℕ)
        → phase_of before id ≡ Some (Reading received) → hub_step before (Receive id bytes (Ok Ready)) after
        → client.stage ≡ SendingOf → client.session ≡ Some id → client.unsent ≡ []
        → (response : List ℕ) × IsResponse before.committed (received ++ bytes) response × Owes after client response }
    ensures pulls { (before after : HubState) (client new : ClientState) (id size count : ℕ) (answer : Result Given HubFaultOf)
        (buffer owed : List ℕ) → client.stage ≡ SendingOf → client.session ≡ Some id → client.unsent ≡ []
        → hub_step before (Pull id size answer) after → HasPulled answer client count buffer new → Owes before client owed
        → (new ≡ cut client) ⊎ ((left : List ℕ) × (owed ≡ take count buffer ++ left) × Owes after new left) }
    // Of the bytes that were pulled, those that weren't written are kept.
    ensures keeps { (hub : HubState) (client : ClientState) (left kept : List ℕ) → client.unsent ≡ [] → Owes hub client left
        → Owes hub (record client { unsent = kept }) (kept ++ left) }
    // Of the bytes that were kept, so many more were written.
    ensures writes { (hub : HubState) (client : ClientState) (owed : List ℕ) (count : ℕ) → count ≤ length client.unsent
        → Owes hub client owed → Owes hub (record client { unsent = drop count client.unsent }) (drop count owed) }
    // So it is over a call of `next` and one of `wrote`: what was written is the front of what it is owed, and it is owed
    // the rest then.
    ensures exchanges { (before after : HubState) (client pulled kept : ClientState) (id size count written now : ℕ) (ending : Bool)
        (answer : Result Given HubFaultOf) (buffer owed : List ℕ) → client.stage ≡ SendingOf → client.session ≡ Some id → client.unsent ≡ []
        → hub_step before (Pull id size answer) after → HasPulled answer client count buffer pulled → count ≤ length buffer → written ≤ count
        → HasWritten (take count buffer) written (given count ending now pulled) kept → Owes before client owed
        → (kept.stage ≡ CutOf) ⊎ ((take written owed ≡ take written buffer) × Owes after kept (drop written owed)) }
    ensures others { (before after : HubState) (event : Event) (client : ClientState) (id : ℕ) (owed : List ℕ)
        → hub_step before event after → client.session ≡ Some id → session_of event ≢ Some id
        → Owes before client owed → Owes after client owed }
{
    calls_move_their_session();
    other_sessions_stay();
}

/// What a listener was given stays the front of what is heard of the committed bytes, while these grow.
pub fn listeners_hear_what_a_hub_commits<D: Disk>()
    ensures { (old new : HubParts D) (before after : HubState) (moment : Moment) (listener : ListenerState) (given : List ℕ)
        → Shows D.Disk old before → Shows D.Disk new after → Extends before.committed after.committed
        → IsHearing moment before.committed listener given → IsHearing moment after.committed listener given }
{
    listeners_hear_what_they_should();
}

/// Where a listener joins is a place of the committed links, whatever calls of the hub come: as long as the places are
/// told what becomes of each command, each flush and each reopening.
pub fn listeners_join_committed_links()
    ensures joins { (start : Start) (machine : HubState) (places : PlacesState) (place : JoinPlaceOf) (links : List (List Page))
        → Tracks start machine places → place_to_join places.boundaries ≡ Some place → AreLinks machine.committed links
        → (moment : Moment) × IsPlaceIn links moment place }
    ensures begins { (machine : HubState) (links : List (List Page)) (recording : Recording) → AreLinks machine.committed links
        → HoldsLinks links recording → machine.held ≡ [] → machine.in_doubt ≡ None
        → Tracks (record { bytes = machine.committed; links = links; recording = recording }) machine (record { boundaries = no_link; begun = None }) }
    ensures command { (start : Start) (old new : HubState) (places : PlacesState) (command : CommandOf) (answer : Result OutcomeOf RefusalOf)
        (answered : AnsweredOf) → IsCommand command → hub_step old (Record command answer) new → IsTold command old new answered
        → Tracks start old places → Tracks start new (answered_by (reply_of answer) answered places) }
    ensures flush { (start : Start) (old new : HubState) (places : PlacesState) (kept : KeptOf) (going : Bool)
        → hub_step old (Flush (Ok kept)) new → IsOpenIn new going
        → Tracks start old places → Tracks start new (committed_to (length new.committed) going places) }
    ensures refused { (start : Start) (old new : HubState) (places : PlacesState) (refusal : RefusalOf)
        → hub_step old (Flush (Err refusal)) new → Tracks start old places → Tracks start new places }
    ensures reopened { (start : Start) (old new : HubState) (places : PlacesState) (going : Bool) (found : List ℕ)
        → hub_step old (Reopen (Some found)) new → IsOpenIn new going
        → Tracks start old places → Tracks start new (reopened_to (length old.committed) (length new.committed) going places) }
    ensures lost { (start : Start) (old new : HubState) (places : PlacesState) → hub_step old (Reopen None) new
        → Tracks start old places → Tracks start new places }
    ensures session { (start : Start) (old new : HubState) (event : Event) (id : ℕ) (places : PlacesState) → hub_step old event new
        → session_of event ≡ Some id → Tracks start old places → Tracks start new places }
{
    commands_add_their_packets();
    commands_make_places();
    bytes_are_one_chain();
    calls_move_their_session();
}
