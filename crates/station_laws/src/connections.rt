//! What always holds of the connections of a station.
ghost use Rattle.std.specs.Prelude.{◌≡◌, ◌⊎◌, ◌++◌, [], ◌∷◌, ℕ, List, None, Some, Ok};
ghost use Rattle.serve_clients.specs.Client.{ClientState};
ghost use Rattle.serve_hub.specs.Showing.{Shows};
ghost use Rattle.serve_machine.specs.Hub.{HubState};
ghost use Rattle.serve_machine.specs.Own.{AreNumbered};
ghost use Rattle.serve_sources.specs.declared.answers.TheConstants.{FULL};
ghost use Rattle.slab.specs.Slab.{Slab, get};
ghost use Rattle.station_laws.specs.Calling.{Accepted, After, AreCalls, Call, IsCall, left_by};
ghost use Rattle.station_laws.specs.Serving.{IsServed};
ghost use Rattle.station_laws.specs.Written.{AreApart, AreTold, GetsResponse, written};
ghost use Rattle.station.specs.declared.station.Station.{Station as StationOf};

use disk_model::Disk;
use serve_machine::{
    calls_move_their_session, committed_bytes_grow, other_sessions_stay, sessions_are_numbered,
};
use station_hub::listeners_hear_what_a_hub_commits;

/// Whichever calls of a station come, in any order, what was written to a connection that a session answers is the front of
/// one response: that to what was received when its head was complete, over the bytes that were committed then. Before that
/// nothing is written. Each session is one connection's alone, so that no other one's calls come to it.
pub fn connections_get_their_responses<D: Disk>()
    ensures new { (machine : HubState) (slots : Slab ClientState) → AreNumbered machine → ((key : ℕ) → get slots key ≡ None)
        → AreApart machine slots }
    ensures kept { (old new : StationOf D) (call : Call) (before : HubState) → IsCall D.Disk call old new → Shows D.Disk old.live.hub before
        → AreApart before old.clients.slots → (after : HubState) × Shows D.Disk new.live.hub after × AreApart after new.clients.slots }
    // From the call on by which the connection was accepted.
    ensures served { (old : StationOf D) (accepted : After D) (later : List (After D)) (machine : HubState) (key now id : ℕ) (client : ClientState)
        → Shows D.Disk old.live.hub machine → AreApart machine old.clients.slots → accepted.call ≡ Accepted now (Ok key)
        → AreCalls D.Disk old (accepted ∷ later) → AreTold key [] later
        → get (left_by accepted.after later).clients.slots key ≡ Some client → client.session ≡ Some id
        → (written key later ≡ []) ⊎ GetsResponse D.Disk key accepted.after later [] }
    // The same of every connection: what was written is the front of its one response, of an answer of the station's own, or
    // of what it hears of the bytes committed by then, after the head of that answer. It joined at a place of the committed
    // links, if the places were those of the machine's file before. One too many is told so.
    ensures whole { (old : StationOf D) (accepted : After D) (later : List (After D)) (machine : HubState) (key now : ℕ)
        → Shows D.Disk old.live.hub machine → AreApart machine old.clients.slots → accepted.call ≡ Accepted now (Ok key)
        → AreCalls D.Disk old (accepted ∷ later) → AreTold key [] later
        → IsServed D.Disk machine old.live.places key accepted.after later [] ⊎ ((left : List ℕ) × (FULL.now ≡ written key later ++ left)) }
{
    calls_move_their_session();
    committed_bytes_grow();
    listeners_hear_what_a_hub_commits::<D>();
    other_sessions_stay();
    sessions_are_numbered();
}
