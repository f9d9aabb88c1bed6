//! How long commands wait for their commit and sources for the air, how long a source may be silent, and when a station
//! comes to its end, over any calls of it.
ghost use Rattle.std.specs.Prelude.{◌≡◌, ◌<◌, ◌≤◌, ◌+◌, ◌∷◌, [], ℕ, Bool, List, Some, false, true};
ghost use Rattle.serve_hub.specs.Parts.{failed_in};
ghost use Rattle.serve_hub.specs.Showing.{Shows};
ghost use Rattle.serve_machine.specs.Hub.{HubState};
ghost use Rattle.station_laws.specs.Calling.{After, AreCalls, Looked, Next, Received, Stepped, left_by};
ghost use Rattle.station_laws.specs.Patience.{AreNotBefore, IsAt, StaysAt, WaitsSince};
ghost use Rattle.station_laws.specs.Written.{AreTold};
ghost use Rattle.serve_clients.specs.Client.{ClientState, HasLast, given};
ghost use Rattle.serve_clients.specs.declared.client.Stage.TheVariants.{Feeding as FeedingOf, Waiting as WaitingOf};
ghost use Rattle.serve_sources.specs.Answers.{refusal};
ghost use Rattle.serve_sources.specs.declared.refused.Refused.TheVariants.{OnTheAir};
ghost use Rattle.slab.specs.Slab.{get};
ghost use Rattle.station.specs.Ending.{has_finished, is_over};
ghost use Rattle.station_laws.specs.Waiting.{AreInTime, IsCommitted, WaitsOn};
ghost use Rattle.station.specs.declared.station.Station.{Station as StationOf};

use disk_model::Disk;

/// A command waits no longer than 150 milliseconds for its commit, once a step is asked for: if nothing waited before a
/// step, and something has waited since, whichever calls came, the first step that comes 150 milliseconds after that one
/// or later commits it, unless the disk has failed.
pub fn commands_wait_no_longer<D: Disk>()
    ensures { (old : StationOf D) (begun now : ℕ) (first last : After D) (later : List (After D)) (before machine : HubState)
        → first.call ≡ Stepped begun → last.call ≡ Stepped now → AreInTime D.Disk old (first ∷ later)
        → Shows D.Disk old.live.hub before → failed_in old.live.hub.file ≡ false → before.waiting ≡ 0
        → WaitsOn D.Disk first.after later → AreInTime D.Disk (left_by first.after later) (last ∷ [])
        → Shows D.Disk (left_by first.after later).live.hub machine → failed_in (left_by first.after later).live.hub.file ≡ false
        → 0 < machine.waiting → begun + 150 ≤ now → IsCommitted D.Disk (left_by first.after later) last.after }
{}

/// A source that finds the air taken waits for it, since the same moment, whatever is called, for as long as it waits. It
/// is told that the air is taken when it is asked for its next bytes a second later, or after that.
pub fn sources_wait_for_a_second<D: Disk>()
    ensures waits { (key since : ℕ) (old : StationOf D) (calls : List (After D)) → WaitsSince key since old → AreCalls D.Disk old calls
        → AreTold key [] calls → StaysAt WaitingOf key calls → WaitsSince key since (left_by old calls) }
    ensures refused { (key since size now count : ℕ) (buffer : List ℕ) (old : StationOf D) (calls : List (After D)) (last : After D)
        → WaitsSince key since old → AreCalls D.Disk old calls → AreTold key [] calls → StaysAt WaitingOf key calls
        → last.call ≡ Next key size now count buffer → AreCalls D.Disk (left_by old calls) (last ∷ []) → since + 1000 ≤ now
        → (client after : ClientState) × (get (left_by old calls).clients.slots key ≡ Some client) × HasLast (refusal OnTheAir) client after
        × (get last.after.clients.slots key ≡ Some (given count (is_over (left_by old calls).air (left_by old calls).ending) now after)) }
{}

/// A source that sends isn't silent: no look within 30 seconds after its last bytes have come ends it, whatever was called
/// since then, if no call was made before that moment.
pub fn sources_that_send_are_not_silent<D: Disk>()
    ensures { (key sent now : ℕ) (bytes : List ℕ) (old : StationOf D) (first last : After D) (later : List (After D))
        → first.call ≡ Received key bytes sent → IsAt FeedingOf (get old.clients.slots key) → AreCalls D.Disk old (first ∷ later)
        → StaysAt FeedingOf key later → AreNotBefore sent later → last.call ≡ Looked now
        → AreCalls D.Disk (left_by first.after later) (last ∷ []) → now < sent + 30000
        → IsAt FeedingOf (get last.after.clients.slots key) }
{}

/// Once a station comes to its end it does so since then, whatever is called: so it is finished a minute later at the latest,
/// once all that came is recorded and kept, whoever is connected.
pub fn an_end_stays<D: Disk>()
    ensures stays { (old : StationOf D) (since : ℕ) (calls : List (After D)) → old.ending ≡ Some since → AreInTime D.Disk old calls
        → (left_by old calls).ending ≡ Some since }
    ensures finishes { (old : StationOf D) (since now : ℕ) (calls : List (After D)) (connected : Bool)
        → old.ending ≡ Some since → AreInTime D.Disk old calls → since + 60000 ≤ now
        → has_finished (left_by old calls).ending false true connected now ≡ true }
{}
