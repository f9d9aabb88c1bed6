//! What always holds of where the listeners of a station join.
ghost use Rattle.std.specs.Prelude.{ℕ, List};
ghost use Rattle.serve_hub.specs.Parts.{HubParts};
ghost use Rattle.serve_hub.specs.Showing.{Shows};
ghost use Rattle.serve_live.specs.Live.{Moment};
ghost use Rattle.serve_machine.specs.Hub.{HubState};
ghost use Rattle.serve_sources.specs.declared.answers.TheConstants.{LIVE};
ghost use Rattle.station_hub.specs.Live.{BeginsOver, IsAtStart, KeepsLive};
ghost use Rattle.station_hub.specs.Marking.{Start};
ghost use Rattle.station_hub.specs.Places.{PlacesState};
ghost use Rattle.station_hub.specs.Tracking.{IsJoinMoment, Tracks};
ghost use Rattle.station_laws.specs.Calling.{After, AreCalls, Call, IsCall, left_by};
ghost use Rattle.station_laws.specs.Serving.{GetsHeard, HasHeardOf};
ghost use Rattle.station_laws.specs.Written.{written};
ghost use Rattle.station.specs.declared.station.Station.{Station as StationOf};

use disk_model::Disk;
use station_hub::listeners_join_committed_links;

/// Whichever calls of a station come, in any order, where its listeners join is a place of the links that its hub has
/// committed by then.
pub fn listeners_of_a_station_join_committed_links<D: Disk>()
    // A station over a hub whose file is all links of which nothing waits.
    ensures begins { (hub : HubParts D) (station : StationOf D) (start : Start) (machine : HubState) → BeginsOver hub station.live
        → Shows D.Disk hub machine → IsAtStart start machine → Shows D.Disk station.live.hub machine × Tracks start machine station.live.places }
    ensures call { (old new : StationOf D) (call : Call) → IsCall D.Disk call old new → KeepsLive D.Disk old.live new.live }
    ensures kept { (old : StationOf D) (calls : List (After D)) → AreCalls D.Disk old calls → KeepsLive D.Disk old.live (left_by old calls).live }
    ensures joins { (start : Start) (old : StationOf D) (calls : List (After D)) (machine : HubState) → Shows D.Disk old.live.hub machine
        → Tracks start machine old.live.places → AreCalls D.Disk old calls → (after : HubState) × Shows D.Disk (left_by old calls).live.hub after
        × (moment : Moment) × IsJoinMoment (left_by old calls).live.places after.committed moment }
    // So what a listener hears is said without a condition, if the places were those of the machine's file at first.
    ensures hears { (start : Start) (first : HubState) (begun : PlacesState) (key : ℕ) (old : StationOf D) (calls : List (After D)) (before : List ℕ)
        → Tracks start first begun → (gets : GetsHeard D.Disk first begun key old calls before)
        → (moment : Moment) × IsJoinMoment gets.places gets.machine.committed moment
        × HasHeardOf D.Disk LIVE.now moment (left_by old calls) (written key calls) }
{
    listeners_join_committed_links();
}
