//! A connection is served while a feed is recorded.
ghost use Rattle.std.specs.Prelude.{◌≡◌, ◌≤◌, ℕ, [], Some, None, Err, true, false};
ghost use Rattle.serve_sending.specs.Sending.{HasFailed};
ghost use Rattle.serve_machine.specs.Hub.{HubState, Reading, is_full, phase_of};
ghost use Rattle.serve_machine.specs.Own.{AreNumbered};
ghost use Rattle.serve_hub.specs.Images.{failures_in};
ghost use Rattle.serve_hub.specs.Showing.{Shows};
ghost use Rattle.ogg_serve.specs.Keeping.{KeepsAll, KeepsOthers};
ghost use Rattle.ogg_serve.specs.Serving.{HasTriedAll};
ghost use Rattle.ogg_serve.specs.FileHistory.{ContinuesHistory};
ghost use Rattle.ogg_serve.specs.Steps.{GetsIn, TakesStep, TakesSteps};

use crate::feeding::LiveFeed;
use crate::pieces::{Served, read_head, send_piece};
use crate::serve::MOST_PIECES;
use crate::trying::Tries;
use disk_model::Disk;
use file_recorder::Recorded;
use history::disks_stand_in_their_world;
use serve_hub::{Hub, HubFault};
use serve_machine::{
    calls_move_their_session, committed_bytes_grow, other_sessions_stay, sessions_are_numbered,
};
use std::io::{Read, Write};

/// Serves one connection, as [`serve_one`](crate::serve_one) does, with its faults, and takes a step of the feed
/// before each piece of the response. The end of the feed and its faults don't end the connection. `NoFile` says that
/// the hub has no file at the end of the call, as after a reopening that failed.
pub fn live_one<D: Disk + Drop, R: Read, W: Write, F: Read, L: Write + Drop>(
    hub: &mut Hub<D>,
    reader: &mut R,
    writer: &mut W,
    feed: &mut LiveFeed<F, L>,
) -> Result<Served, HubFault>
    ensures served { (before : HubState) → Shows D.Disk hub.old before → is_full before ≡ false → AreNumbered before
        → (after : HubState) × Shows D.Disk hub.new after × KeepsOthers before.next_id before after
        × (phase_of after before.next_id ≡ None)
        × ((n : ℕ)
        × TakesSteps D.Disk F.remaining L.contents n feed.old feed.new before after
        × GetsIn (R.remaining reader.old) (R.remaining reader.new) (W.contents writer.old) (W.contents writer.new)
        n after.has_file before.committed result) }

    // In each history in which the hub stood, what was recorded and read is what comes next.
    ensures history { (before : HubState) → Shows D.Disk hub.old before → AreNumbered before
        → ContinuesHistory D.Disk hub.old hub.new }

    // A fault has a cause.
    ensures cause { result ≡ Err HubFault.Source → (before : HubState) → Shows D.Disk hub.old before
        → AreNumbered before → HasFailed (failures_in D.failures hub.old) (failures_in D.failures hub.new) }
    ensures full { (before : HubState) → Shows D.Disk hub.old before → is_full before ≡ true
        → (result ≡ Err HubFault.SessionsFull) × Shows D.Disk hub.new before × (feed.new ≡ feed.old)
        × (reader.new ≡ reader.old) × (writer.new ≡ writer.old) }
{
    // For the proof alone.
    calls_move_their_session();
    other_sessions_stay();
    sessions_are_numbered();
    match hub.connect() {
        Ok(id) => {
            let mut tries = Tries::new();
            let served = exchange(hub, id, reader, writer, feed, &mut tries);
            // After `Source` the session has ended already.
            let _ = hub.close(id);
            served
        }
        Err(fault) => Err(fault),
    }
}

/// Reads a session's request and writes its response, with a step of the feed before each piece.
fn exchange<D: Disk + Drop, R: Read, W: Write, F: Read, L: Write + Drop>(
    hub: &mut Hub<D>,
    id: u64,
    reader: &mut R,
    writer: &mut W,
    feed: &mut LiveFeed<F, L>,
    tries: &mut Tries,
) -> Result<Served, HubFault>
    ensures served { (before : HubState) → Shows D.Disk hub.old before → phase_of before id ≡ Some (Reading [])
        → (after : HubState) × Shows D.Disk hub.new after × KeepsOthers id before after
        × ((n : ℕ)
        × TakesSteps D.Disk F.remaining L.contents n feed.old feed.new before after
        × GetsIn (R.remaining reader.old) (R.remaining reader.new) (W.contents writer.old) (W.contents writer.new)
        n after.has_file before.committed result) }
    ensures tried { (before : HubState) → Shows D.Disk hub.old before → phase_of before id ≡ Some (Reading [])
        → tries.old ≡ false → HasTriedAll tries.new before.committed result }
    ensures history { (before : HubState) → Shows D.Disk hub.old before → phase_of before id ≡ Some (Reading [])
        → ContinuesHistory D.Disk hub.old hub.new }
    ensures cause { result ≡ Err HubFault.Source → (before : HubState) → Shows D.Disk hub.old before
        → phase_of before id ≡ Some (Reading []) → HasFailed (failures_in D.failures hub.old) (failures_in D.failures hub.new) }
{
    // For the proof alone.
    disks_stand_in_their_world::<D, Recorded>();
    match read_head(hub, id, reader, tries) {
        Ok(None) => {}
        Ok(Some(served)) => return Ok(served),
        Err(fault) => return Err(fault),
    }
    for _ in 0..MOST_PIECES {
        go_on(hub, feed);
        match send_piece(hub, id, writer, tries) {
            Ok(None) => {}
            Ok(Some(served)) => return Ok(served),
            Err(fault) => return Err(fault),
        }
    }
    Ok(Served::Cut)
}

/// Takes a step of the feed. If it was the last, its answer stays in the feed. No session sees any of it.
fn go_on<D: Disk + Drop, F: Read, L: Write + Drop>(hub: &mut Hub<D>, feed: &mut LiveFeed<F, L>)
    ensures took { (before : HubState) → Shows D.Disk hub.old before
        → (after : HubState) × Shows D.Disk hub.new after × KeepsAll before after
        × TakesStep D.Disk F.remaining L.contents feed.old feed.new before after }
    ensures history { (before : HubState) → Shows D.Disk hub.old before
        → ContinuesHistory D.Disk hub.old hub.new }
    ensures later { (before : HubState) → Shows D.Disk hub.old before
        → failures_in D.failures hub.old ≤ failures_in D.failures hub.new }
{
    committed_bytes_grow();
    // For the proof alone.
    other_sessions_stay();
    sessions_are_numbered();
    let _ = feed.step(hub);
}
