//! A connection is served.
ghost use Rattle.std.specs.Prelude.{◌≡◌, ℕ, [], Some, None, Err, true, false};
ghost use Rattle.serve_machine.specs.Hub.{HubState, Reading, is_full, phase_of};
ghost use Rattle.serve_machine.specs.Own.{AreNumbered};
ghost use Rattle.serve_hub.specs.Images.{IfFile, Fails, Reads};
ghost use Rattle.serve_hub.specs.Showing.{Shows};
ghost use Rattle.ogg_serve.specs.Keeping.{OnlyServes};
ghost use Rattle.ogg_serve.specs.Serving.{Gets, HasTriedAll};

use crate::pieces::{Served, read_head, send_piece};
use crate::trying::Tries;
use disk_model::Disk;
use serve_hub::{Hub, HubFault};
use serve_machine::{calls_move_their_session, other_sessions_stay, sessions_are_numbered};
use std::io::{Read, Write};

/// A number of pieces that no response reaches.
pub const MOST_PIECES: u64 = 1 << 52;

/// Serves one connection, in pieces of at most 4,096 bytes: a session is begun, its request is read, the response is
/// written, and the session is closed.
///
/// `SessionsFull` says that no session could be begun, and nothing is read then. After any other fault a front of the
/// response was written, or nothing; the session is closed then too. `NoFile` says that the hub has no file, `Source`
/// that the disk has failed, and `Memory` that there was no room for the request or for the response's text.
pub fn serve_one<D: Disk + Drop, R: Read, W: Write>(
    hub: &mut Hub<D>,
    reader: &mut R,
    writer: &mut W,
) -> Result<Served, HubFault>
    ensures served { (before : HubState) → Shows D.Disk hub.old before → is_full before ≡ false → AreNumbered before
        → (after : HubState) × Shows D.Disk hub.new after × OnlyServes before.next_id before after
        × (phase_of after before.next_id ≡ None)
        × Gets (R.remaining reader.old) (R.remaining reader.new) (W.contents writer.old) (W.contents writer.new) before.has_file before.committed result }

    // The file is only read, and a fault has a cause.
    ensures disk { IfFile (Reads D.Disk) hub.old.file hub.new.file }
    ensures cause { result ≡ Err HubFault.Source → (before : HubState) → Shows D.Disk hub.old before
        → AreNumbered before → IfFile (Fails D.Disk) hub.old.file hub.new.file }
    ensures full { (before : HubState) → Shows D.Disk hub.old before → is_full before ≡ true
        → (result ≡ Err HubFault.SessionsFull) × Shows D.Disk hub.new before × (reader.new ≡ reader.old) × (writer.new ≡ writer.old) }
{
    // For the proof alone.
    calls_move_their_session();
    other_sessions_stay();
    sessions_are_numbered();
    match hub.connect() {
        Ok(id) => {
            let mut tries = Tries::new();
            let served = exchange(hub, id, reader, writer, &mut tries);
            // After `Source` the session has ended already.
            let _ = hub.close(id);
            served
        }
        Err(fault) => Err(fault),
    }
}

/// Reads a session's request and writes its response.
fn exchange<D: Disk + Drop, R: Read, W: Write>(
    hub: &mut Hub<D>,
    id: u64,
    reader: &mut R,
    writer: &mut W,
    tries: &mut Tries,
) -> Result<Served, HubFault>
    ensures served { (before : HubState) → Shows D.Disk hub.old before → phase_of before id ≡ Some (Reading [])
        → (after : HubState) × Shows D.Disk hub.new after × OnlyServes id before after
        × Gets (R.remaining reader.old) (R.remaining reader.new) (W.contents writer.old) (W.contents writer.new) before.has_file before.committed result }
    ensures tried { (before : HubState) → Shows D.Disk hub.old before → phase_of before id ≡ Some (Reading [])
        → tries.old ≡ false → HasTriedAll tries.new before.committed result }
    ensures disk { IfFile (Reads D.Disk) hub.old.file hub.new.file }
    ensures cause { result ≡ Err HubFault.Source → (before : HubState) → Shows D.Disk hub.old before
        → phase_of before id ≡ Some (Reading []) → IfFile (Fails D.Disk) hub.old.file hub.new.file }
{
    match read_head(hub, id, reader, tries) {
        Ok(None) => {}
        Ok(Some(served)) => return Ok(served),
        Err(fault) => return Err(fault),
    }
    for _ in 0..MOST_PIECES {
        match send_piece(hub, id, writer, tries) {
            Ok(None) => {}
            Ok(Some(served)) => return Ok(served),
            Err(fault) => return Err(fault),
        }
    }
    Ok(Served::Cut)
}
