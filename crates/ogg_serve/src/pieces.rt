//! The pieces in which a request is read and a response is written.
ghost use Rattle.std.specs.Prelude.{◌≡◌, ℕ, List, [], Some, Err, false};
ghost use Rattle.serve_machine.specs.Hub.{HubState, Reading, Sending, phase_of};
ghost use Rattle.serve_hub.specs.Images.{IfFile, Fails, Reads};
ghost use Rattle.serve_hub.specs.Showing.{Shows};
ghost use Rattle.ogg_serve.specs.Pieces.{HasRead, HasSent, HasTried};
ghost use Rattle.ogg_serve.specs.Keeping.{OnlyServes};

use crate::trying::Tries;
use disk_model::Disk;
use serve_hub::{Hub, HubFault};
use serve_machine::{
    Progress, calls_move_their_session, other_sessions_stay, sessions_are_numbered,
};
use std::io::{Read, Write};

/// The greatest number of bytes that are read or written at once.
pub const PIECE: usize = 4096;

/// A head is complete, or is none, within this many bytes.
const MOST_HEAD: usize = 8192;

/// How a connection has ended.
#[derive(Clone, Copy, Debug, PartialEq, Eq)]
pub enum Served {
    /// The whole response was written.
    Whole,
    /// The reader came to its end before the request's head did. Nothing was written.
    NoHead,
    /// The reader or the writer failed. What was written is a front of the response, or nothing.
    Cut,
}

/// Reads the head of a session's request. If it returns `None`, the head is complete; else the connection has ended
/// so.
pub fn read_head<D: Disk + Drop, R: Read>(
    hub: &mut Hub<D>,
    id: u64,
    reader: &mut R,
    tries: &mut Tries,
) -> Result<Option<Served>, HubFault>
    ensures read { (before : HubState) → Shows D.Disk hub.old before → phase_of before id ≡ Some (Reading [])
        → (after : HubState) × Shows D.Disk hub.new after × OnlyServes id before after
        × HasRead (R.remaining reader.old) (R.remaining reader.new) id before.committed after result }
    ensures tried { (before : HubState) → Shows D.Disk hub.old before → phase_of before id ≡ Some (Reading [])
        → tries.old ≡ false → HasTried tries.new result }

    // The file is only read, and a fault has a cause.
    ensures disk { IfFile (Reads D.Disk) hub.old.file hub.new.file }
    ensures cause { result ≡ Err HubFault.Source → (before : HubState) → Shows D.Disk hub.old before
        → phase_of before id ≡ Some (Reading []) → IfFile (Fails D.Disk) hub.old.file hub.new.file }
    ensures lost { hub.new.lost ≡ hub.old.lost }
{
    // For the proof alone.
    calls_move_their_session();
    other_sessions_stay();
    sessions_are_numbered();
    let mut piece = [0; PIECE];
    // Each turn but the last adds a byte to the head.
    for _ in 0..MOST_HEAD {
        match tries.read(reader, &mut piece) {
            Some(0) => return Ok(Some(Served::NoHead)),
            Some(count) => match hub.receive(id, &piece[..count]) {
                Ok(Progress::More) => {}
                Ok(Progress::Ready) => return Ok(None),
                Err(fault) => return Err(fault),
            },
            None => return Ok(Some(Served::Cut)),
        }
    }
    Ok(Some(Served::Cut))
}

/// Writes the next piece of a session's response. If the connection has ended then, it returns how.
pub fn send_piece<D: Disk + Drop, W: Write>(
    hub: &mut Hub<D>,
    id: u64,
    writer: &mut W,
    tries: &mut Tries,
) -> Result<Option<Served>, HubFault>
    ensures sent { (before : HubState) (rest : List ℕ) → Shows D.Disk hub.old before → phase_of before id ≡ Some (Sending rest)
        → (after : HubState) × Shows D.Disk hub.new after × OnlyServes id before after
        × HasSent (W.contents writer.old) (W.contents writer.new) id rest after result }
    ensures tried { tries.old ≡ false → HasTried tries.new result }

    // The file is only read, and a fault has a cause.
    ensures disk { IfFile (Reads D.Disk) hub.old.file hub.new.file }
    ensures cause { result ≡ Err HubFault.Source → (before : HubState) → Shows D.Disk hub.old before
        → IfFile (Fails D.Disk) hub.old.file hub.new.file }
    ensures lost { hub.new.lost ≡ hub.old.lost }
{
    // For the proof alone.
    calls_move_their_session();
    other_sessions_stay();
    sessions_are_numbered();
    let mut piece = [0; PIECE];
    match hub.pull(id, &mut piece) {
        Ok(pulled) => match tries.write(writer, &piece[..pulled.count]) {
            Ok(()) if pulled.done => Ok(Some(Served::Whole)),
            Ok(()) => Ok(None),
            Err(_) => Ok(Some(Served::Cut)),
        },
        Err(fault) => Err(fault),
    }
}
