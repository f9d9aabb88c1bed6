//! The file of a station, which is heard while it is recorded.
ghost use Rattle.std.specs.Prelude.{◌≡◌, ◌⊎◌, IfOk, Err};
ghost use Rattle.gate_file.specs.declared.fault.OpenFault.{OpenFault as OpenFaultOf};
ghost use Rattle.record_actions.specs.Foreign.{IsForeign, front_of};
ghost use Rattle.record_actions.specs.Tail.{IsKeptAside};

use disk_model::{Disk, FileDisk};
use disk_tail::TailDisk;
use fault_lines::Fault;
use file_recorder::Recorder;
use ogg_serve::Hub;
use record_actions::{
    Aside, Asides, LockedFile, Missing, Opening, TailFiles, lock_file, open_recorder,
};
use std::alloc::Global;

/// A file whose last bytes are read from memory: they are what listeners hear.
pub type HeardDisk = TailDisk<FileDisk>;

/// How many bytes of the file are kept in memory for listeners at most, and half of it at least: a listener joins where
/// some 64 KiB are committed after it.
const HEARD: usize = 262_144;

/// A hub over a file that is recorded into while it is heard, with room for this many sessions. The file is made if there
/// is none, and locked for as long as it is open. The station commits what waits.
///
/// Its faults are those of `lock_file` and of `open_recorder`, and `Memory`.
pub fn hear_file(rt: &HostRuntime, file: &str, most: usize) -> Result<Hub<HeardDisk>, Fault>
    ensures room { IfOk result (λ hub. hub.room ≡ most) }
{
    let recorder = open_heard(rt, file)?;
    hub_for(rt.alloc(), recorder, most)
}

/// Opens a file to record into it while it is heard, and locks it for as long as it is open. Nothing waits in it. What
/// follows its pages is kept beside it first, unless a stop may have left that.
fn open_heard(rt: &HostRuntime, file: &str) -> Result<Recorder<HeardDisk>, Fault>
    ensures { IfOk result (λ recorder. recorder.held ≡ 0) }
{
    let locked = lock_file(rt, file, Missing::Made)?;
    match heard_on(rt.alloc(), locked, &mut TailFiles::of(rt, file)) {
        Ok((recorder, _)) => Ok(recorder),
        Err(fault) => Err(fault),
    }
}

/// A recorder on a file whose last bytes are heard, and what keeps the tail that the file had, unless a stop may have
/// left that. Nothing waits in it.
///
/// Its faults are `Memory`, and those of `open_recorder`.
fn heard_on<D: Disk + Drop, A: Asides>(
    alloc: Global,
    file: LockedFile<D>,
    asides: &mut A,
) -> Result<(Recorder<TailDisk<D>>, Option<Aside<A::Copy>>), Fault>
    ensures held { IfOk result (λ (recorder, aside). recorder.held ≡ 0) }
    ensures foreign { D.is_honest file → IsForeign (front_of (D.state file).contents)
        → (result ≡ Err Fault.Foreign) ⊎ (result ≡ Err (Fault.Open OpenFaultOf.Disk)) ⊎ (result ≡ Err Fault.Memory) }
    ensures only { D.is_honest file → result ≡ Err Fault.Foreign → IsForeign (front_of (D.state file).contents) }
    ensures kept { IfOk result (λ (recorder, aside). D.is_honest file
        → IsKeptAside A.Copy.Disk (D.state file).contents aside) }
{
    open_recorder(alloc, file.heard(alloc, HEARD)?, Opening::Kept, asides)
}

/// A hub over the file of this recorder, in which nothing waits, with room for this many sessions.
fn hub_for<D: Disk + Drop>(
    alloc: Global,
    recorder: Recorder<D>,
    most: usize,
) -> Result<Hub<D>, Fault>
    requires { recorder.held ≡ 0 }
    ensures room { IfOk result (λ hub. hub.room ≡ most) }
{
    match Hub::with_room(alloc, recorder, most) {
        Ok(mut hub) => {
            hub.group(1024);
            look_through(&mut hub);
            Ok(hub)
        }
        Err(_) => Err(Fault::Memory),
    }
}

/// Has the hub find where all links lie, as for a listing, so that the first request needn't wait for that.
fn look_through<D: Disk + Drop>(hub: &mut Hub<D>)
    ensures room { hub.new.room ≡ hub.old.room }
{
    if let Ok(id) = hub.connect() {
        let _ = hub.receive(id, b"HEAD / HTTP/1.0\r\n\r\n");
        let _ = hub.close(id);
    }
}
