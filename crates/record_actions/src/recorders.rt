//! Recorders on files: they are opened, and sealed.
ghost use Rattle.std.specs.Prelude.{◌≡◌, ◌≢◌, ◌↔◌, ◌⊎◌, ◌<◌, IfOk, IfErr, IsTrue, OnErr, Ok, Err, None, Some, true, false, codes, drop};
ghost use Rattle.disk_model.specs.Fault.{HasCause};
ghost use Rattle.disk_model.specs.Image.{IsImage, IsSettled};
ghost use Rattle.disk_model.specs.Leaving.{LeavesOnly};
ghost use Rattle.file_recorder.specs.Recorder.{committed};
ghost use Rattle.gate_file.specs.declared.fault.OpenFault.{OpenFault as OpenFaultOf};
ghost use Rattle.record_actions.specs.Foreign.{IsForeign, front_of};
ghost use Rattle.record_actions.specs.Opening.{MayMeet};
ghost use Rattle.record_actions.specs.Tail.{IsKeptAside};

use crate::asides::{Aside, Asides, keep_tail};
use crate::locking::LockedFile;
use disk_model::{Disk, DiskFault, FileDisk};
use fault_lines::Fault;
use file_recorder::Recorder;
use gate_file::OpenFault;
use std::alloc::Global;

/// How many of a file's first bytes are looked at.
const FRONT: usize = 8;

/// How a file is opened to be recorded into.
#[derive(Clone, Copy, Debug, PartialEq, Eq)]
pub enum Opening {
    /// Whatever it holds, as the specification has it of `record`, `serve` and `live`.
    AsItIs,
    /// It holds a recording, or nothing yet.
    Own,
    /// The same, and no byte is written over after the pages that no stop has left there: they are kept aside first.
    Kept,
}

/// A recorder on a file that was locked, and what keeps its tail, if the opening asks for that and no stop has left the
/// tail. Nothing waits in the recorder. Whoever opens a file by its name to record into it calls this.
///
/// Unless it is opened as it is, it is `Foreign` first if it holds anything else than a recording, as far as its first
/// bytes show that. Then its faults are those of `keep_tail`, if that is asked for. Nothing is written before these,
/// nor after them. At last it is `Open`, with what `Recorder::open` has met. The file is let go after a fault.
pub fn open_recorder<D: Disk + Drop, A: Asides>(
    alloc: Global,
    file: LockedFile<D>,
    opening: Opening,
    asides: &mut A,
) -> Result<(Recorder<D>, Option<Aside<A::Copy>>), Fault>
    ensures held { IfOk result (λ (recorder, aside). recorder.held ≡ 0) }
    ensures foreign { opening ≢ Opening.AsItIs → D.is_honest file → IsForeign (front_of (D.state file).contents)
        → (result ≡ Err Fault.Foreign) ⊎ (result ≡ Err (Fault.Open OpenFaultOf.Disk)) }
    ensures only { D.is_honest file → result ≡ Err Fault.Foreign → IsForeign (front_of (D.state file).contents) }
    // The copy holds what followed the pages before anything was written.
    ensures kept { opening ≡ Opening.Kept → IfOk result (λ (recorder, aside). D.is_honest file
        → IsKeptAside A.Copy.Disk (D.state file).contents aside) }
    ensures none { opening ≢ Opening.Kept → IfOk result (λ (recorder, aside). aside ≡ None) }
    ensures why { IfErr result (λ fault. MayMeet opening fault) }
{
    match looked_at(alloc, file.disk, opening, asides) {
        Ok((disk, aside)) => match recorder_on(alloc, disk) {
            Ok(recorder) => Ok((recorder, aside)),
            Err(fault) => Err(fault),
        },
        Err((fault, _)) => Err(fault),
    }
}

/// The same disk, which may be recorded on by this opening, and what keeps its tail. Nothing is written to the disk.
///
/// Its faults are those of `own` and then of `keep_tail`, as far as they are asked for. The disk is given back.
fn looked_at<D: Disk + Drop, A: Asides>(
    alloc: Global,
    disk: D,
    opening: Opening,
    asides: &mut A,
) -> Result<(D, Option<Aside<A::Copy>>), (Fault, D)>
    ensures same { IfOk result (λ (same, aside). D.is_honest disk → D.is_honest same
        × ((D.state same).contents ≡ (D.state disk).contents)) }
    ensures left { IfErr result (λ (fault, back). fault ≢ Fault.Open OpenFaultOf.Disk → D.is_honest disk
        → (D.state back).contents ≡ (D.state disk).contents) }
    ensures own { opening ≢ Opening.AsItIs → IfOk result (λ (same, aside). D.is_honest disk
        → IsForeign (front_of (D.state disk).contents) → ⊥) }
    ensures foreign { opening ≢ Opening.AsItIs → D.is_honest disk → IsForeign (front_of (D.state disk).contents)
        → IfErr result (λ (fault, back). (fault ≡ Fault.Foreign) ⊎ (fault ≡ Fault.Open OpenFaultOf.Disk)) }
    ensures only { IfErr result (λ (fault, back). D.is_honest disk → fault ≡ Fault.Foreign
        → IsForeign (front_of (D.state disk).contents)) }
    ensures kept { opening ≡ Opening.Kept → IfOk result (λ (same, aside). D.is_honest disk
        → IsKeptAside A.Copy.Disk (D.state disk).contents aside) }
    ensures none { opening ≢ Opening.Kept → IfOk result (λ (same, aside). aside ≡ None) }
    ensures why { IfErr result (λ (fault, back). MayMeet opening fault) }
{
    match opening {
        Opening::AsItIs => Ok((disk, None)),
        Opening::Own => match own(disk) {
            Ok(disk) => Ok((disk, None)),
            Err(left) => Err(left),
        },
        Opening::Kept => match own(disk) {
            Ok(disk) => keep_tail(alloc, disk, asides),
            Err(left) => Err(left),
        },
    }
}

/// A recorder on a disk. Nothing waits in it.
///
/// It is `Open`, with what `Recorder::open` has met, if what the disk has can't be recorded on; the disk is let go.
fn recorder_on<D: Disk + Drop>(alloc: Global, disk: D) -> Result<Recorder<D>, Fault>
    ensures held { IfOk result (λ recorder. recorder.held ≡ 0) }
    ensures open { IfErr result (λ fault. (opening : OpenFaultOf) × (fault ≡ Fault.Open opening)) }
{
    match Recorder::open(alloc, disk) {
        Ok(recorder) => Ok(recorder),
        Err((fault, _)) => Err(Fault::Open(fault)),
    }
}

/// The same disk, unless it begins with bytes that no recording begins with. Nothing is written to it.
fn own<D: Disk + Drop>(mut disk: D) -> Result<D, (Fault, D)>
    ensures same { IfOk result (λ same. D.is_honest disk → D.is_honest same × (D.state same ≡ D.state disk)) }
    ensures own { IfOk result (λ same. D.is_honest disk → IsForeign (front_of (D.state disk).contents) → ⊥) }
    ensures why { IfErr result (λ (fault, back). (fault ≡ Fault.Foreign) ⊎ (fault ≡ Fault.Open OpenFaultOf.Disk)) }
    ensures left { IfErr result (λ (fault, back). D.is_honest disk → D.state back ≡ D.state disk) }
    ensures only { IfErr result (λ (fault, back). D.is_honest disk → fault ≡ Fault.Foreign
        → IsForeign (front_of (D.state disk).contents)) }
{
    match is_foreign(&mut disk) {
        Ok(false) => Ok(disk),
        Ok(true) => Err((Fault::Foreign, disk)),
        Err(DiskFault) => Err((Fault::Open(OpenFault::Disk), disk)),
    }
}

/// Whether a disk begins with bytes that no recording begins with.
pub fn is_foreign<D: Disk>(disk: &mut D) -> Result<bool, DiskFault>
    ensures told { IfOk result (λ found. D.is_honest disk.old → IsTrue found ↔ IsForeign (front_of (D.state disk.old).contents)) }
    ensures same { D.is_honest disk.old → D.state disk.new ≡ D.state disk.old }
    // Every image since the call began is one of those at its start.
    ensures any_moment { D.is_honest disk.old → LeavesOnly D.Disk disk.old disk.new (IsImage (D.state disk.old)) }
    ensures honest { D.is_honest disk.old ↔ D.is_honest disk.new }
    ensures cause { HasCause (D.failures disk.old) (D.failures disk.new) result }
{
    let length = disk.len()?;
    let mut front = [0; FRONT];
    let front = &mut front[..length.min(FRONT as u64) as usize];
    disk.read_at(0, front)?;
    Ok(begins_foreign(front))
}

/// Whether no recording begins with these bytes, which are all of a file or its first eight.
fn begins_foreign(front: &[u8]) -> bool
    ensures { IsTrue result ↔ IsForeign front.now }
{
    front.len() >= 2 && front[0] != b'O' && (front[0] != 0 || is_box(front))
}

/// Whether the name of a first box follows the first four bytes (ISO/IEC 14496-12, section 4.3).
fn is_box(front: &[u8]) -> bool
    ensures { IsTrue result ↔ drop 4 front.now ≡ codes "ftyp" }
{
    front.len() >= 4 && front[4..] == b"ftyp"[..]
}

/// Opens the file of a recorder again, whose disk has failed. Nothing waits in it.
pub fn reopen(rt: &HostRuntime, recorder: Recorder<FileDisk>) -> Result<Recorder<FileDisk>, Fault>
    ensures { IfOk result (λ recorder. recorder.held ≡ 0) }
{
    recorder_on(rt.alloc(), recorder.give_back())
}

/// Seals the file: the disk that is returned holds its committed bytes, and nothing else.
///
/// It is `Failed` if the recorder has failed, and `Seal` if a command waits, or the file isn't cut to its committed bytes,
/// which stay. The disk is let go then.
pub fn seal_file<D: Disk + Drop>(recorder: Recorder<D>) -> Result<D, Fault>
    ensures sealed { IfOk result (λ disk. D.is_honest recorder.file.disk
        → IsSettled (D.state disk) × ((D.state disk).contents ≡ committed D.state recorder)) }
    ensures failed { recorder.file.failed ≡ true → result ≡ Err Fault.Failed }
    ensures waits { recorder.file.failed ≡ false → 0 < recorder.held → result ≡ Err Fault.Seal }
    ensures only { recorder.file.failed ≡ false → OnErr result (result ≡ Err Fault.Seal) }
{
    if recorder.is_failed() {
        return Err(Fault::Failed);
    }
    if recorder.held() > 0 {
        return Err(Fault::Seal);
    }
    match recorder.seal() {
        Ok(disk) => Ok(disk),
        Err(_) => Err(Fault::Seal),
    }
}

/// Seals the file, if that is asked for. Otherwise its disk is returned as it stands.
pub fn seal_if<D: Disk + Drop>(recorder: Recorder<D>, seal: bool) -> Result<D, Fault>
    ensures asked { seal ≡ true → IfOk result (λ disk. D.is_honest recorder.file.disk
        → IsSettled (D.state disk) × ((D.state disk).contents ≡ committed D.state recorder)) }
    ensures failed { seal ≡ true → recorder.file.failed ≡ true → result ≡ Err Fault.Failed }
    ensures unasked { seal ≡ false → result ≡ Ok recorder.file.disk }
    ensures waits { seal ≡ true → recorder.file.failed ≡ false → 0 < recorder.held → result ≡ Err Fault.Seal }
    ensures only { recorder.file.failed ≡ false → OnErr result (result ≡ Err Fault.Seal) }
{
    if seal {
        seal_file(recorder)
    } else {
        Ok(recorder.give_back())
    }
}

/// What a run has come to, and the disk that was recorded into. If no fault was met, the file is sealed, if that is asked
/// for; the disk is let go if that fails. After a fault that was met the disk is returned as it stands.
pub fn seal_after<D: Disk + Drop>(
    recorder: Recorder<D>,
    met: Result<(), Fault>,
    seal: bool,
) -> (Result<(), Fault>, Option<D>)
    ensures left { IfErr met (λ fault. result ≡ (Err fault, Some recorder.file.disk)) }
    ensures unasked { seal ≡ false → result ≡ (met, Some recorder.file.disk) }
    ensures waits { met ≡ Ok tt → seal ≡ true → recorder.file.failed ≡ false → 0 < recorder.held
        → result ≡ (Err Fault.Seal, None) }
    ensures only { met ≡ Ok tt → recorder.file.failed ≡ false → OnErr result.0 (result ≡ (Err Fault.Seal, None)) }
    ensures failed { met ≡ Ok tt → seal ≡ true → recorder.file.failed ≡ true → result ≡ (Err Fault.Failed, None) }
    ensures asked { met ≡ Ok tt → seal ≡ true → result.0 ≡ Ok tt → (disk : D) × (result.1 ≡ Some disk)
        × (D.is_honest recorder.file.disk
        → IsSettled (D.state disk) × ((D.state disk).contents ≡ committed D.state recorder)) }
{
    if met.is_err() {
        return (met, Some(recorder.give_back()));
    }
    match seal_if(recorder, seal) {
        Ok(disk) => (Ok(()), Some(disk)),
        Err(fault) => (Err(fault), None),
    }
}
