//! Hubs over files that are served: they are opened, and closed.
ghost use Rattle.std.specs.Prelude.{◌≡◌, ◌↔◌, ◌≤◌, IfErr, IfOk, IfSome, IsSome, Some, None, Ok, Err, true, false};
ghost use Rattle.disk_model.specs.Image.{IsSettled};
ghost use Rattle.file_recorder.specs.Recorder.{committed};

use disk_model::{Disk, FileDisk};
use fault_lines::Fault;
use file_recorder::Recorder;
use ogg_serve::Hub;
use record_actions::{Missing, Opening, TailFiles, lock_file, open_recorder, seal_after};
use std::alloc::Global;

/// A hub over a file, and whether the file had no tail when it was opened.
#[derive(Drop)]
pub struct Opened<D: Disk> {
    pub hub: Hub<D>,
    pub sealed: bool,
}

/// Opens a file to be served, which is there already. Nothing waits in it.
///
/// Its faults are those of `lock_file` and of `open_recorder`, and `Memory`.
pub fn open_hub(rt: &HostRuntime, file: &str) -> Result<Opened<FileDisk>, Fault>
    ensures file { IfOk result (λ opened. IsSome opened.hub.file) }
    ensures none { IfOk result (λ opened. IfSome opened.hub.file (λ recorder. recorder.held ≡ 0)) }
    ensures sealed { IfOk result (λ opened. IfSome opened.hub.file
        (λ recorder. (opened.sealed ≡ true) ↔ (recorder.tail ≡ 0))) }
{
    let locked = lock_file(rt, file, Missing::Refused)?;
    let asides = &mut TailFiles::of(rt, file);
    let (recorder, _) = open_recorder(rt.alloc(), locked, Opening::AsItIs, asides)?;
    hub_over(rt.alloc(), recorder)
}

/// Opens a file to be served while `most` commands share a commit.
///
/// Its faults are those of `open_hub`.
pub fn open_grouped(rt: &HostRuntime, file: &str, most: u32) -> Result<Opened<FileDisk>, Fault> {
    let mut opened = open_hub(rt, file)?;
    // `clap` has checked that `most` lies in this range, and nothing waits yet.
    opened.hub.group(most.clamp(1, 1024));
    Ok(opened)
}

/// A hub over the file of this recorder.
fn hub_over<D: Disk + Drop>(alloc: Global, recorder: Recorder<D>) -> Result<Opened<D>, Fault>
    ensures file { IfOk result (λ opened. opened.hub.file ≡ Some recorder) }
    ensures sealed { IfOk result (λ opened. (opened.sealed ≡ true) ↔ (recorder.tail ≡ 0)) }
{
    let sealed = recorder.tail() == 0;
    match Hub::new(alloc, recorder) {
        Ok(hub) => Ok(Opened { hub, sealed }),
        Err(_) => Err(Fault::Memory),
    }
}

/// What the serving has come to, and the disk of the file, unless that was lost: sealed, if no fault was met and the
/// file was sealed at first, and otherwise as it stands. The disk is let go if the sealing fails.
pub fn close<D: Disk + Drop>(
    opened: Opened<D>,
    served: Result<(), Fault>,
) -> (Result<(), Fault>, Option<D>)
    ensures met { IfErr served (λ fault. result.0 ≡ Err fault) }
    ensures left { opened.sealed ≡ false → result.0 ≡ served }
    ensures stands { IfErr served (λ fault. IfSome opened.hub.file (λ recorder. result.1 ≡ Some recorder.file.disk)) }
    ensures unasked { opened.sealed ≡ false → IfSome opened.hub.file (λ recorder. result.1 ≡ Some recorder.file.disk) }
    ensures failed { served ≡ Ok tt → opened.sealed ≡ true → IfSome opened.hub.file (λ recorder.
        recorder.file.failed ≡ true → result ≡ (Err Fault.Failed, None)) }
    ensures asked { served ≡ Ok tt → opened.sealed ≡ true → result.0 ≡ Ok tt → IfSome opened.hub.file (λ recorder.
        (disk : D) × (result.1 ≡ Some disk) × (D.is_honest recorder.file.disk
        → IsSettled (D.state disk) × ((D.state disk).contents ≡ committed D.state recorder))) }
{
    disk_after(opened.hub, served, opened.sealed)
}

/// What the serving has come to, and the disk of the hub's file, unless that was lost: sealed, if no fault was met, and
/// otherwise as it stands. The disk is let go if the sealing fails.
pub fn close_hub<D: Disk + Drop>(
    hub: Hub<D>,
    served: Result<(), Fault>,
) -> (Result<(), Fault>, Option<D>)
    ensures met { IfErr served (λ fault. result.0 ≡ Err fault) }
    ensures lost { hub.file ≡ None → result ≡ (served, None) }
    ensures stands { IfErr served (λ fault. IfSome hub.file (λ recorder. result.1 ≡ Some recorder.file.disk)) }
    ensures failed { served ≡ Ok tt → IfSome hub.file (λ recorder. recorder.file.failed ≡ true
        → result ≡ (Err Fault.Failed, None)) }
    ensures asked { served ≡ Ok tt → result.0 ≡ Ok tt → IfSome hub.file (λ recorder.
        (disk : D) × (result.1 ≡ Some disk) × (D.is_honest recorder.file.disk
        → IsSettled (D.state disk) × ((D.state disk).contents ≡ committed D.state recorder))) }
{
    disk_after(hub, served, true)
}

/// What the hub has come to, and the disk of its file, unless that was lost: sealed, if no fault was met and that is asked
/// for, and otherwise as it stands.
fn disk_after<D: Disk + Drop>(
    hub: Hub<D>,
    served: Result<(), Fault>,
    seal: bool,
) -> (Result<(), Fault>, Option<D>)
    ensures met { IfErr served (λ fault. result.0 ≡ Err fault) }
    ensures lost { hub.file ≡ None → result ≡ (served, None) }
    ensures left { IfErr served (λ fault. IfSome hub.file (λ recorder. result ≡ (Err fault, Some recorder.file.disk))) }
    ensures unasked { seal ≡ false → result.0 ≡ served × IfSome hub.file (λ recorder. result.1 ≡ Some recorder.file.disk) }
    ensures failed { served ≡ Ok tt → seal ≡ true → IfSome hub.file (λ recorder. recorder.file.failed ≡ true
        → result ≡ (Err Fault.Failed, None)) }
    ensures asked { served ≡ Ok tt → seal ≡ true → result.0 ≡ Ok tt → IfSome hub.file (λ recorder.
        (disk : D) × (result.1 ≡ Some disk) × (D.is_honest recorder.file.disk
        → IsSettled (D.state disk) × ((D.state disk).contents ≡ committed D.state recorder))) }
{
    match hub.into_recorder() {
        Ok(recorder) => seal_after(recorder, served, seal),
        Err(_) => (served, None),
    }
}
