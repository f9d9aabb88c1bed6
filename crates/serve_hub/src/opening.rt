//! A disk is given back and opened again.
ghost use Rattle.std.specs.Prelude.{◌≡◌, ◌≤◌, Ok, Err, None, Some, Option, IsSome, length, IfOk, IfErr};
ghost use Rattle.serve_machine.specs.Hub.{HubState, reopen_step, without_file};
ghost use Rattle.serve_hub.specs.Parts.{lost_file};
ghost use Rattle.serve_hub.specs.Images.{Reopens, disk_in};
ghost use Rattle.serve_hub.specs.Showing.{IsOver, ShowsFile, ShowsLost, ShowsPlace, KeepsSessions};

use disk_model::Disk;
use file_recorder::Recorder;
use gate_file::OpenFault;
use std::alloc::Global;

/// A disk that was given back.
#[derive(Drop)]
pub(crate) struct Lost<D: Disk> {
    pub(crate) disk: D,
    // how many of its first bytes are committed
    pub(crate) end: u64,
}

/// Opens a disk whose first `end` bytes are committed. Then `most` commands share a commit.
pub(crate) fn open_again<D: Disk>(
    alloc: Global,
    disk: D,
    end: u64,
    most: u32,
) -> Result<Recorder<D>, (OpenFault, D)>
    requires some { 1 ≤ most }
    requires few { most ≤ 1024 }
    ensures found { IfOk result (λ recorder. (before : HubState) → IsOver D.Disk disk end before
        → before.most_after_reopening ≡ most → (after : HubState)
        × ShowsFile D.Disk recorder after × reopen_step before (Some after.committed) after × KeepsSessions before after) }
    ensures lost { IfErr result (λ e. (before : HubState) → IsOver D.Disk disk end before
        → ShowsLost D.Disk (lost_file e.1 end) (without_file before)) }
    ensures opened { IfOk result (λ recorder. Reopens D.Disk
        (Ok tt) (Some recorder) disk recorder.file.disk) }
    ensures failed { IfErr result (λ e. Reopens D.Disk (Err e.0) None disk e.1) }
{
    match Recorder::open(alloc, disk) {
        Ok(mut recorder) => {
            recorder.group(most);
            // For the proof alone.
            let _end = recorder.end();
            Ok(recorder)
        }
        Err(fault) => Err(fault),
    }
}

/// The disk of a hub, and how many of its first bytes are committed. What waits is lost.
pub(crate) fn take_disk<D: Disk + Drop>(
    file: &mut Option<Recorder<D>>,
    lost: &mut Option<Lost<D>>,
) -> Lost<D>
    requires { file.old ≡ None → IsSome lost.old }
    ensures file { file.new ≡ None }
    ensures lost { lost.new ≡ None }
    ensures over { (before : HubState) → ShowsPlace D.Disk file.old lost.old before
        → IsOver D.Disk result.disk result.end before }
    ensures disk { disk_in file.old lost.old ≡ Some result.disk }
{
    match file.take() {
        Some(recorder) => {
            *lost = None;
            let end = recorder.end();
            Lost {
                disk: recorder.give_back(),
                end,
            }
        }
        None => lost.take().unwrap(),
    }
}

/// How many bytes are committed.
pub(crate) fn end_in<D: Disk>(file: &Option<Recorder<D>>, lost: &Option<Lost<D>>) -> u64
    ensures { (machine : HubState) → ShowsPlace D.Disk file.now lost.now machine → result ≡ length machine.committed }
{
    match file {
        Some(recorder) => recorder.end(),
        None => match lost {
            Some(lost) => lost.end,
            None => 0,
        },
    }
}
