//! The end of a file's committed bytes, found by one sync and one pass over its pages.
ghost use Rattle.std.specs.Prelude.{◌≡◌, ◌≢◌, ◌↔◌, ◌⊎◌, ◌+◌, ◌-◌, ◌^◌, ◌<◌, ◌≤◌, ℕ, length, take, drop, slice_index, OnOk, IfOk, IfErr, IsTrue, List, Err, IsErr};
ghost use Rattle.std.specs.List.{AllByRecursion};
ghost use Rattle.disk_model.specs.Image.{IsImage, IsSettled};
ghost use Rattle.disk_model.specs.Leaving.{LeavesOnly};
ghost use Rattle.disk_model.specs.Fault.{HasCause, Rises};
ghost use Rattle.disk_model.specs.Frame.{Frame};
ghost use Rattle.ogg_page.specs.declared.fault.PageFault.{PageFault as PageFaultOf};
ghost use Rattle.ogg_page.specs.Page.{Page as PageValue, IsPage, bytes_of_pages};
ghost use Rattle.ogg_page.specs.declared.fault.WindowFault.TheVariants.{Source as SourceVariant};
ghost use Rattle.gate_file.specs.Reading.{OnlyReads};
ghost use Rattle.gate_file.specs.Visiting.{AreShown, EndsAfter, all_of};
ghost use Rattle.gate_file.specs.Found.{HasEnd, HasSeen, IsDamagedAt, found_bytes};
ghost use Rattle.gate_file.specs.Opening.{Opens, GivesBack};

use crate::source::DiskSource;
use crate::steps::{CAPTURE, settle};
use crate::visiting::{Nobody, pass_all};
use crate::{FindFault, Found, GateFile, Memory, OpenFault, PageVisitor};
use disk_model::{Disk, DiskFault};
use ogg_page::{PageBuffer, Window, WindowFault};
use std::alloc::Global;

impl<D: Disk> GateFile<D> {
    /// Syncs, and finds the end of the committed bytes. It writes nothing. It reads the file once, and takes memory
    /// for one page. The faults are `Disk`, `Page` and `Memory`; after `Memory` no call of the disk was made.
    pub fn find(alloc: Global, disk: D) -> Result<Found<D>, (OpenFault, D)>
        ensures same { IfOk result (λ found. D.is_honest disk
            → (D.state found.disk).contents ≡ (D.state disk).contents) }
        ensures memory { IfErr result (λ e. e.0 ≡ OpenFault.Memory → e.1 ≡ disk) }
        ensures faults { IfErr result (λ e. (e.0 ≡ OpenFault.Disk) ⊎ ((e.0 ≡ OpenFault.Memory)
            ⊎ ((offset : ℕ) × (fault : PageFaultOf) × (e.0 ≡ OpenFault.Page offset fault)))) }

        // Every image since the call began is one of those at its start.
        ensures opens { IfOk result (λ found. Opens D.Disk (IsImage (D.state disk)) disk found.disk) }
        ensures gives_back { IfErr result (λ e. GivesBack D.Disk (IsImage (D.state disk)) OpenFault.Disk OpenFault.Page
            disk e.0 e.1) }
    {
        let buffer = match PageBuffer::new(alloc) {
            Ok(buffer) => buffer,
            Err(Memory) => return Err((OpenFault::Memory, disk)),
        };
        match GateFile::find_with(disk, buffer, &mut Nobody) {
            Ok((found, _)) => Ok(found),
            Err((fault, disk)) => Err((OpenFault::from(fault), disk)),
        }
    }

    /// Finds the end of the committed bytes, as `find` does, and shows each page to the visitor as it passes, in the
    /// same pass, up to the page at which the visitor ends. The buffer is given back. Before it returns the fault
    /// `Page` every page has passed.
    pub fn find_with<V: PageVisitor>(
        disk: D,
        buffer: PageBuffer,
        visitor: &mut V,
    ) -> Result<(Found<D>, PageBuffer), (FindFault, D)>
        ensures same { IfOk result (λ found. D.is_honest disk
            → (D.state found.0.disk).contents ≡ (D.state disk).contents) }
        ensures seen { IfOk result (λ found. D.is_honest disk
            → HasSeen V.sees visitor.old visitor.new (found_bytes D.state found.0)) }
        // Of a disk that isn't honest it was shown pages too.
        ensures shown { OnOk result ((pages : List PageValue) × AllByRecursion IsPage pages
            × AreShown V.sees visitor.old 0 pages visitor.new) }
        ensures faults { IfErr result (λ e. (e.0 ≡ FindFault.Disk)
            ⊎ ((offset : ℕ) × (fault : PageFaultOf) × (e.0 ≡ FindFault.Page offset fault))) }
        ensures opens { IfOk result (λ found. Opens D.Disk (IsImage (D.state disk)) disk found.0.disk) }
        ensures gives_back { IfErr result (λ e. GivesBack D.Disk (IsImage (D.state disk)) FindFault.Disk FindFault.Page
            disk e.0 e.1) }
    {
        let mut disk = disk;
        let size = match measure(&mut disk) {
            Ok(size) => size,
            Err(DiskFault) => return Err((FindFault::Disk, disk)),
        };
        let mut window = Window::new(DiskSource::of(disk, size), buffer, 0, size);
        let walked = pass_all(&mut window, visitor);
        let (source, buffer) = window.into_parts();
        let mut disk = source.into_disk();
        match end_of(&mut disk, size, walked) {
            Ok((end, closed)) => Ok((Found::at(disk, end, size - end, closed), buffer)),
            Err(fault) => Err((fault, disk)),
        }
    }
}

/// Syncs, and asks how long the disk is.
fn measure<D: Disk>(disk: &mut D) -> Result<u64, DiskFault>
    ensures ok { IfOk result (λ size. D.is_honest disk.old → IsSettled (D.state disk.new)
        × ((D.state disk.new).contents ≡ (D.state disk.old).contents)
        × (length (D.state disk.old).contents ≡ size)) }
    ensures short { IfOk result (λ size. size < 2 ^ 63) }
    ensures any_moment { D.is_honest disk.old → LeavesOnly D.Disk disk.old disk.new
        (IsImage (D.state disk.old)) }
    ensures frame { Frame D.Disk disk.old disk.new (IsErr result) }
{
    settle(disk)?;
    disk.len()
}

/// The end of the committed bytes, and whether a closed byte follows them, by how the walk over their pages ended.
fn end_of<D: Disk>(
    disk: &mut D,
    size: u64,
    walked: Result<(), WindowFault>,
) -> Result<(u64, bool), FindFault>
    requires size { D.is_honest disk.old → length (D.state disk.old).contents ≡ size }
    requires settled { D.is_honest disk.old → IsSettled (D.state disk.old) }
    requires passed { D.is_honest disk.old → (pages : List PageValue) × EndsAfter pages (all_of (D.state disk.old).contents) walked }
    ensures ends { IfOk result (λ (end, closed). D.is_honest disk.old → HasEnd end (size - end) closed (D.state disk.new)) }
    ensures pages { IfOk result (λ (end, closed). D.is_honest disk.old → (pages : List PageValue)
        → EndsAfter pages (all_of (D.state disk.old).contents) walked
        → take end (D.state disk.new).contents ≡ bytes_of_pages pages) }
    ensures inside { IfOk result (λ (end, closed). end ≤ size) }
    ensures damaged { IfErr result (λ e. (offset : ℕ) (fault : PageFaultOf) → e ≡ FindFault.Page offset fault
        → D.is_honest disk.old → IsDamagedAt (D.state disk.old).contents offset fault) }
    ensures faults { IfErr result (λ e. (e ≡ FindFault.Disk)
        ⊎ ((offset : ℕ) × (fault : PageFaultOf) × (e ≡ FindFault.Page offset fault))) }
    ensures reads { OnlyReads D.Disk disk.old disk.new }
    ensures later { D.failures disk.old ≤ D.failures disk.new }
    ensures cause { IfErr result (λ e. e ≡ FindFault.Disk → (walked ≡ Err SourceVariant)
        ⊎ (Rises (D.failures disk.old) (D.failures disk.new))) }
{
    match walked {
        Ok(()) => Ok((size, false)),
        Err(wrong) => match wrong {
            WindowFault::Source => Err(FindFault::Disk),
            WindowFault::Page(place, fault) => {
                // Of a disk that isn't honest nothing is known, so its place may lie anywhere.
                let at = place.min(size);
                match begins_page(disk, at) {
                    Ok(false) => Ok((at, true)),
                    Ok(true) => {
                        // A stop may leave exactly one byte after the committed ones, whatever it is.
                        if size - at > 1 {
                            Err(FindFault::Page(at, fault))
                        } else {
                            Ok((at, false))
                        }
                    }
                    Err(DiskFault) => Err(FindFault::Disk),
                }
            }
        },
    }
}

/// Whether the byte at this place is the one that a page begins with.
fn begins_page<D: Disk>(disk: &mut D, at: u64) -> Result<bool, DiskFault>
    requires { D.is_honest disk.old → at < length (D.state disk.old).contents }
    ensures capture { IfOk result (λ is. D.is_honest disk.old
        → IsTrue is ↔ (slice_index (D.state disk.old).contents at ≡ 0x4F)) }
    ensures reads { OnlyReads D.Disk disk.old disk.new }
    ensures cause { HasCause (D.failures disk.old) (D.failures disk.new) result }
{
    let mut byte = [0];
    disk.read_at(at, &mut byte)?;
    Ok(byte[0] == CAPTURE)
}
