//! Faults of an opening, and the pages that it shows.
ghost use Rattle.std.specs.Prelude.{◌≡◌, ◌+◌, ◌<◌};

use super::tools::{Named, Part, Step, are_made, ends, joined, opened, overlaid};
use crate::fused::{Fuse, fused};
use disk_model::FuseDisk;
use gate_file::{GateFile, OpenFault, PageVisitor};
use ogg_page::{Page, PageBuffer, PageFault, Visit};
use std::alloc::Global;
use std::test::Fail;

/// The pages of a whole file.
const WHOLE: &[Part] = &[
    Part::Page(Named::Begin),
    Part::Page(Named::Put),
    Part::Page(Named::End),
];

/// A sealed file is cut at each byte. A damaged page is named, and nothing is written.
#[test]
fn an_opening_names_the_first_page_that_is_none(rt: HostRuntime) -> Result<(), Fail> {
    let whole = joined(rt.alloc(), WHOLE)?;
    for n in 0..=91u64 {
        let (bytes, _) = whole.split_at_checked(n as usize).ok_or("short")?;
        let want = match n {
            0 | 31 | 64 | 91 => Ok((n, 0)),
            1 | 32 | 65 => Ok((n - 1, 1)),
            2..=30 => Err(OpenFault::Page(0, PageFault::Short)),
            33..=63 => Err(OpenFault::Page(31, PageFault::Short)),
            _ => Err(OpenFault::Page(64, PageFault::Short)),
        };
        assert!(rt; ends(rt.alloc(), bytes)? == want);
    }
    let fault = OpenFault::Page(31, PageFault::Checksum);
    let damaged = overlaid(rt.alloc(), &whole, 59, b"H")?;
    assert!(rt; ends(rt.alloc(), &damaged)? == Err(fault));
    assert!(rt; (fault.code(), fault.name()) == (2, "Page"));
    Ok(())
}

/// An append whose last sync fails, and the fault of an opening of its disk whose first sync fails, and the end that
/// the next opening finds.
fn found_at_last(alloc: Global) -> Result<(OpenFault, u64), Fail> {
    let bytes = joined(alloc, &[Part::Page(Named::Begin), Part::Bytes(&[0])])?;
    let mut file = opened(alloc, fused(alloc, &bytes, Fuse::FailOnce(8))?)?;
    let _ = are_made(alloc, &mut file, &[Step::Append(Named::Put)])?;
    let disk = FuseDisk::fail_once(file.give_back().into_inner(), 1);
    match GateFile::find(alloc, disk) {
        Ok(_) => Err(Fail::from("opened")),
        Err((fault, disk)) => match GateFile::find(alloc, disk) {
            Ok(found) => Ok((fault, found.end())),
            Err(_) => Err(Fail::from("find")),
        },
    }
}

/// A visitor that counts the pages, and adds up their offsets.
#[derive(Drop)]
struct Count {
    pages: u64,
    offsets: u64,
}

impl PageVisitor for Count {
    ghost sees = { λ old lent visit new. Unit {0} };

    fn see(&mut self, offset: u64, page: &Page<'_>) -> Visit {
        if page.serial() == 1 {
            self.pages = self.pages.saturating_add(1);
        }
        self.offsets = self.offsets.saturating_add(offset);
        Visit::GoesOn
    }
}

/// Finds the end of the whole file by three calls of the disk. It returns the end, how many bytes follow, how many
/// pages were shown, and the sum of their offsets.
fn counted(alloc: Global) -> Result<(u64, u64, u64, u64), Fail> {
    let mut count = Count {
        pages: 0,
        offsets: 0,
    };
    let disk = fused(alloc, &joined(alloc, WHOLE)?, Fuse::StopAfter(3))?;
    match GateFile::find_with(disk, PageBuffer::new(alloc)?, &mut count) {
        Ok((found, _)) => Ok((found.end(), found.tail(), count.pages, count.offsets)),
        Err(_) => Err(Fail::from("find")),
    }
}

#[test]
fn the_end_is_found_after_a_fault_and_pages_are_shown(rt: HostRuntime) -> Result<(), Fail> {
    assert!(rt; found_at_last(rt.alloc())? == (OpenFault::Disk, 64));
    assert!(rt; counted(rt.alloc())? == (91, 0, 3, 95));
    Ok(())
}
