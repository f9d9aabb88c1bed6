//! How many calls of the disk an opening makes.
use super::tools::{Named, Part, joined, try_open};
use crate::fused::{Fuse, fused};
use disk_model::MemDisk;
use std::alloc::Global;
use std::test::Fail;

/// A file, how many calls of the disk an opening makes, and what the disk then holds.
const OPENINGS: [(&[Part], u64, &[Part]); 4] = [
    // A sync, the length, one read into the window, and one of the byte after the pages, which is a closed one.
    (
        &[Part::Page(Named::Begin), Part::Bytes(&[0])],
        4,
        &[Part::Page(Named::Begin), Part::Bytes(&[0])],
    ),
    // In an empty file there is nothing to read, and a closed byte is written and synced.
    (&[], 4, &[Part::Bytes(b"\0")]),
    // An open byte is closed, and a closed one stays.
    (&[Part::Bytes(b"O")], 6, &[Part::Bytes(b"\0")]),
    (&[Part::Bytes(b"x")], 4, &[Part::Bytes(b"x")]),
];

/// Opens the file on a disk that stops after this number of calls, and gives the disk back if it is opened.
fn after(alloc: Global, file: &[Part], calls: u64) -> Result<Option<MemDisk>, Fail> {
    let disk = fused(alloc, &joined(alloc, file)?, Fuse::StopAfter(calls))?;
    match try_open(alloc, disk) {
        Some(file) => Ok(Some(file.give_back().into_inner())),
        None => Ok(None),
    }
}

#[test]
fn an_opening_makes_as_many_calls_as_the_rows_say(rt: HostRuntime) -> Result<(), Fail> {
    for &(file, calls, contents) in &OPENINGS {
        let contents = joined(rt.alloc(), contents)?;
        for given in 0..=calls {
            match after(rt.alloc(), file, given)? {
                None => assert!(rt; given < calls),
                Some(disk) => {
                    assert!(rt; given == calls && disk.contents() == contents.as_slice());
                    assert!(rt; disk.is_image(&contents));
                }
            }
        }
    }
    Ok(())
}
