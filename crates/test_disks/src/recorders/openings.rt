//! Files made by hand, opened.
use super::tools::{ByHand, ROW_1, ROW_2, ROW_3, ends, file_of, joined, try_open};
use crate::fused::{Fuse, fused};
use disk_model::Disk;
use gate_file::OpenFault;
use link_chain::ChainFault;
use ogg_page::PageFault;
use ogg_recorder::Recorder;
use std::alloc::Global;
use std::test::Fail;

/// Pages, and why the last of them isn't taken.
const BROKEN: [(&[ByHand], OpenFault); 12] = [
    (
        &[(1, 0, 0, 0, &[3], b"abc")],
        OpenFault::Chain(0, ChainFault::BosPlace),
    ),
    (
        &[ROW_1, (2, 0, 0, 1, &[1], b"x")],
        OpenFault::Chain(31, ChainFault::NoStream),
    ),
    (
        &[ROW_1, (1, 0, 0, 2, &[1], b"x")],
        OpenFault::Chain(31, ChainFault::Sequence),
    ),
    (
        &[ROW_1, (1, 1, 0, 1, &[1], b"x")],
        OpenFault::Chain(31, ChainFault::Continued),
    ),
    (
        &[ROW_1, ROW_1],
        OpenFault::Chain(31, ChainFault::SerialTwice),
    ),
    (
        &[ROW_1, (2, 2, 0, 0, &[255], &[0; 255])],
        OpenFault::Chain(31, ChainFault::BosShape),
    ),
    (
        &[ROW_1, (1, 4, 0, 1, &[255], &[0; 255])],
        OpenFault::Chain(31, ChainFault::EosUnfinished),
    ),
    (
        &[ROW_1, (1, 0, 0, 1, &[255], &[0; 255])],
        OpenFault::Unfinished(1),
    ),
    (
        &[ROW_1, ROW_2, (2, 2, 0, 0, &[3], b"abc")],
        OpenFault::Chain(64, ChainFault::BosWhileOpen),
    ),
    (
        &[ROW_1, ROW_2, ROW_3, (1, 0, 5, 3, &[], b"")],
        OpenFault::Chain(91, ChainFault::AfterEos),
    ),
    // The first page that may not follow is reported, and a later one isn't.
    (
        &[ROW_1, ROW_1, (2, 0, 0, 1, &[1], b"x")],
        OpenFault::Chain(31, ChainFault::SerialTwice),
    ),
    // A page that may not follow is reported before an unfinished packet.
    (
        &[ROW_1, (1, 0, 0, 1, &[255], &[0; 255]), ROW_1],
        OpenFault::Chain(314, ChainFault::BosWhileOpen),
    ),
];

#[test]
fn broken_chains_are_told_and_left_as_they_are(rt: HostRuntime) -> Result<(), Fail> {
    let alloc = rt.alloc();
    for &(pages, fault) in &BROKEN {
        let bytes = joined(alloc, pages)?;
        assert!(rt; ends(alloc, &bytes)? == Err(fault));

        // A damaged page is reported first, wherever it stands.
        let place = bytes.len() as u64;
        let damaged = file_of(alloc, pages, b"OggS damaged")?;
        assert!(rt; ends(alloc, &damaged)? == Err(OpenFault::Page(place, PageFault::Short)));
    }
    Ok(())
}

/// Too many streams: the first page of a stream for each serial from 1 to 65.
fn too_many(alloc: Global) -> Result<Vec<u8>, Fail> {
    let mut bytes = Vec::new(alloc);
    for serial in 1..=65 {
        let (_, flags, position, sequence, lacing, body) = ROW_1;
        let page = joined(alloc, &[(serial, flags, position, sequence, lacing, body)])?;
        bytes.extend_from_slice(&page)?;
    }
    Ok(bytes)
}

/// The pages of the first rows, with an `H` in `hello`.
fn changed(alloc: Global) -> Result<Vec<u8>, Fail> {
    let mut bytes = joined(alloc, &[ROW_1, ROW_2, ROW_3])?;
    if let Some(byte) = bytes.get_mut(59) {
        *byte = b'H';
    }
    Ok(bytes)
}

/// The fault of an opening whose first sync fails, and the end that the next one finds.
fn found_at_last(alloc: Global) -> Result<(OpenFault, Option<u64>), Fail> {
    let disk = fused(alloc, &joined(alloc, &[ROW_1, ROW_2])?, Fuse::FailOnce(1))?;
    match Recorder::open(alloc, disk) {
        Ok(_) => Err(Fail::from("opened")),
        Err((fault, disk)) => Ok((fault, end_of(alloc, disk))),
    }
}

/// The end of the committed bytes that an opening of this disk finds.
fn end_of<D: Disk + Drop>(alloc: Global, disk: D) -> Option<u64> {
    match try_open(alloc, disk) {
        Some(recorder) => Some(recorder.end()),
        None => None,
    }
}

#[test]
fn faults_of_an_opening_are_told(rt: HostRuntime) -> Result<(), Fail> {
    let alloc = rt.alloc();
    let fault = OpenFault::Chain(1984, ChainFault::TooMany);
    assert!(rt; ends(alloc, &too_many(alloc)?)? == Err(fault));
    let fault = OpenFault::Page(31, PageFault::Checksum);
    assert!(rt; ends(alloc, &changed(alloc)?)? == Err(fault));
    assert!(rt; found_at_last(alloc)? == (OpenFault::Disk, Some(64)));
    Ok(())
}
