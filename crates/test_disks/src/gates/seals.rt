//! Files that are sealed, and committed bytes that are read.
use super::tools::{Named, Part, Step, are_made, ends, joined, opened, seal};
use crate::fused::{Fuse, fused};
use disk_model::{Disk, MemDisk};
use gate_file::GateFile;
use std::alloc::Global;
use std::test::Fail;

/// A file that is sealed after some appends.
#[derive(Clone, Copy)]
struct Sealing {
    file: &'static [Part],
    steps: &'static [Step],
    fuse: Fuse,
    is_sealed: bool,
    /// What the disk's contents are the front of.
    contents: &'static [Part],
    /// The end of the committed bytes.
    end: u64,
}

/// A page and 39 bytes 00.
const TAILED: Sealing = Sealing {
    file: &[Part::Page(Named::Begin), Part::Bytes(&[0; 39])],
    steps: &[],
    fuse: Fuse::Whole,
    is_sealed: false,
    contents: &[Part::Page(Named::Begin), Part::Bytes(&[0; 39])],
    end: 31,
};

const SEALINGS: [Sealing; 4] = [
    Sealing {
        file: &[],
        steps: &[
            Step::Append(Named::Begin),
            Step::Append(Named::Put),
            Step::Append(Named::End),
        ],
        fuse: Fuse::Whole,
        is_sealed: true,
        contents: &[
            Part::Page(Named::Begin),
            Part::Page(Named::Put),
            Part::Page(Named::End),
        ],
        end: 91,
    },
    // A seal makes two calls of the disk: a cut and a sync.
    Sealing {
        fuse: Fuse::StopAfter(4),
        ..TAILED
    },
    Sealing {
        fuse: Fuse::StopAfter(5),
        ..TAILED
    },
    Sealing {
        fuse: Fuse::StopAfter(6),
        is_sealed: true,
        ..TAILED
    },
];

/// Makes the appends and seals the file. It returns whether all succeeded, and the disk.
fn sealed(alloc: Global, sealing: &Sealing) -> Result<(bool, MemDisk), Fail> {
    let bytes = joined(alloc, sealing.file)?;
    let mut file = opened(alloc, fused(alloc, &bytes, sealing.fuse)?)?;
    let all = are_made(alloc, &mut file, sealing.steps)?;
    Ok(match seal(file) {
        Ok(disk) => (all, disk.into_inner()),
        Err((_, disk)) => (false, disk.into_inner()),
    })
}

#[test]
fn a_stop_within_a_seal_keeps_the_committed_bytes(rt: HostRuntime) -> Result<(), Fail> {
    for sealing in &SEALINGS {
        let (is_sealed, disk) = sealed(rt.alloc(), sealing)?;
        assert!(rt; is_sealed == sealing.is_sealed);
        let contents = joined(rt.alloc(), sealing.contents)?;
        assert!(rt; disk.is_image(disk.contents()) && contents.starts_with(disk.contents()));
        for length in 0..=contents.len() {
            let (image, _) = contents
                .split_at_checked(length)
                .unwrap_or((&contents, &[]));
            if disk.is_image(image) {
                let tail = (image.len() as u64).saturating_sub(sealing.end);
                assert!(rt; ends(rt.alloc(), image)? == Ok((sealing.end, tail)));
                assert!(rt; !is_sealed || tail == 0);
            }
        }
    }
    Ok(())
}

/// A file, calls of it, which calls of the disk fail, where five committed bytes are then read, and these bytes.
type Reading = (&'static [Part], &'static [Step], Fuse, u64, [u8; 5]);

const READINGS: [Reading; 2] = [
    (
        &[],
        &[
            Step::Append(Named::Begin),
            Step::Append(Named::Put),
            Step::Append(Named::End),
        ],
        Fuse::Whole,
        59,
        *b"hello",
    ),
    // They can still be read after an append has failed.
    (
        &[Part::Page(Named::Begin), Part::Bytes(&[0])],
        &[Step::Append(Named::Put)],
        Fuse::FailOnce(8),
        26,
        *b"\x01\x03abc",
    ),
];

/// Five committed bytes from this place on.
fn read<D: Disk>(file: &mut GateFile<D>, from: u64) -> Option<[u8; 5]> {
    let mut bytes = [0; 5];
    if file.end() < 5 || from > file.end() - 5 {
        return None;
    }
    match file.read(from, &mut bytes) {
        Ok(()) => Some(bytes),
        Err(_) => None,
    }
}

#[test]
fn committed_bytes_are_read_after_a_fault_too(rt: HostRuntime) -> Result<(), Fail> {
    for &(file, steps, fuse, from, bytes) in &READINGS {
        let disk = fused(rt.alloc(), &joined(rt.alloc(), file)?, fuse)?;
        let mut file = opened(rt.alloc(), disk)?;
        let all = are_made(rt.alloc(), &mut file, steps)?;
        assert!(rt; all == matches!(fuse, Fuse::Whole));
        assert!(rt; read(&mut file, from) == Some(bytes));
    }
    Ok(())
}
