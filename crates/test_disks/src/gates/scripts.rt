//! Appends, and groups of pages that are staged one after the other and committed together, stopped at each call.
use super::tools::{Named, Part, Step, are_made, ends, joined, opened, overlaid, page_of};
use crate::fused::{Fuse, fused};
use disk_model::MemDisk;
use std::alloc::Global;
use std::test::Fail;

/// A file, and calls of it, which are made up to the first that fails.
#[derive(Clone, Copy)]
struct Script {
    file: &'static [Part],
    /// The end of the committed bytes, and how many follow.
    before: (u64, u64),
    steps: &'static [Step],
    /// The end of the committed bytes if no call fails, and how many are then staged. If a call fails the end is the
    /// one before, and the file has failed.
    whole: (u64, u64),
    /// What the disk's contents then begin with.
    contents: &'static [Part],
    stops: &'static [Stop],
}

/// Which calls of the disk fail; whether all calls of the file succeed; and the end of the committed bytes that an
/// opening then finds, and how many follow. An opening makes four calls of the disk if a closed byte follows the
/// pages, or if the file is empty.
type Stop = (Fuse, bool, (u64, u64));

const SCRIPTS: &[Script] = &[
    // An append of a page: a write, a sync, the write of the commit byte, a sync.
    Script {
        file: &[Part::Page(Named::Begin), Part::Bytes(&[0])],
        before: (31, 1),
        steps: &[Step::Append(Named::Put)],
        whole: (64, 0),
        contents: &[
            Part::Page(Named::Begin),
            Part::Page(Named::Put),
            Part::Bytes(&[0]),
        ],
        stops: &[
            (Fuse::StopAfter(4), false, (31, 1)),
            (Fuse::StopAfter(5), false, (31, 34)),
            (Fuse::StopAfter(6), false, (31, 34)),
            (Fuse::StopAfter(7), false, (64, 1)),
            (Fuse::StopAfter(8), true, (64, 1)),
            (Fuse::FailOnce(5), false, (31, 1)),
            (Fuse::FailOnce(6), false, (31, 34)),
            (Fuse::FailOnce(7), false, (31, 34)),
            // A failed sync leaves the append in doubt.
            (Fuse::FailOnce(8), false, (64, 1)),
        ],
    },
    // A new file's first page, its first two and its first three.
    Script {
        file: &[],
        before: (0, 0),
        steps: &[Step::Append(Named::Begin)],
        whole: (31, 0),
        contents: &[Part::Page(Named::Begin), Part::Bytes(&[0])],
        stops: &[(Fuse::Whole, true, (31, 1))],
    },
    Script {
        file: &[],
        before: (0, 0),
        steps: &[Step::Append(Named::Begin), Step::Append(Named::Put)],
        whole: (64, 0),
        contents: &[
            Part::Page(Named::Begin),
            Part::Page(Named::Put),
            Part::Bytes(&[0]),
        ],
        stops: &[(Fuse::Whole, true, (64, 1))],
    },
    Script {
        file: &[],
        before: (0, 0),
        steps: &[
            Step::Append(Named::Begin),
            Step::Append(Named::Put),
            Step::Append(Named::End),
        ],
        whole: (91, 0),
        contents: THREE,
        stops: &[(Fuse::Whole, true, (91, 1))],
    },
    // One byte alone, which a stop within the first write of an opening may leave, is a tail, and the first append
    // writes over it.
    Script {
        file: &[Part::Bytes(b"O")],
        ..LONE
    },
    Script {
        file: &[Part::Bytes(b"\0")],
        ..LONE
    },
    Script {
        file: &[Part::Bytes(b"x")],
        ..LONE
    },
    // Three pages as one group, of six calls.
    Script {
        file: &[],
        before: (0, 0),
        steps: &[
            Step::StageLast(Named::Begin),
            Step::StageLast(Named::Put),
            Step::StageLast(Named::End),
            Step::Commit,
        ],
        whole: (91, 0),
        contents: THREE,
        stops: &[
            (Fuse::StopAfter(4), false, (0, 1)),
            (Fuse::StopAfter(5), false, (0, 32)),
            (Fuse::StopAfter(6), false, (0, 65)),
            (Fuse::StopAfter(7), false, (0, 92)),
            (Fuse::StopAfter(8), false, (0, 92)),
            (Fuse::StopAfter(9), false, (91, 1)),
            (Fuse::StopAfter(10), true, (91, 1)),
            // A failed commit leaves the group in doubt.
            (Fuse::FailOnce(10), false, (91, 1)),
        ],
    },
    // A command of two pages, of five calls: a packet of 65,025 bytes has a full page, and one of 28 bytes.
    Script {
        file: &[Part::Page(Named::Begin), Part::Bytes(&[0])],
        before: (31, 1),
        steps: &[
            Step::Stage(Named::Full),
            Step::StageLast(Named::Rest),
            Step::Commit,
        ],
        whole: (65_366, 0),
        contents: &[
            Part::Page(Named::Begin),
            Part::Page(Named::Full),
            Part::Page(Named::Rest),
            Part::Bytes(&[0]),
        ],
        stops: &[
            (Fuse::StopAfter(4), false, (31, 1)),
            (Fuse::StopAfter(5), false, (31, 65_307)),
            (Fuse::StopAfter(6), false, (31, 65_336)),
            (Fuse::StopAfter(7), false, (31, 65_336)),
            (Fuse::StopAfter(8), false, (65_366, 1)),
            (Fuse::StopAfter(9), true, (65_366, 1)),
        ],
    },
    // The two pages, staged.
    Script {
        file: &[Part::Page(Named::Begin), Part::Bytes(&[0])],
        before: (31, 1),
        steps: &[Step::Stage(Named::Full), Step::StageLast(Named::Rest)],
        whole: (31, 65_335),
        contents: &[Part::Page(Named::Begin)],
        stops: &[
            (Fuse::StopAfter(6), true, (31, 65_336)),
            (Fuse::StopAfter(7), true, (31, 65_336)),
            (Fuse::StopAfter(8), true, (31, 65_336)),
            (Fuse::StopAfter(9), true, (31, 65_336)),
        ],
    },
    // What is staged is lost when the disk is given back.
    Script {
        file: &[Part::Page(Named::Begin), Part::Bytes(&[0])],
        before: (31, 1),
        steps: &[Step::StageLast(Named::Put)],
        whole: (31, 33),
        contents: &[Part::Page(Named::Begin)],
        stops: &[(Fuse::Whole, true, (31, 34))],
    },
    // A large page that isn't committed.
    Script {
        file: &[Part::Page(Named::Begin), Part::Bytes(&[0])],
        before: (31, 1),
        steps: &[Step::Append(Named::Large)],
        whole: (60_294, 0),
        contents: &[Part::Page(Named::Begin)],
        stops: &[(Fuse::StopAfter(6), false, (31, 60_264))],
    },
];

/// The three pages, and the closed byte.
const THREE: &[Part] = &[
    Part::Page(Named::Begin),
    Part::Page(Named::Put),
    Part::Page(Named::End),
    Part::Bytes(&[0]),
];

/// A file of one byte, which gets its first page.
const LONE: Script = Script {
    file: &[],
    before: (0, 1),
    steps: &[Step::Append(Named::Begin)],
    whole: (31, 0),
    contents: &[Part::Page(Named::Begin), Part::Bytes(&[0])],
    stops: &[(Fuse::Whole, true, (31, 1))],
};

/// What is seen of a file after its calls: whether all succeeded, whether the file has failed, its end, how many bytes
/// are staged, and whether they can be committed.
type Seen = (bool, bool, u64, u64, bool);

/// Opens a file with these bytes on a disk with this fuse, makes the calls, and gives the disk back.
fn made(alloc: Global, bytes: &[u8], fuse: Fuse, steps: &[Step]) -> Result<(Seen, MemDisk), Fail> {
    let mut file = opened(alloc, fused(alloc, bytes, fuse)?)?;
    let all = are_made(alloc, &mut file, steps)?;
    let seen = (
        all,
        file.is_failed(),
        file.end(),
        file.staged(),
        file.is_whole(),
    );
    Ok((seen, file.give_back().into_inner()))
}

/// Whether the file is seen as the script says.
fn is_as_told(seen: Seen, script: &Script, all: bool) -> bool {
    let (made, failed, end, staged, whole) = seen;
    let told = if all {
        (end, staged) == script.whole && (staged == 0 || whole)
    } else {
        end == script.before.0
    };
    made == all && failed != all && told
}

/// Whether a stop of a script over these bytes is answered, and leaves what the script says.
fn is_stopped(alloc: Global, bytes: &[u8], script: &Script, stop: &Stop) -> Result<bool, Fail> {
    let (fuse, all, found) = *stop;
    let (seen, disk) = made(alloc, bytes, fuse, script.steps)?;
    let is_told = ends(alloc, bytes)? == Ok(script.before)
        && is_as_told(seen, script, all)
        && ends(alloc, disk.contents())? == Ok(found)
        && (!all || begins_with(alloc, disk.contents(), script.contents)?);
    if !is_told || disk.contents().len() > LONG {
        return Ok(is_told);
    }
    images_are_found(alloc, &disk, script.before.0, found.0, all)
}

/// Whether the bytes begin with these parts.
fn begins_with(alloc: Global, bytes: &[u8], parts: &[Part]) -> Result<bool, Fail> {
    Ok(bytes.starts_with(&joined(alloc, parts)?))
}

/// The images of longer contents aren't opened, since that would take minutes.
const LONG: usize = 200;

/// Other pages and bytes that may stand in an image, and how many bytes after the place of the commit byte they begin.
const OVERS: [(usize, &[Part]); 4] = [
    (1, &[Part::Bytes(&[0; 33])]),
    (1, &[Part::Bytes(&[0xFF; 33])]),
    (1, &[Part::Page(Named::End), Part::Bytes(&[0])]),
    (0, &[Part::Page(Named::End), Part::Bytes(&[0])]),
];

/// These bytes changed in many ways from the commit byte on, and cut.
fn images_of(alloc: Global, bytes: &[u8], commit: usize) -> Result<Vec<Vec<u8>>, Fail> {
    let mut images = Vec::new(alloc);
    for (after, over) in &OVERS {
        let over = joined(alloc, over)?;
        images.push(overlaid(alloc, bytes, commit.saturating_add(*after), &over)?)?;
    }
    for byte in 0..=255 {
        images.push(overlaid(alloc, bytes, commit, &[byte])?)?;
    }
    for length in 30..70 {
        let (front, _) = bytes.split_at_checked(length).unwrap_or((bytes, &[]));
        images.push(front.to_vec(alloc)?)?;
    }
    images.push(bytes.to_vec(alloc)?)?;
    Ok(images)
}

/// Whether the right end is found in each of the images that a stop now may leave, of which there is one at least. If
/// all calls succeeded it is the new one. Otherwise it is the one before, or the new one if the commit byte is the
/// first of a page.
fn images_are_found(
    alloc: Global,
    disk: &MemDisk,
    before: u64,
    after: u64,
    all: bool,
) -> Result<bool, Fail> {
    let mut asked = false;
    for image in &images_of(alloc, disk.contents(), before as usize)? {
        if disk.is_image(image) {
            asked = true;
            let is_open = image.get(before as usize) == Some(&b'O');
            let end = if all || is_open { after } else { before };
            let tail = (image.len() as u64).saturating_sub(end);
            if ends(alloc, image)? != Ok((end, tail)) {
                return Ok(false);
            }
        }
    }
    Ok(asked)
}

#[test]
fn scripts_of_calls_are_whole_or_not_at_all(rt: HostRuntime) -> Result<(), Fail> {
    for script in SCRIPTS {
        let bytes = joined(rt.alloc(), script.file)?;
        for stop in script.stops {
            assert!(rt; is_stopped(rt.alloc(), &bytes, script, stop)?);
        }
    }
    Ok(())
}

/// A file with a tail of 92 bytes, which gets a page.
const TAILED: Script = Script {
    file: &[],
    before: (31, 92),
    steps: &[Step::Append(Named::Put)],
    whole: (64, 0),
    contents: &[
        Part::Page(Named::Begin),
        Part::Page(Named::Put),
        Part::Bytes(&[0]),
    ],
    stops: &[],
};

/// What stands in the tail: a good page, zeros, first bytes of a page, the first four, the pages of an earlier file.
const TAILS: [&[Part]; 5] = [
    &[Part::Page(Named::Put)],
    &[Part::Bytes(&[0; 60])],
    &[Part::Bytes(&[b'O'; 60])],
    &[Part::Bytes(b"OggS")],
    &[
        Part::Page(Named::Begin),
        Part::Page(Named::Put),
        Part::Page(Named::End),
    ],
];

/// A page and 92 bytes, the first of which is closed, with these parts over the others.
fn tailed(alloc: Global, closed: u8, tail: &[Part]) -> Result<Vec<u8>, Fail> {
    let mut bytes = joined(alloc, &[Part::Page(Named::Begin)])?;
    bytes.extend_from_slice(&[closed; 92])?;
    overlaid(alloc, &bytes, 32, &joined(alloc, tail)?)
}

/// What stands after a closed byte is never read, whatever it is, and the next append writes over it.
#[test]
fn what_follows_a_closed_byte_is_a_tail(rt: HostRuntime) -> Result<(), Fail> {
    for closed in [0, 1, b'o', 0xFF] {
        for &tail in &TAILS {
            let bytes = tailed(rt.alloc(), closed, tail)?;
            let stop = (Fuse::Whole, true, (64, 59));
            assert!(rt; is_stopped(rt.alloc(), &bytes, &TAILED, &stop)?);
        }
    }
    Ok(())
}

/// Whether a page is appended to a file with these bytes, and the bytes then.
fn appended(alloc: Global, bytes: &[u8], fuse: Fuse, page: Named) -> Result<(bool, Vec<u8>), Fail> {
    let ((all, ..), disk) = made(alloc, bytes, fuse, &[Step::Append(page)])?;
    Ok((all, disk.contents().to_vec(alloc)?))
}

/// A large page is stopped before its commit byte is written, and the next append writes over it.
#[test]
fn the_next_append_writes_over_what_was_not_committed(rt: HostRuntime) -> Result<(), Fail> {
    let alloc = rt.alloc();
    let first = joined(alloc, &[Part::Page(Named::Begin), Part::Bytes(&[0])])?;
    let (all, stopped) = appended(alloc, &first, Fuse::StopAfter(6), Named::Large)?;
    assert!(rt; !all && ends(alloc, &stopped)? == Ok((31, 60_264)));
    let (all, next) = appended(alloc, &stopped, Fuse::Whole, Named::Put)?;
    assert!(rt; all && ends(alloc, &next)? == Ok((64, 60_231)));
    Ok(())
}
