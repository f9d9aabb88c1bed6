//! A disk that fails at each of its calls in turn, once or from then on. Whatever a stop makes of the file, it
//! holds the first commands: every one that was kept is among them, and at most one group besides.
use super::commands::sealed;
use super::tools::{Answer, Given, ends, give, group};
use disk_model::{Disk, FileDisk, FileMode, FuseDisk, MemDisk};
use ogg_recorder::Recorder;
use std::alloc::Global;
use std::test::Fail;
use std::{env, fs, process};

/// A run on a new disk: how many commands share a commit, the commands, and the ends that the committed bytes may
/// have, in order. What waits at the end is flushed, and then the file is sealed. `places` are the places at which a
/// commit byte, a page, or the closed byte after it begins or ends in the file.
struct Run {
    most: u32,
    given: &'static [Given],
    ends: &'static [u64],
    places: &'static [usize],
}

const ROWS: &[Given] = &[
    Given::Begin(&[1]),
    Given::Put(&[(1, 5, b"hello")]),
    Given::End(1),
];

const RUNS: [Run; 4] = [
    Run {
        most: 1,
        given: ROWS,
        ends: &[0, 31, 64, 91],
        places: PLACES,
    },
    Run {
        most: 2,
        given: ROWS,
        ends: &[0, 64, 91],
        places: PLACES,
    },
    Run {
        most: 8,
        given: ROWS,
        ends: &[0, 91],
        places: PLACES,
    },
    // A packet of 65,025 bytes has a page of 65,307 bytes and one of 28.
    Run {
        most: 1,
        given: &[Given::Begin(&[1]), Given::Zeros(65_025), Given::End(1)],
        ends: &[0, 31, 65_366, 65_393],
        places: &[31, 32, 65_338, 65_366, 65_367],
    },
];

/// Every run makes fewer calls of its disk.
const CALLS: u64 = 20;

const PLACES: &[usize] = &[0, 1, 31, 32, 33, 64, 65, 66, 91, 92];

/// A good page that no run has written: serial 5, the header `abc`.
const FOREIGN: &[u8; 31] =
    b"OggS\x00\x02\x00\x00\x00\x00\x00\x00\x00\x00\x05\x00\x00\x00\x00\x00\x00\x00\xe6\x18\xba\x4a\x01\x03abc";

/// Runs it on the disk, as far as that goes, and returns the end of the committed bytes by the last answer, and the
/// disk.
fn run_on<D: Disk + Drop>(alloc: Global, disk: D, run: &Run) -> Result<(u64, D), Fail> {
    let mut recorder = match Recorder::open(alloc, disk) {
        Ok(recorder) => recorder,
        Err((_, disk)) => return Ok((0, disk)),
    };
    group(&mut recorder, run.most);
    let mut kept = 0;
    for given in run.given {
        if let Answer::Kept(_, end) = give(alloc, &mut recorder, *given)? {
            kept = end;
        }
    }
    if let Answer::Kept(_, end) = give(alloc, &mut recorder, Given::Flush)? {
        kept = end;
    }
    Ok((kept, sealed(recorder)))
}

/// Whether the committed bytes may end at `found` if they were said to end at `kept`: there, or after one more group.
fn may_end(run: &Run, kept: u64, found: u64) -> bool {
    let mut after = run.ends.iter().skip_while(|end| **end < kept);
    after.next() == Some(&kept) && (found == kept || after.next() == Some(&found))
}

/// How many images these bytes are, none or one. If a stop now may leave them, the first commands are found in them.
fn check_image(
    alloc: Global,
    disk: &MemDisk,
    run: &Run,
    kept: u64,
    image: &[u8],
) -> Result<u64, Fail> {
    if !disk.is_image(image) {
        return Ok(0);
    }
    match ends(alloc, image)? {
        Ok((found, _)) if may_end(run, kept, found) => Ok(1),
        Ok(_) => Err(Fail::from("other commands are found")),
        Err(_) => Err(Fail::from("damaged")),
    }
}

/// How many images were checked so far.
fn more(found: u64, others: u64) -> u64 {
    found.saturating_add(others)
}

/// The file as it is, cut, and with each range filled with zeros, with ones, and with a page of another recording.
fn check_images(alloc: Global, disk: &MemDisk, run: &Run, kept: u64) -> Result<u64, Fail> {
    let whole = disk.contents();
    let mut found = check_image(alloc, disk, run, kept, whole)?;
    for length in 0..whole.len().min(100) {
        found = more(
            found,
            check_image(alloc, disk, run, kept, &whole[..length])?,
        );
    }
    for from in run.places {
        for to in run.places {
            if from < to && *to <= whole.len() {
                for fill in 0..3 {
                    let mut image = whole.to_vec(alloc)?;
                    fill_range(&mut image[*from..*to], fill);
                    found = more(found, check_image(alloc, disk, run, kept, &image)?);
                    found = more(found, check_image(alloc, disk, run, kept, &image[..*to])?);
                }
            }
        }
    }
    Ok(found)
}

fn fill_range(range: &mut [u8], fill: u8) {
    match fill {
        0 => range.fill(0),
        1 => range.fill(0xFF),
        _ => {
            for (byte, other) in range.iter_mut().zip(FOREIGN) {
                *byte = *other;
            }
        }
    }
}

/// Whether all of the run is on the disk, and nothing else.
fn is_whole(run: &Run, disk: &MemDisk, kept: u64) -> bool {
    run.ends.last() == Some(&kept) && disk.contents().len() as u64 == kept
}

/// How many images were checked. Each call fails in turn; if `stays`, so do all calls after it.
fn check_run(alloc: Global, run: &Run, stays: bool) -> Result<u64, Fail> {
    let mut images = 0;
    for call in 0..CALLS {
        let disk = MemDisk::of(alloc, b"")?;
        let fuse = if stays {
            FuseDisk::stop_after(disk, call)
        } else {
            FuseDisk::fail_once(disk, call)
        };
        let (kept, fuse) = run_on(alloc, fuse, run)?;
        let disk = fuse.into_inner();
        images = more(images, check_images(alloc, &disk, run, kept)?);
        if call == CALLS - 1 && stays && !is_whole(run, &disk, kept) {
            return Err(Fail::from("the last call isn't the last"));
        }
    }
    Ok(images)
}

#[test]
fn each_failing_call_leaves_the_first_commands(rt: HostRuntime) -> Result<(), Fail> {
    for run in &RUNS {
        assert!(rt; check_run(rt.alloc(), run, false)? > 100);
        assert!(rt; check_run(rt.alloc(), run, true)? > 100);
    }
    Ok(())
}

/// Whether the file opens, and its committed bytes end where they may.
fn is_found(alloc: Global, file: FileDisk, run: &Run, kept: u64) -> bool {
    match Recorder::open(alloc, file) {
        Ok(recorder) => may_end(run, kept, recorder.end()),
        Err(_) => false,
    }
}

/// The same over a file of the system, which is opened again as it stands.
#[test]
fn a_file_of_the_system_is_found_so_too(rt: HostRuntime) -> Result<(), Fail> {
    let alloc = rt.alloc();
    let id = process::id(rt.process());
    let name = format!(in alloc; "recorder-{id}.ogg")?;
    let path = env::temp_dir(&rt)?.join(alloc, name.as_str())?;
    for run in &RUNS {
        for call in 0..CALLS {
            let file = FileDisk::open(&rt, path.as_str(), FileMode::Create).map_err(|_| "made")?;
            let (kept, fuse) = run_on(alloc, FuseDisk::stop_after(file, call), run)?;
            assert!(rt; is_found(alloc, fuse.into_inner(), run, kept));
            fs::remove_file(&rt, path.as_path())?;
        }
    }
    Ok(())
}
