//! Every sequence of up to four calls on a disk of up to three bytes, each 0 or 1, that begins with zeros, and of up
//! to three calls that begins with any bytes. (Exchanging 0 and 1 at a place in all bytes makes one run from another,
//! so zeros are enough for the longest.)

use disk_model::{Disk, MemDisk};
use std::alloc::Global;
use std::test::Fail;

const LONGEST: usize = 3;

/// Every list of up to three such bytes, and some that are longer.
const LISTS: [&[u8]; 17] = [
    &[],
    &[0],
    &[1],
    &[0, 0],
    &[0, 1],
    &[1, 0],
    &[1, 1],
    &[0, 0, 0],
    &[0, 0, 1],
    &[0, 1, 0],
    &[0, 1, 1],
    &[1, 0, 0],
    &[1, 0, 1],
    &[1, 1, 0],
    &[1, 1, 1],
    &[0, 0, 0, 0],
    &[1, 1, 1, 1],
];

#[derive(Clone, Copy)]
enum Step {
    Write(usize, &'static [u8]),
    Cut(usize),
    Sync,
}

/// The definition, place by place: `None` after the end, and `free` at each place that was written since the last
/// sync.
#[derive(Clone, Copy)]
struct Places {
    length: usize,
    least: usize,
    greatest: usize,
    contents: [Option<u8>; LONGEST],
    synced: [Option<u8>; LONGEST],
    free: [bool; LONGEST],
}

impl Places {
    fn of(bytes: &[u8]) -> Places {
        let mut contents = [None; LONGEST];
        for (place, byte) in contents.iter_mut().zip(bytes) {
            *place = Some(*byte);
        }
        Places {
            length: bytes.len(),
            least: bytes.len(),
            greatest: bytes.len(),
            contents,
            synced: contents,
            free: [false; LONGEST],
        }
    }

    fn after(self, step: Step) -> Places {
        let mut next = self;
        match step {
            Step::Write(at, bytes) => {
                for (k, byte) in bytes.iter().enumerate() {
                    if at < LONGEST && k < LONGEST - at {
                        next.contents[at + k] = Some(*byte);
                        next.free[at + k] = true;
                    }
                }
                next.length = next.length.max(at.saturating_add(bytes.len()));
                next.greatest = next.greatest.max(next.length);
            }
            Step::Cut(to) => {
                for (k, place) in next.contents.iter_mut().enumerate() {
                    if to <= k {
                        *place = None;
                    }
                }
                next.length = to;
                next.least = next.least.min(to);
            }
            Step::Sync => {
                next.synced = next.contents;
                next.free = [false; LONGEST];
                next.least = next.length;
                next.greatest = next.length;
            }
        }
        next
    }

    fn allows(&self, image: &[u8]) -> bool {
        if image.len() < self.least || image.len() > self.greatest || image.len() > LONGEST {
            return false;
        }
        for (k, byte) in image.iter().enumerate() {
            if k < LONGEST && !self.free[k] && self.synced[k] != Some(*byte) {
                return false;
            }
        }
        true
    }
}

/// Makes the calls on a new disk.
fn made(alloc: Global, first: &[u8], steps: &[Step]) -> Result<MemDisk, Fail> {
    let mut disk = MemDisk::of(alloc, first)?;
    for step in steps {
        match step {
            Step::Write(at, bytes) if *at <= disk.contents().len() => {
                disk.write_at(*at as u64, bytes).map_err(|_| "write")?;
            }
            Step::Cut(to) if *to <= disk.contents().len() => {
                disk.cut(*to as u64).map_err(|_| "cut")?;
            }
            Step::Sync => disk.sync().map_err(|_| "sync")?,
            Step::Write(_, _) | Step::Cut(_) => return Err(Fail::from("a place after the end")),
        }
    }
    Ok(disk)
}

/// Whether each of the lists is an image of the disk just where the definition allows it.
fn has_its_images(disk: &MemDisk, places: &Places) -> bool {
    LISTS
        .iter()
        .all(|image| disk.is_image(image) == places.allows(image))
}

/// Every call that a disk of this length takes.
fn calls(alloc: Global, length: usize) -> Result<Vec<Step>, Fail> {
    let mut next = Vec::new(alloc);
    next.push(Step::Sync)?;
    for at in 0..=LONGEST.min(length) {
        next.push(Step::Cut(at))?;
        for bytes in &LISTS {
            if bytes.len() <= LONGEST - at {
                next.push(Step::Write(at, bytes))?;
            }
        }
    }
    Ok(next)
}

/// Compares after these calls, and after each way of going on by `more` calls.
fn compare(
    alloc: Global,
    first: &[u8],
    steps: &mut Vec<Step>,
    places: Places,
    more: u8,
) -> Result<(), Fail> {
    let disk = made(alloc, first, steps)?;
    if !has_its_images(&disk, &places) {
        return Err(Fail::from("other images"));
    }
    if more == 0 {
        return Ok(());
    }
    for step in &calls(alloc, places.length)? {
        steps.push(*step)?;
        compare(alloc, first, steps, places.after(*step), more - 1)?;
        let _ = steps.pop();
    }
    Ok(())
}

#[test]
fn images_are_those_of_the_definition(rt: HostRuntime) -> Result<(), Fail> {
    for &first in &LISTS {
        if first.len() <= LONGEST {
            let more = if first.contains(&1) { 3 } else { 4 };
            let mut steps = Vec::new(rt.alloc());
            compare(rt.alloc(), first, &mut steps, Places::of(first), more)?;
        }
    }
    Ok(())
}
