//! Pages, disks and images for the tests.
ghost use Rattle.std.specs.Prelude.{◌≡◌, ℕ, List};
ghost use Rattle.gate_file.specs.Gate.{IsAppend};

use disk_model::{Disk, DiskFault, MemDisk};
use gate_file::{GateFile, OpenFault};
use ogg_page::{PageHead, close_page, open_page, read_page};
use std::alloc::Global;
use std::marker::Model;
use std::test::Fail;

/// One page, and the byte 00 after it.
#[derive(Drop)]
pub(super) struct ClosedPage {
    bytes: Vec<u8>,
}

impl Model for ClosedPage {
    ghost use Rattle.std.specs.Prelude.{ℕ, List};
    ghost use Rattle.gate_file.specs.Gate.{IsAppend};

    ghost Value = { List ℕ };

    ghost view = { λ c. c.bytes.items };

    ghost invariant = { λ c. IsAppend c.bytes.items };
}

impl ClosedPage {
    /// The page and the byte.
    pub(super) fn bytes(&self) -> &[u8]
        ensures { IsAppend result.now }
    {
        &self.bytes
    }

    /// Stages the page without the byte, so that another page can follow.
    pub(super) fn stage_in<D: Disk>(&self, file: &mut GateFile<D>) -> Result<(), DiskFault> {
        match read_page(self.page()) {
            Ok(page) if !file.is_failed() => file.stage(page.whole()),
            _ => Err(DiskFault),
        }
    }

    /// The page without the byte.
    pub(super) fn page(&self) -> &[u8] {
        match self.bytes.split_last() {
            Some((_, page)) => page,
            None => &[],
        }
    }
}

/// The page with these lacing values and this body, of stream 1.
pub(super) fn page(
    alloc: Global,
    flags: u8,
    position: u64,
    sequence: u32,
    lacing: &[u8],
    body: &[u8],
) -> Result<ClosedPage, Fail> {
    let head = PageHead {
        flags,
        position,
        serial: 1,
        sequence,
    };
    let mut bytes = Vec::new(alloc);
    bytes.reserve(283)?;
    if lacing.len() > 255 {
        return Err(Fail::from("lacing"));
    }
    open_page(&head, lacing, &mut bytes);
    bytes.extend_from_slice(body)?;
    close_page(0, &mut bytes);
    closed(bytes)
}

/// The bytes with the byte 00 after them, if they are one page.
fn closed(bytes: Vec<u8>) -> Result<ClosedPage, Fail> {
    let mut bytes = bytes;
    match read_page(&bytes) {
        Ok(page) if page.whole().len() == bytes.len() => {}
        _ => return Err(Fail::from("no page")),
    }
    bytes.push(0)?;
    Ok(ClosedPage { bytes })
}

/// A page of stream 1.
#[derive(Clone, Copy)]
pub(super) enum Named {
    /// A begin with the header `abc`, of 31 bytes.
    Begin,
    /// A put of `hello` at position 5, of 33 bytes.
    Put,
    /// An end, of 27 bytes.
    End,
    /// A put of 60,000 bytes, of 60,263 bytes.
    Large,
    /// The first page of a packet of 65,025 bytes, of 65,307 bytes.
    Full,
    /// The page of 28 bytes that ends this packet.
    Rest,
}

/// The page with this name.
pub(super) fn page_of(alloc: Global, named: Named) -> Result<ClosedPage, Fail> {
    match named {
        Named::Begin => page(alloc, 2, 0, 0, &[3], b"abc"),
        Named::Put => page(alloc, 0, 5, 1, &[5], b"hello"),
        Named::End => page(alloc, 4, 5, 2, &[], b""),
        Named::Large => {
            let mut lacing = [255; 236];
            lacing[235] = 75;
            page(alloc, 0, 5, 1, &lacing, &[7; 60_000])
        }
        Named::Full => page(alloc, 0, u64::MAX, 1, &[255; 255], &[7; 65_025]),
        Named::Rest => page(alloc, 1, 5, 2, &[0], b""),
    }
}

/// Some bytes of a file.
#[derive(Clone, Copy)]
pub(super) enum Part {
    Page(Named),
    Bytes(&'static [u8]),
}

/// The parts, joined.
pub(super) fn joined(alloc: Global, parts: &[Part]) -> Result<Vec<u8>, Fail> {
    let mut bytes = Vec::new(alloc);
    for part in parts {
        match part {
            Part::Page(named) => bytes.extend_from_slice(page_of(alloc, *named)?.page())?,
            Part::Bytes(some) => bytes.extend_from_slice(some)?,
        }
    }
    Ok(bytes)
}

/// A call of a file.
#[derive(Clone, Copy)]
pub(super) enum Step {
    Append(Named),
    /// Stages the page, so that another can follow.
    Stage(Named),
    /// Stages the page as a last one.
    StageLast(Named),
    Commit,
}

/// Makes the call, and returns whether it succeeded. The one fault is `DiskFault`.
fn is_made<D: Disk>(alloc: Global, file: &mut GateFile<D>, step: Step) -> Result<bool, Fail> {
    Ok(match step {
        Step::Append(named) => append(file, &page_of(alloc, named)?).is_ok(),
        Step::Stage(named) => page_of(alloc, named)?.stage_in(file).is_ok(),
        Step::StageLast(named) => stage_last(file, &page_of(alloc, named)?).is_ok(),
        Step::Commit => commit(file).is_ok(),
    })
}

/// Makes the calls up to the first that fails, and returns whether all succeeded.
pub(super) fn are_made<D: Disk>(
    alloc: Global,
    file: &mut GateFile<D>,
    steps: &[Step],
) -> Result<bool, Fail> {
    for step in steps {
        if !is_made(alloc, file, *step)? {
            return Ok(false);
        }
    }
    Ok(true)
}

/// A file, opened and made ready, if it can be.
pub(super) fn try_open<D: Disk + Drop>(alloc: Global, disk: D) -> Option<GateFile<D>> {
    match GateFile::find(alloc, disk) {
        Ok(found) => match found.ready() {
            Ok(file) => Some(file),
            Err(_) => None,
        },
        Err(_) => None,
    }
}

pub(super) fn opened<D: Disk + Drop>(alloc: Global, disk: D) -> Result<GateFile<D>, Fail> {
    match try_open(alloc, disk) {
        Some(file) => Ok(file),
        None => Err(Fail::from("not opened")),
    }
}

/// The end of the committed bytes and how many follow, or the fault. After a fault the contents stay as they are.
pub(super) fn ends(alloc: Global, bytes: &[u8]) -> Result<Result<(u64, u64), OpenFault>, Fail> {
    match GateFile::find(alloc, MemDisk::of(alloc, bytes)?) {
        Ok(found) => Ok(Ok((found.end(), found.tail()))),
        Err((fault, disk)) => {
            if disk.contents() != bytes {
                return Err(Fail::from("changed"));
            }
            Ok(Err(fault))
        }
    }
}

/// Appends, if nothing is staged.
pub(super) fn append<D: Disk>(file: &mut GateFile<D>, more: &ClosedPage) -> Result<(), DiskFault> {
    if file.is_failed() || file.staged() > 0 {
        return Err(DiskFault);
    }
    file.append(more.bytes())
}

/// Stages a last page.
pub(super) fn stage_last<D: Disk>(
    file: &mut GateFile<D>,
    last: &ClosedPage,
) -> Result<(), DiskFault> {
    if file.is_failed() {
        return Err(DiskFault);
    }
    file.stage_last(last.bytes())
}

/// Commits, if the last page is staged.
pub(super) fn commit<D: Disk>(file: &mut GateFile<D>) -> Result<(), DiskFault> {
    if file.is_failed() || !file.is_whole() {
        return Err(DiskFault);
    }
    file.commit()
}

/// Seals, if nothing is staged.
pub(super) fn seal<D: Disk>(file: GateFile<D>) -> Result<D, (DiskFault, D)> {
    if file.is_failed() || file.staged() > 0 {
        return Err((DiskFault, file.give_back()));
    }
    file.seal()
}

/// The bytes with others put over them from `at` on, as far as they go.
pub(super) fn overlaid(
    alloc: Global,
    bytes: &[u8],
    at: usize,
    over: &[u8],
) -> Result<Vec<u8>, Fail> {
    let mut all = bytes.to_vec(alloc)?;
    for (place, byte) in all.iter_mut().skip(at).zip(over) {
        *place = *byte;
    }
    Ok(all)
}
