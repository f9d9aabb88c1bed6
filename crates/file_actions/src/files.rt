//! The commands that read a file and write nothing to it.
ghost use Rattle.std.specs.Prelude.{◌≡◌, ◌↔◌, ◌⊎◌, ◌≤◌, List, [], Ok, Err, Some, IfErr, OnErr, IsOk, IsErr, length, slice_get};
ghost use Rattle.std.specs.Io.KnownBytes.{Appends, Keeps};
ghost use Rattle.ogg_page.specs.Page.{Page as PageValue, bytes_of_pages};
ghost use Rattle.ogg_page.specs.Window.{KeepsSource, HasFailed};
ghost use Rattle.ogg_split.specs.Asked.{AreIndexed};
ghost use Rattle.file_actions.specs.Copies.{IsWritten, LacksAsked, pages_asked};

use crate::indexing::{Indexed, find_index};
use disk_model::{FileDisk, FileMode};
use fault_lines::Fault;
use gate_file::Found;
use link_index::Index;
use ogg_page::{PageSource, Window, write_whole};
use ogg_split::{SplitFault, copy_link_from, copy_stream_from};
use std::io;
use std::io::{BufWriter, Stdout, Write};

/// How many bytes of a copy are written at once.
const TOGETHER: usize = 32768;

/// Writes the listing of the file to standard output. The file is only read.
///
/// It is `File` if the file can't be opened, `Open` if its committed bytes can't be found, `Index` if there is no index
/// of them, and `Memory` if memory is refused: nothing is written then. It is `Write` if standard output takes no more:
/// it has got a part of the listing then.
pub fn links(rt: &HostRuntime, file: &str) -> Result<(), Fault> {
    let indexed = find_index(rt.alloc(), open(rt, file)?)?;
    let mut listing = Vec::new(rt.alloc());
    let Ok(()) = indexed.index.write_listing(&mut listing) else {
        return Err(Fault::Memory);
    };
    match write_whole(&mut rt.stdout(), listing.as_slice()) {
        Ok(()) => Ok(()),
        Err(_) => Err(Fault::Write),
    }
}

/// A window over the committed bytes of a file, and their index.
#[derive(Drop)]
pub(crate) struct Reading {
    pub(crate) window: Window<Found<FileDisk>>,
    pub(crate) index: Index,
}

/// Opens a file whose pages are written. It is only read.
pub(crate) fn read(rt: &HostRuntime, file: &str) -> Result<Reading, Fault> {
    let Indexed {
        found,
        index,
        buffer,
    } = find_index(rt.alloc(), open(rt, file)?)?;
    Ok(Reading {
        window: Window::new(found, buffer, 0, 0),
        index,
    })
}

/// Standard output, to which this many bytes are written at once.
pub(crate) fn output(rt: &HostRuntime, together: usize) -> Result<BufWriter<Stdout>, Fault> {
    match BufWriter::with_capacity(rt.alloc(), together, rt.stdout()) {
        Ok(out) => Ok(out),
        Err(_) => Err(Fault::Memory),
    }
}

/// What became of pages that were written, after what they left in the buffer, which goes out after a fault too. It is
/// `unwritten` if only that can't be written.
pub(crate) fn flushed<W: Write>(
    written: Result<(), Fault>,
    out: &mut W,
    unwritten: Fault,
) -> Result<(), Fault>
    ensures met { IfErr written (λ fault. result ≡ Err fault) }
    ensures only { written ≡ Ok tt → OnErr result (result ≡ Err unwritten) }
    ensures kept { Keeps (W.contents out.old) (W.contents out.new) }
{
    after(written, out.flush(), unwritten)
}

/// What became of pages that were written and then flushed: the first fault that was met.
fn after(written: Result<(), Fault>, flushed: io::Result<()>, unwritten: Fault) -> Result<(), Fault>
    ensures met { IfErr written (λ fault. result ≡ Err fault) }
    ensures unwritten { written ≡ Ok tt → IsErr flushed → result ≡ Err unwritten }
    ensures done { written ≡ Ok tt → IsOk flushed → result ≡ Ok tt }
{
    match (written, flushed) {
        (Err(fault), _) => Err(fault),
        (Ok(()), Err(_)) => Err(unwritten),
        (Ok(()), Ok(())) => Ok(()),
    }
}

/// Writes the pages of a link to standard output, or those of one of its streams. The file is only read.
///
/// It is `File`, `Open`, `Index` or `Memory` as for `links`: nothing is written then. It is `Split` if there is no such
/// link or stream, the file can't be read, or standard output takes no more: what was copied before is written then.
pub fn split(rt: &HostRuntime, file: &str, link: u32, serial: Option<u32>) -> Result<(), Fault> {
    let Reading { mut window, index } = read(rt, file)?;
    let mut out = output(rt, TOGETHER)?;
    let copied = copy(&mut window, &index, link, serial, &mut out);
    flushed(copied, &mut out, Fault::Split(SplitFault::Write))
}

/// Copies the pages of the link, or those of one of its streams.
fn copy<S: PageSource, W: Write>(
    window: &mut Window<S>,
    index: &Index,
    link: u32,
    serial: Option<u32>,
    out: &mut W,
) -> Result<(), Fault>
    ensures copied { (links : List (List PageValue)) (pages : List PageValue) → S.is_honest window.old.source
        → AreIndexed links index.now (S.bytes window.old.source) → slice_get links link ≡ Some pages
        → IsWritten (W.contents out.old) (W.contents out.new) (bytes_of_pages (pages_asked serial pages)) result }

    // Which fault, and when.
    ensures no_link { (result ≡ Err (Fault.Split SplitFault.NoLink)) ↔ (length index.now.entries ≤ link) }
    ensures no_stream { (result ≡ Err (Fault.Split SplitFault.NoStream)) ↔ LacksAsked index.now.entries link serial }
    ensures nothing { (result ≡ Err (Fault.Split SplitFault.NoLink)) ⊎ (result ≡ Err (Fault.Split SplitFault.NoStream))
        → Appends (W.contents out.old) (W.contents out.new) [] }
    ensures cause { (links : List (List PageValue)) → S.is_honest window.old.source
        → AreIndexed links index.now (S.bytes window.old.source) → result ≡ Err (Fault.Split SplitFault.Source)
        → HasFailed (S.failures window.old.source) (S.failures window.new.source) }
    ensures source { KeepsSource S.bytes S.is_honest S.size S.only_reads window.old.source window.new.source }
{
    match serial {
        Some(serial) => copied(copy_stream_from(window, index, link, serial, out)),
        None => copied(copy_link_from(window, index, link, out)),
    }
}

/// What became of a copy.
fn copied(answer: Result<u64, SplitFault>) -> Result<(), Fault>
    ensures ok { IsOk answer → result ≡ Ok tt }
    ensures err { IfErr answer (λ fault. result ≡ Err (Fault.Split fault)) }
    ensures source { result ≡ Err (Fault.Split SplitFault.Source) → answer ≡ Err SplitFault.Source }
{
    match answer {
        Ok(_) => Ok(()),
        Err(fault) => Err(Fault::Split(fault)),
    }
}

/// Opens a file to be read.
pub(crate) fn open(rt: &HostRuntime, file: &str) -> Result<FileDisk, Fault> {
    match FileDisk::open(rt, file, FileMode::ReadOnly) {
        Ok(disk) => Ok(disk),
        Err(_) => Err(Fault::File),
    }
}
