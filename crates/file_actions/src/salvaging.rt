//! The command that lists the good pages of a damaged file, which may be larger than memory.
ghost use Rattle.std.specs.Prelude.{◌≡◌, ◌↔◌, ◌≤◌, ◌<◌, ◌+◌, ◌^◌, ℕ, List, length, take, drop, IfOk, OnOk};
ghost use Rattle.std.specs.Io.KnownBytes.{Appends};
ghost use Rattle.ogg_split.specs.Salvage.{AreGoodPages};
ghost use Rattle.ogg_split.specs.declared.salvaging.GoodPage.{GoodPage as GoodPageOf};
ghost use Rattle.file_actions.specs.Salvage.{AreGoodBetween, IsPiece, IsSure, page_line, page_lines, pages_before, piece_size, searched_with};

use crate::files::open;
use disk_model::Disk;
use fault_lines::Fault;
use ogg_page::{Memory, write_whole};
use ogg_split::{GoodPage, salvage as good_pages};
use std::alloc::Global;
use std::io::Write;
use text_line::Line;

/// How many bytes of the file are searched at once.
const PIECE: usize = 1 << 20;

/// How many bytes more are read with them, so that each page that begins among them shows whole: a page has at most
/// 65,307 bytes (RFC 3533, section 6).
const BEYOND: usize = 65_306;

/// Writes a line for each good page of the file to standard output, in their order. The file is only read.
///
/// It is `File` if the file can't be opened or read, `Memory` if memory is refused, `Write` if standard output takes no
/// more: the lines of the pages that were found before are written then.
pub fn salvage(rt: &HostRuntime, file: &str) -> Result<(), Fault> {
    let mut disk = open(rt, file)?;
    list_disk(rt.alloc(), &mut disk, &mut rt.stdout())
}

/// Writes a line for each good page of the disk, in their order.
fn list_disk<D: Disk, W: Write>(alloc: Global, disk: &mut D, out: &mut W) -> Result<(), Fault>
    ensures listed { OnOk result (D.is_honest disk.old → (good : List GoodPageOf)
        × AreGoodPages (D.state disk.old).contents good
        × Appends (W.contents out.old) (W.contents out.new) (page_lines good)) }
{
    let Ok(size) = disk.len() else {
        return Err(Fault::File);
    };
    let mut room = Vec::new(alloc);
    let Ok(()) = room.resize(PIECE + BEYOND, 0) else {
        return Err(Fault::Memory);
    };
    let mut at = 0;
    while at < size {
        match list_piece(alloc, disk, at, size - at, room.as_mut_slice(), out) {
            Ok(searched) => at += searched,
            Err(fault) => return Err(fault),
        }
    }
    Ok(())
}

/// Writes the lines of the pages that begin in the piece of the disk at `at`, after which the disk has `left` bytes, and
/// returns how far the disk has been searched from `at` on.
fn list_piece<D: Disk, W: Write>(
    alloc: Global,
    disk: &mut D,
    at: u64,
    left: u64,
    room: &mut [u8],
    out: &mut W,
) -> Result<u64, Fault>
    requires inside { D.is_honest disk.old → at + left ≡ length (D.state disk.old).contents }
    requires short { at + left < 2 ^ 63 }
    requires some { 1 ≤ left }
    requires room { length room.old ≡ piece_size }
    ensures listed { IfOk result (λ searched. D.is_honest disk.old → (pages : List GoodPageOf)
        × AreGoodBetween at (at + searched) (D.state disk.old).contents pages
        × Appends (W.contents out.old) (W.contents out.new) (page_lines pages)) }
    ensures goes_on { IfOk result (λ searched. 1 ≤ searched) }
    ensures within { IfOk result (λ searched. searched ≤ left) }
    ensures same { D.is_honest disk.old → D.state disk.new ≡ D.state disk.old }
    ensures honest { D.is_honest disk.old ↔ D.is_honest disk.new }
    ensures room { length room.new ≡ length room.old }
{
    let count = left.min(room.len() as u64) as usize;
    let (piece, _) = room.split_at_mut(count);
    match disk.read_at(at, piece) {
        Ok(()) => write_piece(alloc, at, left, piece, out),
        Err(_) => Err(Fault::File),
    }
}

/// Writes the lines of the pages that begin in a piece, and returns how far it has been searched then.
fn write_piece<W: Write>(
    alloc: Global,
    at: u64,
    left: u64,
    piece: &[u8],
    out: &mut W,
) -> Result<u64, Fault>
    requires short { at + left < 2 ^ 63 }
    requires some { 1 ≤ left }
    requires piece { IsPiece (length piece.now) left }
    requires within { length piece.now ≤ left }
    ensures listed { IfOk result (λ searched. (bytes : List ℕ) → length bytes ≡ at + left → piece.now ≡ take (length piece.now) (drop at bytes)
        → (pages : List GoodPageOf) × AreGoodBetween at (at + searched) bytes pages
        × Appends (W.contents out.old) (W.contents out.new) (page_lines pages)) }
    ensures goes_on { IfOk result (λ searched. 1 ≤ searched) }
    ensures within { IfOk result (λ searched. searched ≤ left) }
{
    let pages = match good_pages(alloc, piece) {
        Ok(pages) => pages,
        Err(_) => return Err(Fault::Memory),
    };
    let sure = sure_of(piece.len() as u64, left);
    let (lines, searched) = match lines_of(alloc, at, sure, pages.as_slice()) {
        Ok(listed) => listed,
        Err(_) => return Err(Fault::Memory),
    };
    match write_whole(out, lines.as_slice()) {
        Ok(()) => Ok(searched),
        Err(_) => Err(Fault::Write),
    }
}

/// How far it is known which good pages begin in a piece of this length, if the file ends `left` bytes after the
/// piece's front. A page that begins in the last bytes of a piece may not show whole, unless the file ends there.
fn sure_of(length: u64, left: u64) -> u64
    ensures goes_on { 1 ≤ result }
    ensures sure { IsPiece length left → IsSure length left result }
{
    if length < left {
        PIECE as u64
    } else {
        length.max(1)
    }
}

/// The lines of the pages that begin before `sure` in a piece of the file, which begins at `at`, and how far the piece
/// has been searched then. That is up to `sure`, or up to the end of the last of these pages if it lies after `sure`.
fn lines_of(alloc: Global, at: u64, sure: u64, pages: &[GoodPage]) -> Result<(Vec<u8>, u64), Memory>
    ensures goes_on { IfOk result (λ (lines, searched). sure ≤ searched) }
    ensures lines { IfOk result (λ (lines, searched). lines.items ≡ page_lines (pages_before at sure pages.now)) }
    ensures searched { IfOk result (λ (lines, searched). searched ≡ searched_with sure sure pages.now) }
{
    let mut lines = Vec::new(alloc);
    let mut searched = sure;
    let mut rest = pages;
    while let Some((page, others)) = rest.split_first() {
        if page.offset < sure {
            lines.extend_from_slice(line_of(
                at.saturating_add(page.offset),
                page.length,
            ).as_slice())?;
            searched = searched.max(page.offset.saturating_add(page.length));
        }
        rest = others;
    }
    Ok((lines, searched))
}

/// The line of a page.
fn line_of(offset: u64, length: u64) -> Line
    ensures { result.text ≡ page_line offset length }
{
    let mut line = Line::new();
    line.put_number(length);
    line.put_text(b" ");
    line.put_number(offset);
    line
}
