//! A page written as it is in a finished link.
ghost use Rattle.std.specs.Prelude.{◌≡◌, Err, OnErr, Some, false};
ghost use Rattle.ogg_page.specs.Page.{bytes_of_pages, page_bytes};
ghost use Rattle.ogg_page.specs.LogicalStream.{is_last};
ghost use Rattle.ogg_split.specs.Copying.{IsCopy};
ghost use Rattle.ogg_finish.specs.Finishing.{finished_page, marked_last};

use crate::fault::FinishFault;
use crate::stream_end::Mark;
use ogg_page::{LAST, Page, PageBuffer, PageHead, write_whole};
use std::io::Write;

/// Writes the page as it is in the finished link, with `mark` as the place for the mark of its stream, and returns how
/// many bytes were written.
pub fn write_page<W: Write>(
    page: &Page<'_>,
    mark: Option<Mark>,
    buffer: &mut PageBuffer,
    out: &mut W,
) -> Result<u64, FinishFault>
    ensures copied { IsCopy (W.contents out.old) (W.contents out.new) (bytes_of_pages (finished_page mark page.now)) result }
    ensures err { OnErr result (result ≡ Err FinishFault.Write) }
{
    if page.is_first() {
        return write_bytes(page.whole(), out);
    }
    let Some(mark) = mark else {
        return write_bytes(page.whole(), out);
    };
    if page.sequence() < mark.sequence {
        write_bytes(page.whole(), out)
    } else if page.sequence() == mark.sequence {
        write_marked(page, buffer, out)
    } else {
        Ok(0)
    }
}

/// Writes the page, marked as its stream's last.
fn write_marked<W: Write>(
    page: &Page<'_>,
    buffer: &mut PageBuffer,
    out: &mut W,
) -> Result<u64, FinishFault>
    ensures copied { IsCopy (W.contents out.old) (W.contents out.new) (page_bytes (marked_last page.now)) result }
    ensures err { OnErr result (result ≡ Err FinishFault.Write) }
{
    if page.is_last() {
        return write_bytes(page.whole(), out);
    }
    mark_last(page, buffer);
    write_bytes(buffer.bytes(), out)
}

/// Makes the page in the buffer, with the mark, which the page lacks.
fn mark_last(page: &Page<'_>, buffer: &mut PageBuffer)
    requires { is_last page.now ≡ false }
    ensures { buffer.new.finished ≡ Some (marked_last page.now) }
{
    // Since it is a page, its lacing values, its body and its flags are bounded.
    // For the proof alone.
    let _whole = page.whole();
    buffer.start(page.lacing());
    buffer.put(page.body());
    buffer.finish(&PageHead {
        flags: page.flags() + LAST,
        position: page.position(),
        serial: page.serial(),
        sequence: page.sequence(),
    });
}

/// Writes all of the bytes.
fn write_bytes<W: Write>(bytes: &[u8], out: &mut W) -> Result<u64, FinishFault>
    ensures copied { IsCopy (W.contents out.old) (W.contents out.new) bytes.now result }
    ensures err { OnErr result (result ≡ Err FinishFault.Write) }
{
    match write_whole(out, bytes) {
        Ok(()) => Ok(bytes.len() as u64),
        Err(_) => Err(FinishFault::Write),
    }
}
