//! The command that writes a file anew, so that players stop at the right sample.
ghost use Rattle.std.specs.Prelude.{◌≡◌, ◌≢◌, ◌↔◌, ◌≤◌, List, [], None, Some, Err, IfSome, length, slice_get};
ghost use Rattle.std.specs.List.{flat_map};
ghost use Rattle.std.specs.Io.KnownBytes.{Appends};
ghost use Rattle.ogg_page.specs.Page.{Page as PageValue, bytes_of_pages};
ghost use Rattle.ogg_page.specs.Window.{KeepsSource, HasFailed};
ghost use Rattle.ogg_split.specs.Asked.{AreIndexed};
ghost use Rattle.ogg_finish.specs.Finishing.{finished_link, finished_links};
ghost use Rattle.file_actions.specs.Copies.{IsWritten};

use crate::files::{Reading, flushed, output, read};
use fault_lines::Fault;
use link_index::Index;
use ogg_finish::{FinishFault, finish_file, finish_link};
use ogg_page::{PageBuffer, PageSource, Window};
use std::io::Write;

/// How many bytes are written at once.
const TOGETHER: usize = 65536;

/// Writes the link of the file to standard output, finished, or all of its links. The file is only read.
///
/// It is `File`, `Open`, `Index` or `Memory` as for `links`: nothing is written then. It is `Finish` if there is no
/// such link, the file can't be read, or standard output takes no more: what was made before is written then.
pub fn finish(rt: &HostRuntime, file: &str, link: Option<u32>) -> Result<(), Fault> {
    let Reading { mut window, index } = read(rt, file)?;
    let Ok(mut marked) = PageBuffer::new(rt.alloc()) else {
        return Err(Fault::Memory);
    };
    let mut out = output(rt, TOGETHER)?;
    let finished = write_finished(&mut window, &index, link, &mut marked, &mut out);
    flushed(finished, &mut out, Fault::Finish(FinishFault::Write))
}

/// Writes the link, finished, or all links.
fn write_finished<S: PageSource, W: Write>(
    window: &mut Window<S>,
    index: &Index,
    link: Option<u32>,
    marked: &mut PageBuffer,
    out: &mut W,
) -> Result<(), Fault>
    ensures one { IfSome link (λ number. (links : List (List PageValue)) (pages : List PageValue) → S.is_honest window.old.source
        → AreIndexed links index.now (S.bytes window.old.source) → slice_get links number ≡ Some pages
        → IsWritten (W.contents out.old) (W.contents out.new) (bytes_of_pages (finished_link pages)) result) }
    ensures all { link ≡ None → (links : List (List PageValue)) → S.is_honest window.old.source
        → AreIndexed links index.now (S.bytes window.old.source)
        → IsWritten (W.contents out.old) (W.contents out.new) (flat_map bytes_of_pages (finished_links links)) result }

    // Which fault, and when.
    ensures no_link { IfSome link (λ number. (result ≡ Err (Fault.Finish FinishFault.NoLink)) ↔ (length index.now.entries ≤ number)) }
    ensures there { link ≡ None → result ≢ Err (Fault.Finish FinishFault.NoLink) }
    ensures nothing { result ≡ Err (Fault.Finish FinishFault.NoLink) → Appends (W.contents out.old) (W.contents out.new) [] }
    ensures cause { (links : List (List PageValue)) → S.is_honest window.old.source
        → AreIndexed links index.now (S.bytes window.old.source) → result ≡ Err (Fault.Finish FinishFault.Source)
        → HasFailed (S.failures window.old.source) (S.failures window.new.source) }
    ensures source { KeepsSource S.bytes S.is_honest S.size S.only_reads window.old.source window.new.source }
{
    match link {
        Some(link) => match finish_link(window, index, link, marked, out) {
            Ok(_) => Ok(()),
            Err(fault) => Err(Fault::Finish(fault)),
        },
        None => match finish_file(window, index, marked, out) {
            Ok(()) => Ok(()),
            Err(fault) => Err(Fault::Finish(fault)),
        },
    }
}
