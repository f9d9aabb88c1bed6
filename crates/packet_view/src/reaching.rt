//! From page to page of one stream, through a window.
ghost use Rattle.std.specs.Prelude.{◌≡◌, ◌<◌, ◌↔◌, IsTrue, None, length};
ghost use Rattle.packet_view.specs.Cut.{IsCut, HasReached, at_front};
ghost use Rattle.packet_view.specs.Packets.{behind_page};
ghost use Rattle.packet_view.specs.Searching.{start};
ghost use Rattle.packet_view.specs.Stream.{fault_of_window};

use crate::cut::{Cut, Progress};
use crate::fault::{StreamFault, ViewFault};
use crate::place::Behind;
use crate::walking::misplaced;
use ogg_page::{Page, PageSource, PageVisitor, Visit, Window, WindowFault, walk};

/// Goes to the stream's next page that has lacing values, if none are left of the page that is lent; `None` at the
/// end of the range.
pub(crate) fn reach<S: PageSource>(
    window: &mut Window<S>,
    serial: u32,
    progress: Progress,
) -> Result<Option<Progress>, StreamFault>
    requires { IsCut window.old.fault window.old.lent progress.cut }
    ensures { HasReached S.bytes S.is_honest S.size S.failures S.only_reads serial progress window.old result window.new }
{
    match progress.cut {
        Some(_) => Ok(Some(progress)),
        None => go_on(window, serial, progress),
    }
}

/// Goes to the stream's next page that has lacing values.
fn go_on<S: PageSource>(
    window: &mut Window<S>,
    serial: u32,
    progress: Progress,
) -> Result<Option<Progress>, StreamFault>
    requires { progress.cut ≡ None }
    ensures { HasReached S.bytes S.is_honest S.size S.failures S.only_reads serial progress window.old result window.new }
{
    let mut search = start(serial, progress);
    match walk(window, &mut search) {
        Ok(_) => search.found.map_err(StreamFault::View),
        Err(fault) => Err(of_window(fault)),
    }
}

/// The search for the stream's next page that has lacing values.
#[derive(Drop)]
struct Search {
    serial: u32,
    /// What the stream's next page must fit.
    behind: Behind,
    /// Whether the pages so far leave a packet unfinished.
    unfinished: bool,
    /// What the search comes to if no further page is shown.
    found: Result<Option<Progress>, ViewFault>,
}

impl PageVisitor for Search {
    ghost use Rattle.packet_view.specs.Searching.{Passes};

    ghost sees = { Passes };

    fn see(&mut self, offset: u64, page: &Page<'_>) -> Visit {
        if page.serial() != self.serial {
            return Visit::GoesOn;
        }
        if let Some(fault) = misplaced(self.behind, self.unfinished, offset, page) {
            self.found = Err(fault);
            return Visit::Ends;
        }
        self.behind = behind_page(page);
        if !has_values(page) {
            return Visit::GoesOn;
        }
        self.found = Ok(Some(at_front(self.behind, self.unfinished)));
        Visit::Ends
    }
}

/// A search that was shown no page.
fn start(serial: u32, progress: Progress) -> Search
    ensures { result ≡ start serial progress }
{
    Search {
        serial,
        behind: progress.behind,
        unfinished: progress.unfinished,
        found: if progress.unfinished {
            Err(ViewFault::Unfinished)
        } else {
            Ok(None)
        },
    }
}

/// What a window's fault is to a stream.
fn of_window(fault: WindowFault) -> StreamFault
    ensures { result ≡ fault_of_window fault }
{
    match fault {
        WindowFault::Source => StreamFault::Source,
        WindowFault::Page(offset, fault) => StreamFault::View(ViewFault::Page(offset, fault)),
    }
}

/// Whether a page has lacing values.
fn has_values(page: &Page<'_>) -> bool
    ensures { IsTrue result ↔ (0 < length page.now.lacing) }
{
    !page.lacing().is_empty()
}

/// A page of which nothing is read.
fn at_front(behind: Behind, unfinished: bool) -> Progress
    ensures { result ≡ at_front behind unfinished }
{
    Progress {
        behind,
        unfinished,
        cut: Some(Cut {
            values: 0,
            bytes: 0,
        }),
    }
}

/// What the page that follows this one must fit.
fn behind_page(page: &Page<'_>) -> Behind
    ensures { result ≡ behind_page page.now }
{
    Behind {
        number: Some(u64::from(page.sequence()) + 1),
        ended: page.is_last(),
    }
}
