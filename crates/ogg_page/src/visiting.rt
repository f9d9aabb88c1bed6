//! Whoever is shown the pages of a window as they pass, and the one loop over them.
ghost use Rattle.std.specs.Prelude.{◌≡◌, None};
ghost use Rattle.ogg_page.specs.Window.{LentAt, KeepsSource, HasSourceCause};
ghost use Rattle.ogg_page.specs.Visiting.{HasWalked};
ghost use Rattle.ogg_page.specs.declared.visiting.Visit.{Visit as VisitOf};

use crate::fault::WindowFault;
use crate::page::Page;
use crate::source::PageSource;
use crate::window::Window;

/// Whether a visitor goes on to the next page.
#[derive(Clone, Copy, Debug, PartialEq, Eq)]
pub enum Visit {
    /// It is shown the next page.
    GoesOn,
    /// It is shown no further page.
    Ends,
}

/// Whoever is shown pages, one after the other, in the order in which they stand.
pub trait PageVisitor {
    /// What the visitor is after it was shown a page that begins at this offset, and whether it goes on.
    ghost sees: { Self → LentAt → VisitOf → Self → Type 0 };

    /// Shows the visitor a page.
    fn see(&mut self, offset: u64, page: &Page<'_>) -> Visit
        ensures { sees self.old (offset, page.now) result self.new };
}

/// Shows the pages of the window's range to the visitor, up to the page at which it ends, which is lent then, or to
/// the range's end or its first fault. `GoesOn` is the answer if all pages have passed.
pub fn walk<S: PageSource, V: PageVisitor>(
    window: &mut Window<S>,
    visitor: &mut V,
) -> Result<Visit, WindowFault>
    ensures walked { HasWalked S.bytes S.is_honest S.size S.failures S.only_reads V.sees window.old visitor.old
        result window.new visitor.new }
    ensures source { KeepsSource S.bytes S.is_honest S.size S.only_reads window.old.source window.new.source }
    ensures cause { window.old.fault ≡ None
        → HasSourceCause (S.failures window.old.source) (S.failures window.new.source) result }
{
    'pages: loop {
        if let Err(fault) = window.advance() {
            return Err(fault);
        }
        match window.lent() {
            Some((offset, page)) => match visitor.see(offset, &page) {
                Visit::GoesOn => {}
                Visit::Ends => return Ok(Visit::Ends),
            },
            None => return Ok(Visit::GoesOn),
        }
    }
}
