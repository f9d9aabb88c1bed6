//! The one pass over the pages of a file that finds where they end, and whoever is shown them in it.
ghost use Rattle.std.specs.Prelude.{◌≡◌, None, List};
ghost use Rattle.std.specs.List.{AllByRecursion};
ghost use Rattle.ogg_page.specs.Page.{Page as PageValue, IsPage};
ghost use Rattle.ogg_page.specs.Window.{KeepsSource, HasSourceCause, left_of};
ghost use Rattle.gate_file.specs.Visiting.{EndsAfter, HasPassed};

use ogg_page::{Page, PageSource, PageVisitor, Visit, Window, WindowFault, walk};

/// A visitor that ignores every page.
#[derive(Drop)]
pub(crate) struct Nobody;

impl PageVisitor for Nobody {
    ghost use Rattle.std.specs.Prelude.{◌≡◌};
    ghost use Rattle.ogg_page.specs.declared.visiting.Visit.TheVariants.{GoesOn};

    ghost sees = { λ _ _ visit _. visit ≡ GoesOn };

    fn see(&mut self, _: u64, _: &Page<'_>) -> Visit {
        Visit::GoesOn
    }
}

/// Passes the pages of the window's range, up to the range's end or the first fault. The visitor is shown them up to
/// the one at which it ends.
pub(crate) fn pass_all<S: PageSource, V: PageVisitor>(
    window: &mut Window<S>,
    visitor: &mut V,
) -> Result<(), WindowFault>
    requires fresh { window.old.fault ≡ None }
    ensures passed { HasPassed V.sees visitor.old visitor.new (S.is_honest window.old.source) (left_of S.bytes window.old) result }
    ensures source { KeepsSource S.bytes S.is_honest S.size S.only_reads window.old.source window.new.source }
    ensures cause { HasSourceCause (S.failures window.old.source) (S.failures window.new.source) result }
{
    match walk(window, visitor) {
        Ok(visit) => match visit {
            Visit::GoesOn => Ok(()),
            Visit::Ends => pass_rest(window),
        },
        Err(fault) => Err(fault),
    }
}

/// Passes the pages that are left.
fn pass_rest<S: PageSource>(window: &mut Window<S>) -> Result<(), WindowFault>
    requires fresh { window.old.fault ≡ None }
    ensures ends { (pages : List PageValue) × AllByRecursion IsPage pages
        × (S.is_honest window.old.source → EndsAfter pages (left_of S.bytes window.old) result) }
    ensures source { KeepsSource S.bytes S.is_honest S.size S.only_reads window.old.source window.new.source }
    ensures cause { HasSourceCause (S.failures window.old.source) (S.failures window.new.source) result }
{
    match walk(window, &mut Nobody) {
        Ok(_) => Ok(()),
        Err(fault) => Err(fault),
    }
}
