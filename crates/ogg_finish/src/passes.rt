//! The two passes over a window's pages: one notes the ends of streams, the other writes.
ghost use Rattle.std.specs.Prelude.{◌≡◌, ◌≢◌, ◌⊎◌, ◌≤◌, ◌<◌, ◌^◌, ◌-◌, List, None, Err, IfErr, OnOk, OnErr};
ghost use Rattle.std.specs.List.{AllByRecursion};
ghost use Rattle.ogg_page.specs.Page.{Page as PageValue, IsPage, bytes_of_pages};
ghost use Rattle.ogg_page.specs.Window.{KeepsSource, left_of, HasFailed};
ghost use Rattle.ogg_split.specs.Copying.{IsCopy};
ghost use Rattle.ogg_finish.specs.Ends.{ends_after, finished_by};

use crate::fault::FinishFault;
use crate::stream_end::{StreamEnd, mark_for, note_page};
use crate::writing::write_page;
use ogg_page::{Page, PageBuffer, PageSource, PageVisitor, Visit, Window, walk};
use std::io::Write;

/// Reads all of the window's pages, and notes the ends of streams.
pub fn find_ends<S: PageSource>(
    window: &mut Window<S>,
    ends: &mut [StreamEnd],
) -> Result<(), FinishFault>
    requires fresh { window.old.fault ≡ None }
    requires order { window.old.at ≤ window.old.to }
    ensures found { (pages : List PageValue) → S.is_honest window.old.source → AllByRecursion IsPage pages
        → (left_of S.bytes window.old).bytes ≡ bytes_of_pages pages → OnOk result (ends.new ≡ ends_after pages ends.old) }
    ensures cause { (pages : List PageValue) → S.is_honest window.old.source → AllByRecursion IsPage pages
        → (left_of S.bytes window.old).bytes ≡ bytes_of_pages pages → OnErr result
        (HasFailed (S.failures window.old.source) (S.failures window.new.source)) }
    ensures err { IfErr result (λ fault. fault ≡ FinishFault.Source) }
    ensures later { S.failures window.old.source ≤ S.failures window.new.source }
    ensures source { KeepsSource S.bytes S.is_honest S.size S.only_reads window.old.source window.new.source }
{
    let mut noting = Noting { ends };
    match walk(window, &mut noting) {
        Ok(_) => Ok(()),
        Err(_) => Err(FinishFault::Source),
    }
}

/// Notes the ends of streams from the pages it is shown.
#[derive(Drop)]
struct Noting<'a> {
    ends: &'a mut [StreamEnd],
}

impl<'a> PageVisitor for Noting<'a> {
    ghost use Rattle.ogg_finish.specs.Ends.{NotesPage};

    ghost sees = { NotesPage (λ n. n.ends) };

    fn see(&mut self, _: u64, page: &Page<'_>) -> Visit {
        note_page(self.ends, page);
        Visit::GoesOn
    }
}

/// Writes the window's pages as they are in the finished link.
pub fn write_finished<S: PageSource, W: Write>(
    window: &mut Window<S>,
    ends: &[StreamEnd],
    buffer: &mut PageBuffer,
    out: &mut W,
) -> Result<u64, FinishFault>
    requires fresh { window.old.fault ≡ None }
    requires order { window.old.at ≤ window.old.to }
    requires short { window.old.to < 2 ^ 64 }
    ensures copied { (pages : List PageValue) → S.is_honest window.old.source → AllByRecursion IsPage pages
        → (left_of S.bytes window.old).bytes ≡ bytes_of_pages pages
        → IsCopy (W.contents out.old) (W.contents out.new) (bytes_of_pages (finished_by ends.now pages)) result }
    ensures cause { (pages : List PageValue) → S.is_honest window.old.source → AllByRecursion IsPage pages
        → (left_of S.bytes window.old).bytes ≡ bytes_of_pages pages → result ≡ Err FinishFault.Source
        → HasFailed (S.failures window.old.source) (S.failures window.new.source) }
    ensures there { result ≢ Err FinishFault.NoLink }
    ensures later { S.failures window.old.source ≤ S.failures window.new.source }
    ensures source { KeepsSource S.bytes S.is_honest S.size S.only_reads window.old.source window.new.source }
{
    let mut finisher = Finisher {
        ends,
        buffer,
        out,
        count: 0,
    };
    match walk(window, &mut finisher) {
        Ok(visit) => match visit {
            Visit::GoesOn => Ok(finisher.count),
            Visit::Ends => Err(FinishFault::Write),
        },
        Err(_) => Err(FinishFault::Source),
    }
}

/// Writes the pages it is shown as they are in the finished link, up to the first that isn't written as a whole.
#[derive(Drop)]
struct Finisher<'a, W: Write> {
    ends: &'a [StreamEnd],
    buffer: &'a mut PageBuffer,
    out: &'a mut W,
    count: u64,
}

impl<'a, W: Write> PageVisitor for Finisher<'a, W> {
    ghost use Rattle.ogg_split.specs.Copying.{CopiesPart};
    ghost use Rattle.ogg_finish.specs.Ends.{finished_part};

    ghost sees = { CopiesPart W.contents (λ f. f.out) (λ f. f.count) (λ f. finished_part f.ends.now) };

    fn see(&mut self, _: u64, page: &Page<'_>) -> Visit {
        match write_page(
            page,
            mark_for(self.ends, page.serial()),
            self.buffer,
            self.out,
        ) {
            Ok(size) => {
                self.count = self.count.saturating_add(size);
                Visit::GoesOn
            }
            Err(_) => Visit::Ends,
        }
    }
}
