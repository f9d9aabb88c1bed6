//! A visitor that hands the pages of a walk to what takes them in turn.
ghost use Rattle.std.specs.Prelude.{◌≡◌, None, OnOk, IfErr};
ghost use Rattle.link_chain.specs.Taker.{IsLeft, IsShort};
ghost use Rattle.link_chain.specs.Taking.{IsTaken};

use crate::chain_fault::ChainFault;
use crate::in_turn::TakesInTurn;
use ogg_page::{Page, PageVisitor, Visit};

/// A bitstream has fewer bytes than this.
const LENGTHS: u64 = 1 << 63;

/// Hands the pages that it is shown to what takes them. At the first page that isn't taken it ends, and keeps the
/// page's offset and the fault. A page with which there would be 2^63 bytes or more isn't taken: nothing has room for
/// it, so this is `Memory`.
#[derive(Debug, Drop)]
pub struct PageTaker<'a, T: TakesInTurn> {
    taken: &'a mut T,
    broken: Option<(u64, ChainFault)>,
}

impl<'a, T: TakesInTurn> PageTaker<'a, T> {
    /// Hands pages to this.
    pub fn of(taken: &'a mut T) -> PageTaker<'a, T>
        ensures taken { result.taken ≡ taken.entry }
        ensures broken { result.broken ≡ None }
    {
        PageTaker {
            taken,
            broken: None,
        }
    }

    /// Where the page stands that wasn't taken, and why not. There is one if the visitor has ended.
    pub fn broken(&self) -> Option<(u64, ChainFault)>
        ensures { result ≡ self.now.broken }
    {
        self.broken
    }
}

impl<'a, T: TakesInTurn> PageVisitor for PageTaker<'a, T> {
    ghost use Rattle.link_chain.specs.Taker.{HandsPage};

    ghost sees = { HandsPage T.TakesInTurn (λ t. t.taken) (λ t. t.broken) };

    fn see(&mut self, offset: u64, page: &Page<'_>) -> Visit {
        match take_short(self.taken, page) {
            Ok(()) => Visit::GoesOn,
            Err(fault) => {
                self.broken = Some((offset, fault));
                Visit::Ends
            }
        }
    }
}

/// Has the page taken. If there are 2^63 bytes or more with it, nothing has room for it.
fn take_short<T: TakesInTurn>(taken: &mut T, page: &Page<'_>) -> Result<(), ChainFault>
    ensures short { OnOk result (IsShort T.TakesInTurn taken.old page.now) }
    ensures taken { OnOk result (IsTaken T.is_of T.size taken.old page.now taken.new) }
    ensures left { IfErr result (λ fault. IsLeft T.TakesInTurn taken.old page.now fault taken.new) }
{
    let size = page.whole().len() as u64;
    if size >= LENGTHS.saturating_sub(taken.size()) {
        return Err(ChainFault::Memory);
    }
    taken.take(page)
}
