//! The end of a page, as its head says it.
ghost use Rattle.std.specs.Prelude.{◌≡◌, ◌+◌, ◌^◌, ◌<◌, ◌≤◌, drop, IfOk, IsErr};
ghost use Rattle.ogg_page.specs.Page.{Page};
ghost use Rattle.ogg_page.specs.Window.{KeepsSource};
ghost use Rattle.serve_sending.specs.Sending.{HasFailed};
ghost use Rattle.ogg_page.specs.Head.{Stands};
ghost use Rattle.serve_sending.specs.Extent.{extent_of};

use ogg_page::{PageSource, SourceFault};
use page_heads::read_front;

/// The stream that a page is of, and how many bytes the page has.
#[derive(Clone, Copy, Debug, PartialEq, Eq)]
pub struct Extent {
    pub serial: u32,
    pub size: u64,
}

/// Reads the head of the page at the place.
pub fn read_extent<S: PageSource>(source: &mut S, place: u64) -> Result<Extent, SourceFault>
    ensures read { (page : Page) → S.is_honest source.old → Stands (drop place (S.bytes source.old)) page
        → IfOk result (λ extent. extent ≡ extent_of page) }
    ensures cause { (page : Page) → S.is_honest source.old → Stands (drop place (S.bytes source.old)) page → IsErr result
        → HasFailed (S.failures source.old) (S.failures source.new) }
    ensures inside { IfOk result (λ extent. place + extent.size ≤ S.size source.old) }
    ensures short { IfOk result (λ extent. place + extent.size < 2 ^ 64) }
    ensures some { IfOk result (λ extent. 0 < extent.size) }
    ensures later { S.failures source.old ≤ S.failures source.new }
    ensures source { KeepsSource S.bytes S.is_honest S.size S.only_reads source.old source.new }
{
    match read_front(source, place) {
        Ok(front) => Ok(Extent {
            serial: front.facts.serial,
            size: front.facts.size,
        }),
        Err(fault) => Err(fault),
    }
}
