//! The index of a file is brought up to the end of its bytes.
ghost use Rattle.std.specs.Prelude.{◌≡◌, ◌⊎◌, ◌^◌, ◌<◌, ◌≤◌, List, IfErr, OnOk};
ghost use Rattle.ogg_page.specs.Page.{Page as PageValue};
ghost use Rattle.ogg_page.specs.Window.{KeepsSource};
ghost use Rattle.link_chain.specs.Links.{AreLinks};
ghost use Rattle.link_index.specs.Adding.{IndexState, IsIndexOf};
ghost use Rattle.serve_sending.specs.Sending.{HasFailed};
ghost use Rattle.serve_sessions.specs.Indexing.{IsOfFront, LacksRoom, result_of};

use link_chain::{ChainFault, PageTaker};
use link_index::{Index, links_are_indexed};
use ogg_page::{PageSource, Visit, Window, WindowFault, walk};
use serve_machine::HubFault;

/// A file has fewer bytes than this.
const LENGTHS: u64 = 1 << 63;

/// The result if the walk over the pages ended so, and this is the page that wasn't added.
fn result_of(
    walked: Result<Visit, WindowFault>,
    broken: Option<(u64, ChainFault)>,
) -> Result<(), HubFault>
    ensures { result ≡ result_of walked broken }
{
    match walked {
        Ok(Visit::GoesOn) => Ok(()),
        Ok(Visit::Ends) => match broken {
            Some((_, ChainFault::Memory)) => Err(HubFault::Memory),
            _ => Err(HubFault::Source),
        },
        Err(_) => Err(HubFault::Source),
    }
}

/// Adds the source's pages that the index doesn't have yet, and reads only these. After a fault the index has the
/// pages before it.
pub(crate) fn bring_up<S: PageSource>(
    window: &mut Window<S>,
    index: &mut Index,
) -> Result<(), HubFault>
    ensures front { S.is_honest window.old.source → IsOfFront (S.bytes window.old.source) index.old → IsOfFront (S.bytes window.old.source) index.new }
    ensures whole { S.is_honest window.old.source → IsOfFront (S.bytes window.old.source) index.old
        → OnOk result ((links : List (List PageValue)) × AreLinks (S.bytes window.old.source) links × IsIndexOf links index.new) }
    ensures faults { IfErr result (λ fault. (fault ≡ HubFault.Source) ⊎ (fault ≡ HubFault.Memory)) }

    // In a file of links `Source` comes only from a read that failed.
    ensures cause { result ≡ Err HubFault.Source → S.is_honest window.old.source → S.size window.old.source < 2 ^ 63
        → IsOfFront (S.bytes window.old.source) index.old → (links : List (List PageValue)) → AreLinks (S.bytes window.old.source) links
        → HasFailed (S.failures window.old.source) (S.failures window.new.source) }
    // `Memory` comes only from the index.
    ensures memory { result ≡ Err HubFault.Memory → (page : PageValue) × (before : IndexState) × LacksRoom page before index.new }

    ensures later { S.failures window.old.source ≤ S.failures window.new.source }
    ensures source { KeepsSource S.bytes S.is_honest S.size S.only_reads window.old.source window.new.source }
{
    // For the proof alone.
    links_are_indexed();
    let end = window.source_mut().end();
    if end >= LENGTHS || index.end() > end {
        return Err(HubFault::Source);
    }
    window.set(index.end(), end);
    let mut taker = PageTaker::of(index);
    let walked = walk(window, &mut taker);
    result_of(walked, taker.broken())
}
