//! A listener joins the last link of a source.
ghost use Rattle.std.specs.Prelude.{◌≡◌, ◌⊎◌, ◌≤◌, ◌<◌, ◌^◌, List, [], Err, IfOk, IfErr};
ghost use Rattle.ogg_page.specs.Page.{Page};
ghost use Rattle.ogg_page.specs.Window.{KeepsSource};
ghost use Rattle.link_chain.specs.Links.{AreLinks};
ghost use Rattle.link_index.specs.Adding.{IsIndexOf};
ghost use Rattle.serve_sending.specs.Sending.{HasFailed};
ghost use Rattle.serve_live.specs.Hearing.{IsHearing};
ghost use Rattle.serve_live.specs.Live.{Moment};
ghost use Rattle.serve_live.specs.Places.{IsPlaceIn};
ghost use Rattle.serve_sessions.specs.Indexing.{IsOfFront};
ghost use Rattle.serve_sessions.specs.Joining.{fault_of_join};

use crate::indexing::bring_up;
use link_chain::bytes_are_one_chain;
use link_index::Index;
use ogg_page::{PageSource, Window};
use serve_live::{JoinFault, JoinPlace, Listener};
use serve_machine::HubFault;
use std::alloc::Global;

/// How a server reports that a listener can't join.
fn fault_of_join(fault: JoinFault) -> HubFault
    ensures { result ≡ fault_of_join fault }
{
    match fault {
        JoinFault::Source => HubFault::Source,
        JoinFault::Memory => HubFault::Memory,
    }
}

/// A listener that joins the last link of the source, of which the index has all pages.
fn join_source<S: PageSource>(
    source: &mut S,
    index: &Index,
    alloc: Global,
    place: JoinPlace,
) -> Result<Listener, HubFault>
    ensures joins { (links : List (List Page)) (moment : Moment) → S.is_honest source.old → AreLinks (S.bytes source.old) links
        → IsIndexOf links index.now → IsPlaceIn links moment place
        → IfOk result (λ listener. IsHearing moment (S.bytes source.old) listener []) }
    ensures cause { (links : List (List Page)) (moment : Moment) → S.is_honest source.old → AreLinks (S.bytes source.old) links
        → IsIndexOf links index.now → IsPlaceIn links moment place → result ≡ Err HubFault.Source
        → HasFailed (S.failures source.old) (S.failures source.new) }
    ensures faults { IfErr result (λ fault. (fault ≡ HubFault.Source) ⊎ (fault ≡ HubFault.Memory)) }
    ensures later { S.failures source.old ≤ S.failures source.new }
    ensures source { KeepsSource S.bytes S.is_honest S.size S.only_reads source.old source.new }
{
    let end = source.end();
    match Listener::join(alloc, source, place, end, index.last_streams()) {
        Ok(listener) => Ok(listener),
        Err(fault) => Err(fault_of_join(fault)),
    }
}

/// A listener that joins the source's last link, at a place that `Boundaries` of crate `serve_live` gave, once the
/// index is brought up to the end of the source. Memory is taken for that and for the link's streams.
///
/// After `Memory` or `Source`, a fault of the source, the index may have more pages than before, and the source was
/// only read.
pub fn join_in<S: PageSource>(
    window: &mut Window<S>,
    index: &mut Index,
    alloc: Global,
    place: JoinPlace,
) -> Result<Listener, HubFault>
    ensures joins { (links : List (List Page)) (moment : Moment) → S.is_honest window.old.source
        → IsOfFront (S.bytes window.old.source) index.old → AreLinks (S.bytes window.old.source) links → IsPlaceIn links moment place
        → IfOk result (λ listener. IsHearing moment (S.bytes window.old.source) listener []) }
    ensures cause { (links : List (List Page)) (moment : Moment) → S.is_honest window.old.source → S.size window.old.source < 2 ^ 63
        → IsOfFront (S.bytes window.old.source) index.old → AreLinks (S.bytes window.old.source) links → IsPlaceIn links moment place
        → result ≡ Err HubFault.Source → HasFailed (S.failures window.old.source) (S.failures window.new.source) }
    ensures front { S.is_honest window.old.source → IsOfFront (S.bytes window.old.source) index.old → IsOfFront (S.bytes window.old.source) index.new }
    ensures faults { IfErr result (λ fault. (fault ≡ HubFault.Source) ⊎ (fault ≡ HubFault.Memory)) }
    ensures later { S.failures window.old.source ≤ S.failures window.new.source }
    ensures source { KeepsSource S.bytes S.is_honest S.size S.only_reads window.old.source window.new.source }
{
    // For the proof alone.
    bytes_are_one_chain();
    match bring_up(window, index) {
        Ok(()) => join_source(window.source_mut(), index, alloc, place),
        Err(fault) => Err(fault),
    }
}
