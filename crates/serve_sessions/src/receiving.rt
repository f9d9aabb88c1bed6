//! What a session receives: the head of its request, to which a response is made.
ghost use Rattle.std.specs.Prelude.{◌≡◌, ◌≢◌, ◌↔◌, ◌⊎◌, ◌+◌, ◌++◌, ◌<◌, ℕ, List, None, Err, Option, true, IfOk, IfErr, length, option_map, vec_len, vec_capacity};
ghost use Rattle.serve_responses.specs.Response.{Asked, Asks, IsResponse, asked_by};
ghost use Rattle.serve_sending.specs.Sending.{IsLeft};
ghost use Rattle.serve_machine.specs.Hub.{HubState, Phase, Session as SessionOf, phase_of, receive_step};
ghost use Rattle.serve_sessions.specs.Indexing.{IsOfFront};
ghost use Rattle.serve_sessions.specs.Sessions.{AreInOrder, AreSessions, IdsRise, IsPhase, place_in};
ghost use Rattle.serve_sessions.specs.Serving.{HeadGets, LacksRoom, LacksRoomIn, PhaseGets, Indexes, fault_in};

use crate::indexing::bring_up;
use crate::session::{Session, Stage, end_after, place_among};
use link_index::Index;
use ogg_http::{HeadRead, Request};
use ogg_page::{PageSource, Window};
use serve_machine::{HubFault, Progress};
use serve_responses::find_head;
use serve_sending::Sending;
use std::alloc::Global;

/// The response to a request, or to what is no request, over all bytes of the source.
fn respond<S: PageSource>(
    window: &mut Window<S>,
    index: &mut Index,
    alloc: Global,
    request: Option<Request<'_>>,
) -> Result<Sending, HubFault>
    ensures response { S.is_honest window.old.source → IsOfFront (S.bytes window.old.source) index.old → (received : List ℕ)
        → Asks received (option_map asked_by request.entry) → IfOk result (λ sending. (response : List ℕ)
        × IsResponse (S.bytes window.old.source) received response × IsLeft (S.bytes window.old.source) sending response) }
    ensures faults { IfErr result (λ fault. (fault ≡ HubFault.Source) ⊎ (fault ≡ HubFault.Memory)) }
    ensures indexes { Indexes S.bytes S.is_honest S.size S.failures S.only_reads (fault_in result) window.old.source window.new.source index.old index.new }
{
    match bring_up(window, index) {
        Ok(()) => match Sending::of(alloc, request, index) {
            Ok(sending) => Ok(sending),
            Err(_) => Err(HubFault::Memory),
        },
        Err(fault) => Err(fault),
    }
}

/// Adds bytes to a head. If it is complete then, or hopeless, this returns the response. After a fault the head is as
/// it was.
fn receive_head<S: PageSource>(
    window: &mut Window<S>,
    index: &mut Index,
    alloc: Global,
    head: &mut Vec<u8>,
    bytes: &[u8],
) -> Result<Option<Sending>, HubFault>
    ensures head { S.is_honest window.old.source → IsOfFront (S.bytes window.old.source) index.old
        → HeadGets (S.bytes window.old.source) head.old.items bytes.now result head.new.items }
    // `Memory` comes if the head has no room for the bytes, or once they complete it.
    ensures memory { result ≡ Err HubFault.Memory → (vec_capacity head.old < vec_len head.old + length bytes.now)
        ⊎ ((asked : Option Asked) × Asks (head.old.items ++ bytes.now) asked) }
    ensures faults { IfErr result (λ fault. (fault ≡ HubFault.Source) ⊎ (fault ≡ HubFault.Memory)) }
    ensures indexes { Indexes S.bytes S.is_honest S.size S.failures S.only_reads (fault_in result) window.old.source window.new.source index.old index.new }
{
    let before = head.len();
    match head.extend_from_slice(bytes) {
        Ok(()) => {}
        Err(_) => return Err(HubFault::Memory),
    }
    let request = match find_head(head.as_slice()) {
        HeadRead::Partial => return Ok(None),
        HeadRead::Bad => None,
        HeadRead::Whole(request) => Some(request),
    };
    match respond(window, index, alloc, request) {
        Ok(sending) => Ok(Some(sending)),
        Err(fault) => {
            head.truncate(before);
            Err(fault)
        }
    }
}

/// Bytes have come to a session. What comes once its response is fixed is ignored.
pub(crate) fn receive_stage<S: PageSource>(
    window: &mut Window<S>,
    index: &mut Index,
    alloc: Global,
    stage: &mut Stage,
    bytes: &[u8],
) -> Result<Progress, HubFault>
    ensures phase { S.is_honest window.old.source → IsOfFront (S.bytes window.old.source) index.old
        → (phase : Phase) → IsPhase (S.bytes window.old.source) stage.old phase
        → (after : Phase) × IsPhase (S.bytes window.old.source) stage.new after × PhaseGets (S.bytes window.old.source) phase bytes.now result after }
    ensures memory { result ≡ Err HubFault.Memory → LacksRoom stage.old bytes.now }
    ensures faults { IfErr result (λ fault. (fault ≡ HubFault.Source) ⊎ (fault ≡ HubFault.Memory)) }
    ensures indexes { Indexes S.bytes S.is_honest S.size S.failures S.only_reads (fault_in result) window.old.source window.new.source index.old index.new }
{
    match stage {
        Stage::Response(_) => Ok(Progress::Ready),
        Stage::Head(head) => match receive_head(window, index, alloc, head, bytes) {
            Ok(None) => Ok(Progress::More),
            Ok(Some(sending)) => {
                *stage = Stage::Response(sending);
                Ok(Progress::Ready)
            }
            Err(fault) => Err(fault),
        },
    }
}

/// Takes further bytes of the request of the session with this number. The call that completes its head, or shows that
/// none can come, fixes the response, over all bytes of the source: it answers `Ready`, and each call before it `More`.
/// What comes later is ignored.
///
/// `NoSession` says that there is no session with this number; nothing is changed then. After `Memory` the session is
/// as it was, and the index may have more pages than before. After `Source`, a fault of the source, the session has
/// ended.
pub fn receive_in<S: PageSource>(
    window: &mut Window<S>,
    index: &mut Index,
    alloc: Global,
    sessions: &mut Vec<Session>,
    id: u64,
    bytes: &[u8],
) -> Result<Progress, HubFault>
    requires order { IdsRise sessions.old.items }
    ensures step { S.is_honest window.old.source → (machine : HubState) → S.bytes window.old.source ≡ machine.committed
        → IsOfFront machine.committed index.old → AreSessions machine.committed sessions.old.items machine.sessions
        → (left : List SessionOf) × AreSessions machine.committed sessions.new.items left
        × receive_step (phase_of machine id) true machine id bytes.now result (record machine { sessions = left }) }
    ensures memory { result ≡ Err HubFault.Memory → LacksRoomIn id sessions.old.items bytes.now }
    ensures order { (next : ℕ) → AreInOrder next sessions.old.items → AreInOrder next sessions.new.items }
    ensures no_session { (result ≡ Err HubFault.NoSession) ↔ (place_in id sessions.old.items ≡ None) }
    ensures some { (result ≢ Err HubFault.NoFile) × (result ≢ Err HubFault.SessionsFull) }
    ensures same { result ≡ Err HubFault.NoSession → (window.new.source ≡ window.old.source) × (index.new ≡ index.old) × (sessions.new.items ≡ sessions.old.items) }
    ensures capacity { vec_capacity sessions.new ≡ vec_capacity sessions.old }
    ensures indexes { Indexes S.bytes S.is_honest S.size S.failures S.only_reads (fault_in result) window.old.source window.new.source index.old index.new }
{
    let Some(place) = place_among(sessions, id) else {
        return Err(HubFault::NoSession);
    };
    match receive_stage(
        window,
        index,
        alloc,
        &mut sessions.as_mut_slice()[place].stage,
        bytes,
    ) {
        Ok(progress) => Ok(progress),
        Err(fault) => {
            end_after(fault, sessions, id);
            Err(fault)
        }
    }
}
