//! What a session pulls: the rest of its response.
ghost use Rattle.std.specs.Prelude.{◌≡◌, ◌≢◌, ◌↔◌, ◌≤◌, ℕ, List, None, Err, true, IfOk, IfErr, length, vec_capacity};
ghost use Rattle.ogg_page.specs.Window.{KeepsSource};
ghost use Rattle.serve_sending.specs.Sending.{HasFailed};
ghost use Rattle.serve_machine.specs.Calls.{given_in};
ghost use Rattle.serve_machine.specs.Hub.{HubState, Phase, Session as SessionOf, phase_of, pull_step};
ghost use Rattle.serve_sessions.specs.Sessions.{AreInOrder, AreSessions, IdsRise, IsPhase, place_in};
ghost use Rattle.serve_sessions.specs.Serving.{PhaseGives};

use crate::session::{Session, Stage, end_after, place_among};
use ogg_page::{PageSource, Window};
use serve_machine::{HubFault, Pulled};

/// Fills the buffer with the first bytes of a session's rest. There is no rest before the session's head is complete.
pub(crate) fn pull_stage<S: PageSource>(
    window: &mut Window<S>,
    stage: &mut Stage,
    buffer: &mut [u8],
) -> Result<Pulled, HubFault>
    ensures phase { S.is_honest window.old.source → (phase : Phase) → IsPhase (S.bytes window.old.source) stage.old phase
        → (after : Phase) × IsPhase (S.bytes window.old.source) stage.new after
        × PhaseGives phase (length buffer.old) (given_in buffer.new result) after }
    ensures cause { result ≡ Err HubFault.Source → S.is_honest window.old.source → (phase : Phase) → IsPhase (S.bytes window.old.source) stage.old phase
        → HasFailed (S.failures window.old.source) (S.failures window.new.source) }
    ensures faults { IfErr result (λ fault. fault ≡ HubFault.Source) }
    ensures within { IfOk result (λ pulled. pulled.count ≤ length buffer.old) }
    ensures later { S.failures window.old.source ≤ S.failures window.new.source }
    ensures source { KeepsSource S.bytes S.is_honest S.size S.only_reads window.old.source window.new.source }
{
    match stage {
        Stage::Head(_) => Ok(Pulled {
            count: 0,
            done: false,
        }),
        Stage::Response(sending) => match sending.pull(window, buffer) {
            Ok(pulled) => Ok(pulled),
            Err(_) => Err(HubFault::Source),
        },
    }
}

/// Fills the buffer with the next bytes of the session with this number, as many as it holds, or all that are left:
/// `count` is how many these are, and `done` says that none is left then. Before the session's head is complete there
/// are no such bytes. No memory is taken.
///
/// `NoSession` says that there is no session with this number; nothing is changed then. After `Source`, a fault of the
/// source, the session has ended.
pub fn pull_in<S: PageSource>(
    window: &mut Window<S>,
    sessions: &mut Vec<Session>,
    id: u64,
    buffer: &mut [u8],
) -> Result<Pulled, HubFault>
    requires order { IdsRise sessions.old.items }
    ensures step { S.is_honest window.old.source → (machine : HubState) → S.bytes window.old.source ≡ machine.committed
        → AreSessions machine.committed sessions.old.items machine.sessions
        → (left : List SessionOf) × AreSessions machine.committed sessions.new.items left
        × pull_step (phase_of machine id) true machine id (length buffer.old) (given_in buffer.new result) (record machine { sessions = left }) }
    ensures order { (next : ℕ) → AreInOrder next sessions.old.items → AreInOrder next sessions.new.items }
    ensures no_session { (result ≡ Err HubFault.NoSession) ↔ (place_in id sessions.old.items ≡ None) }
    ensures some { (result ≢ Err HubFault.NoFile) × (result ≢ Err HubFault.SessionsFull) }
    ensures same { result ≡ Err HubFault.NoSession → (window.new.source ≡ window.old.source) × (sessions.new.items ≡ sessions.old.items) }
    ensures cause { result ≡ Err HubFault.Source → S.is_honest window.old.source → (machine : HubState) → S.bytes window.old.source ≡ machine.committed
        → AreSessions machine.committed sessions.old.items machine.sessions
        → HasFailed (S.failures window.old.source) (S.failures window.new.source) }
    ensures room { result ≢ Err HubFault.Memory }
    ensures capacity { vec_capacity sessions.new ≡ vec_capacity sessions.old }
    ensures within { IfOk result (λ pulled. pulled.count ≤ length buffer.old) }
    ensures later { S.failures window.old.source ≤ S.failures window.new.source }
    ensures source { KeepsSource S.bytes S.is_honest S.size S.only_reads window.old.source window.new.source }
{
    let Some(place) = place_among(sessions, id) else {
        return Err(HubFault::NoSession);
    };
    match pull_stage(window, &mut sessions.as_mut_slice()[place].stage, buffer) {
        Ok(pulled) => Ok(pulled),
        Err(fault) => {
            end_after(fault, sessions, id);
            Err(fault)
        }
    }
}
