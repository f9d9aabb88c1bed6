//! The sessions of clients, in the order of their numbers.
ghost use Rattle.std.specs.Prelude.{IfSome, vec_len, vec_capacity, ◌≡◌, ◌<◌, ◌+◌, ◌++◌, ◌∷◌, [], ℕ, List};
ghost use Rattle.link_index.specs.Adding.{IndexState};
ghost use Rattle.serve_machine.specs.Hub.{Event, HubState, Session as SessionOf, Reading, hub_step, without_in};
ghost use Rattle.serve_sessions.specs.declared.session.Session.{Session as SessionParts};
ghost use Rattle.serve_sessions.specs.Indexing.{IsOfFront};
ghost use Rattle.serve_sessions.specs.Sessions.{AreInOrder, AreSessions, IdsRise, place_in};
ghost use Rattle.serve_sessions.specs.Serving.{left_after};

use serve_machine::{HubFault, committed_bytes_grow};
use serve_sending::{Sending, rests_of_responses_stay};
use std::alloc::Global;

/// How far a session has come.
#[derive(Debug, Drop)]
pub enum Stage {
    /// The head of its request isn't complete: what was received so far.
    Head(Vec<u8>),
    /// The response is sent: what is left of it.
    Response(Sending),
}

/// A session, by its number: the head of its request so far, or what is left of its response.
#[derive(Debug, Drop)]
pub struct Session {
    pub id: u64,
    pub stage: Stage,
}

/// The place of the session with this number, if there is one: it is found by halves. No memory is taken.
pub fn place_of(sessions: &[Session], id: u64) -> Option<usize>
    requires { IdsRise sessions.now }
    ensures { result ≡ place_in id sessions.now }
{
    match sessions.binary_search_by_key(&id, |session| session.id) {
        Ok(place) => Some(place),
        Err(_) => None,
    }
}

/// The same in the vector that keeps the sessions.
pub(crate) fn place_among(sessions: &Vec<Session>, id: u64) -> Option<usize>
    requires { IdsRise sessions.now.items }
    ensures place { result ≡ place_in id sessions.now.items }
    ensures inside { IfSome result (λ place. place < vec_len sessions.now) }
{
    place_of(sessions.as_slice(), id)
}

/// Adds a session that has received nothing, behind the others. There must be room for it: no memory is taken.
pub fn add_session(sessions: &mut Vec<Session>, id: u64, alloc: Global)
    requires { vec_len sessions.old < vec_capacity sessions.old }
    ensures items { (committed : List ℕ) (machine : List SessionOf) → AreSessions committed sessions.old.items machine
        → AreSessions committed sessions.new.items (machine ++ record { id = id; phase = Reading [] } ∷ []) }
    ensures order { AreInOrder id sessions.old.items → AreInOrder (id + 1) sessions.new.items }
    ensures capacity { vec_capacity sessions.new ≡ vec_capacity sessions.old }
{
    sessions.push_reserved(Session {
        id,
        stage: Stage::Head(Vec::new(alloc)),
    });
}

/// Takes out the session with this number, if there is one. The others stay as they are, in their order.
pub fn drop_session(sessions: &mut Vec<Session>, id: u64)
    requires { IdsRise sessions.old.items }
    ensures items { (committed : List ℕ) (machine : List SessionOf) → AreSessions committed sessions.old.items machine
        → AreSessions committed sessions.new.items (without_in id machine) }
    ensures order { (next : ℕ) → AreInOrder next sessions.old.items → AreInOrder next sessions.new.items }
    ensures capacity { vec_capacity sessions.new ≡ vec_capacity sessions.old }
{
    if let Some(place) = place_of(sessions.as_slice(), id) {
        let _ended = sessions.remove(place);
    }
}

/// Ends the session after a fault of its file.
pub(crate) fn end_after(fault: HubFault, sessions: &mut Vec<Session>, id: u64)
    requires { IdsRise sessions.old.items }
    ensures items { (committed : List ℕ) (machine : List SessionOf) → AreSessions committed sessions.old.items machine
        → AreSessions committed sessions.new.items (left_after fault id machine) }
    ensures order { (next : ℕ) → AreInOrder next sessions.old.items → AreInOrder next sessions.new.items }
    ensures capacity { vec_capacity sessions.new ≡ vec_capacity sessions.old }
{
    match fault {
        HubFault::Source => drop_session(sessions, id),
        _ => {}
    }
}

/// What is kept of sessions, and the index, stay true while the committed bytes grow.
pub fn sessions_stay()
    ensures { (before after : HubState) (event : Event) (index : IndexState) (parts : List SessionParts)
        → hub_step before event after → after.sessions ≡ before.sessions → IsOfFront before.committed index
        → AreSessions before.committed parts before.sessions
        → IsOfFront after.committed index × AreSessions after.committed parts after.sessions }
{
    committed_bytes_grow();
    rests_of_responses_stay();
}
