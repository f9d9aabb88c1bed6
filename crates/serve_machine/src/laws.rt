//! What always holds of the sessions of a hub.
ghost use Rattle.std.specs.Prelude.{◌≡◌, ◌≢◌, ◌↔◌, ◌⊎◌, ◌<◌, ◌≤◌, ◌^◌, ◌++◌, [], ℕ, List, Option, Some, None, IsSome, Result, Ok, Err, false, length, ⊤};
ghost use Rattle.std.specs.List.{AllByRecursion, range_with_len};
ghost use Rattle.ogg_command.specs.declared.command.Command.{Command};
ghost use Rattle.ogg_command.specs.declared.refusal.Refusal.{Refusal};
ghost use Rattle.ogg_command.specs.declared.refusal.Refusal.TheVariants.{Memory as NoRoom, Disk};
ghost use Rattle.feed_replies.specs.declared.reply.Kept.{Kept};
ghost use Rattle.feed_replies.specs.declared.outcome.Outcome.{Outcome};
ghost use Rattle.serve_responses.specs.Response.{Asked, Asks, AsksOrWaits, IsResponse};
ghost use Rattle.serve_machine.specs.declared.fault.HubFault.{HubFault as HubFaultOf};
ghost use Rattle.serve_machine.specs.declared.fault.HubFault.TheVariants.{NoSession, SessionsFull, Source, Memory, NoFile};
ghost use Rattle.serve_machine.specs.declared.answers.Progress.{Progress as ProgressOf};
ghost use Rattle.serve_machine.specs.Hub.{HubState, IsNew, IsNewFor, Given, Event, Reading, Sending, Connect, Receive, Pull, Close, Record, Flush, Reopen, MayBeFound, hub_step, phase_of, most_sessions};
ghost use Rattle.serve_machine.specs.Run.{Step, AreSteps, IsUnused, own_calls, committed_at_head, pulled, session_of, IsServed, all_connected};
ghost use Rattle.serve_machine.specs.Own.{AreNumbered, HasReceived, HasPulled, KeepsFile};
ghost use Rattle.serve_machine.specs.Sound.{Extends, HasCommand, IsSound};

use chain_rules::{command_adds_its_packets, refusals_are_of_the_table};
use link_chain::bytes_are_one_chain;
use serve_responses::responses_are_unambiguous;

/// Whichever calls come, in any order, what a session pulls is the front of one response: that to its request, over
/// the bytes that were committed when its head was complete. The front is as long as the session's buffers allow, and
/// all of the response if a pull said so.
pub fn sessions_get_their_responses()
    ensures served { (start : HubState) (steps : List Step) (id : ℕ) → IsUnused start id → AreSteps start steps
        → IsServed id steps }
    // A new hub has given no number.
    ensures from_new { (start : HubState) (steps : List Step) (id : ℕ) → IsNew start → AreSteps start steps
        → IsServed id steps }
    ensures from_new_for { (room : ℕ) (start : HubState) (steps : List Step) (id : ℕ) → IsNewFor room start
        → AreSteps start steps → IsServed id steps }
    // Two sessions, of one hub or of two, pull the same if their own calls are the same, and the same was committed
    // when their heads were complete, whatever other sessions and the recorder do.
    ensures alone { (start other_start : HubState) (steps other_steps : List Step) (id other : ℕ)
        → IsUnused start id → AreSteps start steps → IsUnused other_start other → AreSteps other_start other_steps
        → own_calls id steps ≡ own_calls other other_steps
        → committed_at_head id steps ≡ committed_at_head other other_steps
        → pulled id steps ≡ pulled other other_steps }
{
    responses_are_unambiguous();
}

/// A call changes only its own session.
pub fn other_sessions_stay()
    ensures { (old new : HubState) (event : Event) (id : ℕ) → hub_step old event new → session_of event ≢ Some id
        → phase_of new id ≡ phase_of old id }
{}

/// What a call does to its own session. A session that was connected has received nothing. What a session receives
/// is added to its head, until its response is fixed. A pull gives the session the front of what is left. The
/// session ends when it is closed. None of these calls changes the file, or what waits for it.
pub fn calls_move_their_session()
    ensures connect { (old new : HubState) (id : ℕ) → hub_step old (Connect (Ok id)) new → phase_of old id ≡ None
        → phase_of new id ≡ Some (Reading []) }
    ensures receive { (old new : HubState) (id : ℕ) (received bytes : List ℕ) (progress : ProgressOf)
        → phase_of old id ≡ Some (Reading received) → hub_step old (Receive id bytes (Ok progress)) new
        → HasReceived old id (received ++ bytes) progress new }
    ensures pull { (old new : HubState) (id size : ℕ) (rest : List ℕ) (given : Given)
        → phase_of old id ≡ Some (Sending rest) → hub_step old (Pull id size (Ok given)) new → HasPulled id rest size given new }
    ensures close { (old new : HubState) (id : ℕ) (answer : Result ⊤ HubFaultOf) → hub_step old (Close id answer) new
        → phase_of new id ≡ None }
    ensures file { (old new : HubState) (event : Event) (id : ℕ) → hub_step old event new → session_of event ≡ Some id
        → KeepsFile old new }
{}

/// The numbers that are given to sessions rise one by one, so that none is given twice.
pub fn numbers_are_given_once()
    ensures { (start : HubState) (steps : List Step) → AreSteps start steps
        → all_connected steps ≡ range_with_len start.next_id (length (all_connected steps)) }
{}

/// Each session has a number that was given, if it was so at first, and so no session has the next number.
pub fn sessions_are_numbered()
    ensures new { (hub : HubState) → IsNew hub → AreNumbered hub }
    ensures new_for { (room : ℕ) (hub : HubState) → IsNewFor room hub → AreNumbered hub }
    ensures kept { (old new : HubState) (event : Event) → hub_step old event new → AreNumbered old → AreNumbered new }
    ensures unused { (hub : HubState) → AreNumbered hub → IsUnused hub hub.next_id }
{}

/// There are never more sessions than a hub has room for at first, and no call changes this number. So a hub that was
/// made for 64 never has more than 64.
pub fn sessions_are_few()
    ensures few { (start : HubState) (steps : List Step) → length start.sessions ≤ start.room → AreSteps start steps
        → AllByRecursion (λ (step : Step). length step.after.sessions ≤ start.room) steps }
    ensures new { (start : HubState) (steps : List Step) → IsNew start → AreSteps start steps
        → AllByRecursion (λ (step : Step). length step.after.sessions ≤ most_sessions) steps }
    ensures new_for { (room : ℕ) (start : HubState) (steps : List Step) → IsNewFor room start → AreSteps start steps
        → AllByRecursion (λ (step : Step). length step.after.sessions ≤ room) steps }
    ensures room { (old new : HubState) (event : Event) → hub_step old event new → new.room ≡ old.room }
{}

/// `SessionsFull`, `NoSession` and `NoFile` are answered exactly if the hub is so: it is full, has no such session,
/// or has no file.
pub fn refusals_are_exact()
    ensures connect { (old new : HubState) (answer : Result ℕ HubFaultOf) → hub_step old (Connect answer) new
        → (answer ≡ Err SessionsFull) ↔ ((old.room ≤ length old.sessions) ⊎ (2 ^ 64 ≤ old.next_id)) }
    ensures receive { (old new : HubState) (id : ℕ) (bytes : List ℕ) (answer : Result ProgressOf HubFaultOf)
        → hub_step old (Receive id bytes answer) new
        → ((answer ≡ Err NoSession) ↔ (phase_of old id ≡ None))
        × ((answer ≡ Err NoFile) ↔ (IsSome (phase_of old id) × (old.has_file ≡ false))) }
    ensures pull { (old new : HubState) (id size : ℕ) (answer : Result Given HubFaultOf)
        → hub_step old (Pull id size answer) new
        → ((answer ≡ Err NoSession) ↔ (phase_of old id ≡ None))
        × ((answer ≡ Err NoFile) ↔ (IsSome (phase_of old id) × (old.has_file ≡ false))) }
    ensures close { (old new : HubState) (id : ℕ) (answer : Result ⊤ HubFaultOf) → hub_step old (Close id answer) new
        → (answer ≡ Err NoSession) ↔ (phase_of old id ≡ None) }
{}

/// Committed bytes stay in front, whichever calls come. If they hold a recording at first, with what waits and with
/// the group in doubt, they do after each step, and then whatever is asked has a response.
pub fn committed_bytes_grow()
    ensures grows { (start : HubState) (steps : List Step) → AreSteps start steps
        → AllByRecursion (λ (step : Step). Extends start.committed step.after.committed) steps }
    ensures sound { (start : HubState) (steps : List Step) → IsSound start
        → AllByRecursion (λ (step : Step). HasCommand step.event) steps → AreSteps start steps
        → AllByRecursion (λ (step : Step). IsSound step.after) steps }
    ensures answered { (hub : HubState) (received : List ℕ) (asked : Option Asked) → IsSound hub → Asks received asked
        → (bytes : List ℕ) × IsResponse hub.committed received bytes }
{
    bytes_are_one_chain();
    command_adds_its_packets();
}

/// Each call has an answer other than want of memory and a fault of the disk, so the steps ask nothing impossible of
/// a hub.
pub fn calls_can_be_answered()
    ensures connect { (hub : HubState) → (answer : Result ℕ HubFaultOf) × (new : HubState)
        × (answer ≢ Err Memory) × hub_step hub (Connect answer) new }
    // `find_head` shows that what was received asks something, or that more has to come.
    ensures receive { (hub : HubState) (id : ℕ) (bytes : List ℕ) → IsSound hub
        → ((received : List ℕ) → phase_of hub id ≡ Some (Reading received) → AsksOrWaits (received ++ bytes))
        → (answer : Result ProgressOf HubFaultOf) × (new : HubState)
        × (answer ≢ Err Memory) × (answer ≢ Err Source) × hub_step hub (Receive id bytes answer) new }
    ensures pull { (hub : HubState) (id size : ℕ) → (answer : Result Given HubFaultOf) × (new : HubState)
        × (answer ≢ Err Source) × hub_step hub (Pull id size answer) new }
    ensures close { (hub : HubState) (id : ℕ) → (answer : Result ⊤ HubFaultOf) × (new : HubState)
        × hub_step hub (Close id answer) new }
    ensures command { (hub : HubState) (command : Command) → IsSound hub
        → (answer : Result Outcome Refusal) × (new : HubState)
        × (answer ≢ Err NoRoom) × (answer ≢ Err Disk) × hub_step hub (Record command answer) new }
    ensures flush { (hub : HubState) → (answer : Result Kept Refusal) × (new : HubState)
        × (answer ≢ Err Disk) × hub_step hub (Flush answer) new }
    // A reopening may find what is committed, and with it a group in doubt.
    ensures reopen { (hub : HubState) (found : List ℕ) → MayBeFound hub found
        → (new : HubState) × hub_step hub (Reopen (Some found)) new × (new.committed ≡ found) }
{
    refusals_are_of_the_table();
}
