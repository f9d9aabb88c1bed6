//! One connection is served, and the first fault is kept.
ghost use Rattle.std.specs.Prelude.{◌≡◌, ℕ, IfSome, Result, Some, None, Ok, Err, true, false};
ghost use Rattle.serve_machine.specs.Hub.{HubState, is_full, phase_of};
ghost use Rattle.serve_machine.specs.Own.{AreNumbered};
ghost use Rattle.serve_machine.specs.declared.fault.HubFault.{HubFault as HubFaultOf};
ghost use Rattle.serve_hub.specs.Showing.{Shows};
ghost use Rattle.ogg_serve.specs.Keeping.{KeepsOthers, OnlyServes};
ghost use Rattle.ogg_serve.specs.Serving.{Gets};
ghost use Rattle.ogg_serve.specs.Steps.{GetsIn, TakesSteps};
ghost use Rattle.ogg_serve.specs.declared.pieces.Served.{Served as ServedOf};
ghost use Rattle.serve_actions.specs.Ended.{fault_in, fault_of};

use crate::feeds::fault_in;
use disk_model::Disk;
use fault_lines::Fault;
use ogg_serve::{Hub, HubFault, LiveFeed, Served, live_one, serve_one};
use std::io::{Read, Write};

/// Serves one connection. Returns the fault that was met before, or that of this connection.
pub fn serve_next<D: Disk + Drop, R: Read, W: Write>(
    hub: &mut Hub<D>,
    reader: &mut R,
    writer: &mut W,
    met: Option<Fault>,
) -> Option<Fault>
    ensures first { IfSome met (λ fault. result ≡ Some fault) }

    // The connection is served, whatever was met before, and its fault is told if it is the first.
    ensures served { (before : HubState) → Shows D.Disk hub.old before → is_full before ≡ false → AreNumbered before
        → (served : Result ServedOf HubFaultOf) × (met ≡ None → result ≡ fault_of served)
        × (after : HubState) × Shows D.Disk hub.new after × OnlyServes before.next_id before after
        × (phase_of after before.next_id ≡ None)
        × Gets (R.remaining reader.old) (R.remaining reader.new) (W.contents writer.old) (W.contents writer.new)
        before.has_file before.committed served }
    ensures full { (before : HubState) → Shows D.Disk hub.old before → is_full before ≡ true → met ≡ None
        → result ≡ Some (Fault.Serve HubFault.SessionsFull) }
{
    let served = serve_one(hub, reader, writer);
    first(met, fault_of(served))
}

/// Serves one connection, and records the feed meanwhile. Returns the fault that was met before, or that of the feed,
/// or that of this connection.
pub fn live_next<D: Disk + Drop, R: Read, W: Write, F: Read, L: Write + Drop>(
    hub: &mut Hub<D>,
    reader: &mut R,
    writer: &mut W,
    feed: &mut LiveFeed<F, L>,
    met: Option<Fault>,
) -> Option<Fault>
    ensures first { IfSome met (λ fault. result ≡ Some fault) }
    ensures feed { met ≡ None → IfSome (fault_in feed.new.ended) (λ fault. result ≡ Some fault) }

    // The connection is served, whatever was met before, and its fault is told if it is the first.
    ensures served { (before : HubState) → Shows D.Disk hub.old before → is_full before ≡ false → AreNumbered before
        → (served : Result ServedOf HubFaultOf)
        × (met ≡ None → fault_in feed.new.ended ≡ None → result ≡ fault_of served)
        × (after : HubState) × Shows D.Disk hub.new after × KeepsOthers before.next_id before after
        × (phase_of after before.next_id ≡ None)
        × ((n : ℕ)
        × TakesSteps D.Disk F.remaining L.contents n feed.old feed.new before after
        × GetsIn (R.remaining reader.old) (R.remaining reader.new) (W.contents writer.old) (W.contents writer.new)
        n after.has_file before.committed served) }
    ensures full { (before : HubState) → Shows D.Disk hub.old before → is_full before ≡ true → met ≡ None
        → fault_in feed.new.ended ≡ None → result ≡ Some (Fault.Serve HubFault.SessionsFull) }
{
    let served = live_one(hub, reader, writer, feed);
    // A fault of the feed came before one that has ended the connection.
    let fault = first(fault_in(feed.ended()), fault_of(served));
    first(met, fault)
}

/// The fault of a connection, if it has one.
fn fault_of(served: Result<Served, HubFault>) -> Option<Fault>
    ensures { result ≡ fault_of served }
{
    match served {
        Ok(_) => None,
        Err(fault) => Some(Fault::Serve(fault)),
    }
}

/// The fault that was met, or else the one that came later.
pub(crate) fn first(met: Option<Fault>, later: Option<Fault>) -> Option<Fault>
    ensures met { IfSome met (λ fault. result ≡ Some fault) }
    ensures later { met ≡ None → result ≡ later }
{
    match met {
        Some(fault) => Some(fault),
        None => later,
    }
}

/// The fault that was met, if there is one.
pub fn unless(met: Option<Fault>) -> Result<(), Fault>
    ensures fault { IfSome met (λ fault. result ≡ Err fault) }
    ensures none { met ≡ None → result ≡ Ok tt }
{
    match met {
        Some(fault) => Err(fault),
        None => Ok(()),
    }
}
