//! A hub with room for 200 sessions.
use crate::tools::{GET_ALL, OF_TWO, TWO, gives, holds, recorder_of};
use disk_model::{Disk, MemDisk};
use ogg_serve::{Hub, HubFault, Progress};
use std::alloc::Global;
use std::process::Abort;
use std::test::Fail;

/// Whether a session is answered, and has ended once it is closed.
fn is_answered_and_ended<D: Disk + Drop>(hub: &mut Hub<D>, id: u64) -> bool {
    hub.receive(id, GET_ALL) == Ok(Progress::Ready)
        && gives(hub, id, 300, OF_TWO)
        && hub.close(id) == Ok(())
        && hub.pull(id, &mut [0; 1]) == Err(HubFault::NoSession)
}

/// Whether 200 sessions can be begun and no more, and each is answered and ended, in an order that jumps about. No
/// number is given again.
fn serves_200<D: Disk + Drop>(hub: &mut Hub<D>) -> bool {
    for id in 0..200 {
        if hub.connect() != Ok(id) {
            return false;
        }
    }
    if hub.connect() != Err(HubFault::SessionsFull) {
        return false;
    }
    for step in 0..200 {
        let id = step * 77 % 200;
        if !is_answered_and_ended(hub, id) {
            return false;
        }
    }
    hub.connect() == Ok(200)
}

/// A hub over the two pages that has the room.
fn hub_with_room(alloc: Global) -> Result<Hub<MemDisk>, Fail> {
    match Hub::with_room(alloc, recorder_of(alloc, TWO)?, 200) {
        Ok(hub) => Ok(hub),
        Err(_) => Err(Fail::from("no hub")),
    }
}

#[test]
fn each_of_200_sessions_is_answered(rt: HostRuntime) -> Result<(), Fail> {
    assert!(rt; holds(hub_with_room(rt.alloc()), serves_200)?);
    Ok(())
}
