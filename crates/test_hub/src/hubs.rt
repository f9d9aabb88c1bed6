//! Sessions of a hub, whose file is recorded meanwhile.
use crate::tools::{
    GET_ALL, OF_THREE, OF_TWO, TWO, ask, gives, holds, holds_failing, hub_again, hub_failing,
    hub_of,
};
use chain_rules::{Command, Refusal};
use disk_model::Disk;
use ogg_recorder::Kept;
use ogg_serve::{Hub, HubFault, OpenFault, Outcome, Progress};
use std::process::Abort;
use std::test::Fail;

/// Whether one command was kept, and with it the whole file.
fn is_whole(kept: Kept) -> bool {
    kept.count == 1 && kept.end == 91
}

/// Whether the stream's end is kept at once.
fn ends<D: Disk + Drop>(hub: &mut Hub<D>) -> bool {
    match hub.command(&Command::End(1)) {
        Ok(Outcome::Kept(kept)) => is_whole(kept),
        _ => false,
    }
}

/// Whether a session gets what was committed when its head was complete, and the next one what is committed then.
fn keeps_its_answer<D: Disk + Drop>(hub: &mut Hub<D>) -> bool {
    let (one, rest) = OF_TWO.split_at(1);
    let Some(first) = ask(hub) else {
        return false;
    };
    if !gives(hub, first, 1, one) || !ends(hub) || !gives(hub, first, 300, rest) {
        return false;
    }
    match ask(hub) {
        Some(second) => gives(hub, second, 300, OF_THREE),
        None => false,
    }
}

#[test]
fn a_session_gets_what_was_committed_when_its_head_was_complete(
    rt: HostRuntime,
) -> Result<(), Fail> {
    assert!(rt; holds(hub_of(rt.alloc(), TWO, 1), keeps_its_answer)?);
    Ok(())
}

/// Whether the stream's end waits for a flush.
fn waits<D: Disk + Drop>(hub: &mut Hub<D>) -> bool {
    hub.command(&Command::End(1)) == Ok(Outcome::Held(1))
}

fn flushes<D: Disk + Drop>(hub: &mut Hub<D>) -> bool {
    match hub.flush() {
        Ok(kept) => is_whole(kept),
        Err(_) => false,
    }
}

/// Whether what waits is in no answer until it is flushed.
fn answers_as_flushed<D: Disk + Drop>(hub: &mut Hub<D>) -> bool {
    if !waits(hub) {
        return false;
    }
    let first = ask(hub);
    if !flushes(hub) {
        return false;
    }
    match (first, ask(hub)) {
        (Some(first), Some(second)) => {
            gives(hub, first, 300, OF_TWO) && gives(hub, second, 300, OF_THREE)
        }
        _ => false,
    }
}

#[test]
fn what_waits_is_in_no_answer_until_a_flush(rt: HostRuntime) -> Result<(), Fail> {
    assert!(rt; holds(hub_of(rt.alloc(), TWO, 8), answers_as_flushed)?);
    Ok(())
}

/// How many sessions can be begun, at most 100, and the fault of the next one.
fn connected<D: Disk + Drop>(hub: &mut Hub<D>) -> (u64, Option<HubFault>) {
    for count in 0..100 {
        match hub.connect() {
            Ok(_) => {}
            Err(fault) => return (count, Some(fault)),
        }
    }
    (100, None)
}

/// Whether the head of a request is complete with its last byte, and not before.
fn is_ready_at_the_end<D: Disk + Drop>(hub: &mut Hub<D>, id: u64) -> bool {
    let (front, last) = GET_ALL.split_at(GET_ALL.len() - 1);
    for byte in front {
        if hub.receive(id, &[*byte]) != Ok(Progress::More) {
            return false;
        }
    }
    hub.receive(id, last) == Ok(Progress::Ready)
}

/// Whether 64 sessions can be begun, and the last of them is answered.
fn has_64_sessions<D: Disk + Drop>(hub: &mut Hub<D>) -> bool {
    connected(hub) == (64, Some(HubFault::SessionsFull))
        && hub.pull(64, &mut [0; 1]) == Err(HubFault::NoSession)
        && is_ready_at_the_end(hub, 63)
}

#[test]
fn sessions_are_64_and_heads_come_byte_by_byte(rt: HostRuntime) -> Result<(), Fail> {
    assert!(rt; holds(hub_of(rt.alloc(), TWO, 1), has_64_sessions)?);
    Ok(())
}

/// Whether a session outlives a commit that fails at its last sync, and a reopening that fails.
fn outlives<D: Disk + Drop>(hub: &mut Hub<D>) -> bool {
    let (one, rest) = OF_TWO.split_at(1);
    let Some(id) = ask(hub) else {
        return false;
    };
    gives(hub, id, 1, one)
        && hub.command(&Command::End(1)) == Err(Refusal::Disk)
        && hub.reopen() == Err(OpenFault::Disk)
        && hub.pull(id, &mut [0; 1]) == Err(HubFault::NoFile)
        && hub.reopen() == Ok(())
        && hub.end() == 91
        && gives(hub, id, 300, rest)
}

#[test]
fn sessions_outlive_a_disk_that_fails(rt: HostRuntime) -> Result<(), Fail> {
    // The opening makes five calls of the disk, the request's head one, and the command four, the last of which is a
    // sync. The reopening begins with a sync.
    assert!(rt; holds_failing(hub_failing(rt.alloc(), 10, 11), outlives)?);
    Ok(())
}

/// Whether the stream's end is kept. After `Memory` the end of the file is as it was, and the command is given again.
/// After `Disk` the file is opened again, and the command is given again if the file doesn't have it.
fn ends_again<D: Disk + Drop>(hub: &mut Hub<D>) -> bool {
    let mut answer = hub.command(&Command::End(1));
    if answer == Err(Refusal::Memory) {
        if hub.end() != 64 {
            return false;
        }
        answer = hub.command(&Command::End(1));
    }
    if answer == Err(Refusal::Disk) {
        if hub.end() != 64 || !reopens(hub) {
            return false;
        }
        if hub.end() == 91 {
            return true;
        }
        answer = hub.command(&Command::End(1));
    }
    match answer {
        Ok(Outcome::Kept(kept)) => is_whole(kept),
        _ => false,
    }
}

/// Whether the file is opened again, at once or when that is asked for again.
fn reopens<D: Disk + Drop>(hub: &mut Hub<D>) -> bool {
    hub.reopen().is_ok() || hub.reopen().is_ok()
}

/// A session that asks for all of the file. If memory for its response is refused, it has no response, and the head
/// is received once more.
fn ask_again<D: Disk + Drop>(hub: &mut Hub<D>) -> Option<u64> {
    let Ok(id) = hub.connect() else {
        return None;
    };
    let mut answer = hub.receive(id, GET_ALL);
    if answer == Err(HubFault::Memory) {
        if !gives(hub, id, 1, b"") {
            return None;
        }
        answer = hub.receive(id, GET_ALL);
    }
    if answer == Ok(Progress::Ready) {
        return Some(id);
    }
    None
}

/// Whether sessions get what was committed when their heads were complete. Each call for which memory is refused is
/// made again.
fn keeps_its_answer_again<D: Disk + Drop>(hub: &mut Hub<D>) -> bool {
    let (one, rest) = OF_TWO.split_at(1);
    let Some(first) = ask_again(hub) else {
        return false;
    };
    if !gives(hub, first, 1, one) || !ends_again(hub) || !gives(hub, first, 300, rest) {
        return false;
    }
    match ask_again(hub) {
        Some(second) => gives(hub, second, 300, OF_THREE),
        None => false,
    }
}

/// `rt try --test --fail-alloc N` refuses the `N`th request for memory.
#[test]
fn a_session_gets_its_answer_after_memory_was_refused(rt: HostRuntime) -> Result<(), Fail> {
    assert!(rt; holds(hub_again(rt.alloc(), TWO), keeps_its_answer_again)?);
    Ok(())
}
