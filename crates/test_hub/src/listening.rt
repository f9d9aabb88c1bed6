//! Listeners of a hub, whose file is recorded meanwhile.
use crate::tools::{TWO, holds, holds_failing, hub_again, hub_failing, hub_of};
use chain_rules::{Begin, Command, Listed, NewStream};
use disk_model::Disk;
use ogg_serve::{Hub, HubFault, JoinPlace, Listener, OpenFault, Outcome};
use std::alloc::{AllocError, Global};
use std::process::Abort;
use std::test::Fail;

/// The listener joins after the packet `hello`.
const PLACE: JoinPlace = JoinPlace {
    begin: 0,
    begun: 31,
    boundary: 64,
};

/// What it hears: the page of the header, the page that ends the stream with the number after it, and the first page
/// of the next link.
const HEARD: &[u8] = b"OggS\0\x02\0\0\0\0\0\0\0\0\x01\0\0\0\0\0\0\0\x92\xdd\xf6\x15\x01\x03abc\
    OggS\0\x04\x05\0\0\0\0\0\0\0\x01\0\0\0\x01\0\0\0\xc6~Q\x99\0\
    OggS\0\x02\0\0\0\0\0\0\0\0\x02\0\0\0\0\0\0\0u\x8e\x83-\x01\x03abc";

/// A link of one stream, with the header `abc`.
fn begin_link(alloc: Global, serial: u32) -> Result<Command, AllocError> {
    let mut headers = Vec::new(alloc);
    headers.push(Listed::of(Vec::from_slice(alloc, b"abc")?))?;
    let mut streams = Vec::new(alloc);
    streams.push(NewStream {
        serial,
        headers: Listed::of(headers),
        media: Listed::of(Vec::new(alloc)),
        fields: Listed::of(Vec::new(alloc)),
        rate: (0, 0),
        base_granule: 0,
        preroll: 0,
        shift: 0,
    })?;
    Ok(Command::Begin(Begin {
        skeleton: None,
        streams: Listed::of(streams),
    }))
}

/// Whether the listener hears exactly these bytes, in buffers of 10 bytes.
fn hears<D: Disk + Drop>(hub: &mut Hub<D>, listener: &mut Listener, want: &[u8]) -> bool {
    let mut rest = want;
    for _ in 0..20 {
        let mut buffer = [0; 10];
        match hub.hear(listener, &mut buffer) {
            Ok(count) => {
                let (given, _) = buffer.split_at(count);
                if count == 0 {
                    return rest.is_empty();
                }
                match rest.split_at_checked(count) {
                    Some((front, others)) => {
                        if *front != *given {
                            return false;
                        }
                        rest = others;
                    }
                    None => return false,
                }
            }
            Err(_) => return false,
        }
    }
    false
}

/// Whether the command is kept at once.
fn keeps<D: Disk + Drop>(hub: &mut Hub<D>, command: &Command) -> bool {
    matches!(hub.command(command), Ok(Outcome::Kept(_)))
}

/// Whether a listener hears what is committed, each command once it is kept, and the next link as it is.
fn hears_two_links<D: Disk + Drop>(hub: &mut Hub<D>, next: &Command) -> bool {
    let Ok(mut listener) = hub.join(PLACE) else {
        return false;
    };
    let (header, rest) = HEARD.split_at(31);
    let (end, begin) = rest.split_at(27);
    hears(hub, &mut listener, header)
        && keeps(hub, &Command::End(1))
        && hears(hub, &mut listener, end)
        && keeps(hub, next)
        && hears(hub, &mut listener, begin)
}

#[test]
fn a_listener_hears_commands_as_they_are_kept(rt: HostRuntime) -> Result<(), Fail> {
    let next = begin_link(rt.alloc(), 2)?;
    assert!(rt;
        holds(
            hub_of(rt.alloc(), TWO, 1),
            |hub| hears_two_links(hub, &next)
        )?
    );
    Ok(())
}

/// Whether a listener that waits hears from the next link's first page on, and nothing of what waits for a flush.
fn waits_for_the_next_link<D: Disk + Drop>(hub: &mut Hub<D>, next: &Command) -> bool {
    if hub.command(&Command::End(1)) != Ok(Outcome::Held(1)) || hub.flush().is_err() {
        return false;
    }
    let mut listener = hub.wait();
    let (_, begin) = HEARD.split_at(58);
    hub.command(next) == Ok(Outcome::Held(2))
        && hears(hub, &mut listener, b"")
        && hub.flush().is_ok()
        && hears(hub, &mut listener, begin)
}

#[test]
fn a_listener_waits_for_the_next_link(rt: HostRuntime) -> Result<(), Fail> {
    let next = begin_link(rt.alloc(), 2)?;
    assert!(rt;
        holds(
            hub_of(rt.alloc(), TWO, 8),
            |hub| waits_for_the_next_link(hub, &next)
        )?
    );
    Ok(())
}

/// Whether the hub tells of its file what a recorder tells.
fn tells<D: Disk + Drop>(hub: &Hub<D>) -> bool {
    hub.has_file()
        && !hub.is_failed()
        && hub.length() == 64
        && hub.streams().len() == 1
        && hub.serials() == [1].as_slice()
}

/// Whether it tells what is known without a file.
fn tells_without_a_file<D: Disk + Drop>(hub: &Hub<D>) -> bool {
    !hub.has_file()
        && hub.is_failed()
        && hub.length() == 64
        && hub.streams().is_empty()
        && hub.serials().is_empty()
}

/// Whether nobody joins or hears while there is no file, and a listener goes on after a reopening.
fn goes_on_after_a_reopening<D: Disk + Drop>(hub: &mut Hub<D>) -> bool {
    if !tells(hub) {
        return false;
    }
    let Ok(mut listener) = hub.join(PLACE) else {
        return false;
    };
    let (header, rest) = HEARD.split_at(31);
    let (end, _) = rest.split_at(27);
    hears(hub, &mut listener, header)
        && hub.reopen() == Err(OpenFault::Disk)
        && tells_without_a_file(hub)
        && hub.join(PLACE).is_err()
        && hub.hear(&mut listener, &mut [0; 1]) == Err(HubFault::NoFile)
        && hub.reopen() == Ok(())
        && keeps(hub, &Command::End(1))
        && hears(hub, &mut listener, end)
}

#[test]
fn a_listener_outlives_a_reopening_that_fails(rt: HostRuntime) -> Result<(), Fail> {
    // The opening makes five calls of the disk, the join two, and what is heard four. The reopening begins with a sync.
    assert!(rt; holds_failing(hub_failing(rt.alloc(), 12, 0), goes_on_after_a_reopening)?);
    Ok(())
}

/// Whether a listener is as it was after a read that failed, and hears the same bytes then.
fn hears_after_a_fault<D: Disk + Drop>(hub: &mut Hub<D>) -> bool {
    let Ok(mut listener) = hub.join(PLACE) else {
        return false;
    };
    let (header, _) = HEARD.split_at(31);
    let (front, rest) = header.split_at(10);
    let mut buffer = [0; 10];
    hub.hear(&mut listener, &mut buffer) == Ok(10)
        && buffer.as_slice() == front
        && hub.hear(&mut listener, &mut buffer) == Err(HubFault::Source)
        && !hub.is_failed()
        && hears(hub, &mut listener, rest)
}

#[test]
fn a_listener_stays_as_it_was_after_a_fault(rt: HostRuntime) -> Result<(), Fail> {
    // The opening makes five calls of the disk, the join two, and each buffer that is filled one.
    assert!(rt; holds_failing(hub_failing(rt.alloc(), 9, 0), hears_after_a_fault)?);
    Ok(())
}

/// Whether a listener joins, once more if memory was refused, and hears the link's beginning.
fn joins_again<D: Disk + Drop>(hub: &mut Hub<D>) -> bool {
    let mut answer = hub.join(PLACE);
    if matches!(answer, Err(HubFault::Memory)) {
        answer = hub.join(PLACE);
    }
    let Ok(mut listener) = answer else {
        return false;
    };
    let (header, _) = HEARD.split_at(31);
    hears(hub, &mut listener, header)
}

/// `rt try --test --fail-alloc N` refuses the `N`th request for memory.
#[test]
fn a_listener_joins_after_memory_was_refused(rt: HostRuntime) -> Result<(), Fail> {
    assert!(rt; holds(hub_again(rt.alloc(), TWO), joins_again)?);
    Ok(())
}
