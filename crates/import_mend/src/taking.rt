//! Pages that are taken, as they are left.
ghost use Rattle.std.specs.Prelude.{◌≡◌, ◌<◌, ◌≤◌, ◌+◌, ◌++◌, ◌^◌, true, false, None, Some, List, OnErr, OnOk, vec_capacity};
ghost use Rattle.ogg_page.specs.Page.{page_size};
ghost use Rattle.ogg_page.specs.LogicalStream.{is_first};
ghost use Rattle.link_chain.specs.Followed.{after_page};
ghost use Rattle.link_chain.specs.Progress.{stream_in};
ghost use Rattle.link_chain.specs.Taking.{fault_of_page};
ghost use Rattle.import_gather.specs.Gathered.{GathersPage};
ghost use Rattle.import_gather.specs.Kept.{is_too_long};
ghost use Rattle.import_mend.specs.Gives.{GathersLeft};
ghost use Rattle.import_mend.specs.Mended.{is_joined, left_whole, mended};
ghost use Rattle.import_mend.specs.Steps.{after_later, broken_off};
ghost use Rattle.import_mend.specs.Room.{LacksMemory};
ghost use Rattle.import_mend.specs.Ways.{way_of};
ghost use Rattle.ogg_command.specs.declared.command.Command.{Command as CommandOf};

use crate::Memory;
use crate::cutting::whole_values;
use crate::joining::is_joined;
use crate::ways::Way;
use crate::writing::{write_mended, written_page};
use import_gather::Gatherer;
use link_chain::StreamState;
use ogg_command::Command;
use ogg_page::Page;
use std::alloc::AllocError;

/// Takes a page that may follow. `Memory` is its one fault.
pub fn take(
    gatherer: &mut Gatherer,
    page: &Page<'_>,
    commands: &mut Vec<Command>,
) -> Result<(), Memory>
    requires fits { fault_of_page gatherer.old.chain page.now ≡ None }
    requires short { is_too_long gatherer.old.link page.now ≡ false }
    requires small { gatherer.old.chain.length_of + page_size page.now < 2 ^ 63 }
    ensures after { OnOk result (gatherer.new.chain ≡ after_page gatherer.old.chain page.now) }
    ensures gives { OnOk result ((more : List CommandOf) × (commands.new.items ≡ commands.old.items ++ more)
        × GathersPage page.now gatherer.old gatherer.new more) }
    ensures cause { OnErr result (gatherer.new.refused ≡ true) }
    ensures noted { OnOk result (gatherer.new.refused ≡ gatherer.old.refused) }
{
    match gatherer.take_page(page, commands) {
        Ok(()) => Ok(()),
        // The page follows and isn't too long, so memory was refused.
        Err(_) => Err(AllocError),
    }
}

/// Takes what is left of a page, which is made in the room.
fn take_mended(
    room: &mut Vec<u8>,
    gatherer: &mut Gatherer,
    joined: bool,
    number: u32,
    page: &Page<'_>,
    commands: &mut Vec<Command>,
) -> Result<(), Memory>
    requires fits { fault_of_page gatherer.old.chain (mended joined number page.now) ≡ None }
    requires short { is_too_long gatherer.old.link (mended joined number page.now) ≡ false }
    requires small { gatherer.old.chain.length_of + page_size (mended joined number page.now) < 2 ^ 63 }
    ensures after { OnOk result (gatherer.new.chain ≡ after_page gatherer.old.chain (mended joined number page.now)) }
    ensures gives { OnOk result ((more : List CommandOf) × (commands.new.items ≡ commands.old.items ++ more)
        × GathersPage (mended joined number page.now) gatherer.old gatherer.new more) }
    ensures cause { OnErr result (LacksMemory gatherer.new (vec_capacity room.old)) }
    ensures noted { OnOk result (gatherer.new.refused ≡ gatherer.old.refused) }
    ensures capacity { vec_capacity room.old ≤ vec_capacity room.new }
{
    room.clear();
    write_mended(page, joined, number, room)?;
    let left = written_page(room.as_slice());
    take(gatherer, &left, commands)
}

/// Drops the unfinished packet of the stream with this serial, unless the next page is joined with the page before.
pub fn break_off(gatherer: &mut Gatherer, joined: bool, serial: u32)
    ensures { gatherer.new ≡ broken_off joined serial gatherer.old }
{
    if !joined {
        gatherer.drop_packet(serial);
    }
}

/// Whether nothing of the page is cut off at its end.
fn is_left_whole(page: &Page<'_>) -> bool
    ensures { result ≡ true → left_whole page.now ≡ page.now }
{
    // For the proof alone.
    let _bytes = page.whole();
    !page.is_last() || whole_values(page.lacing()) == page.lacing().len()
}

/// Takes a page of an open stream that isn't its first. `lost` is how many pages of the stream were lost so far.
pub fn follow(
    room: &mut Vec<u8>,
    gatherer: &mut Gatherer,
    lost: u32,
    stream: StreamState,
    page: &Page<'_>,
    commands: &mut Vec<Command>,
) -> Result<(), Memory>
    requires later { is_first page.now ≡ false }
    requires known { stream_in gatherer.old.chain.streams page.now.serial ≡ Some stream }
    requires way { way_of gatherer.old.chain lost page.now ≡ Way.Take }
    ensures after { OnOk result (gatherer.new.chain ≡ after_later lost stream page.now gatherer.old) }
    ensures gives { OnOk result ((more : List CommandOf) × (commands.new.items ≡ commands.old.items ++ more)
        × GathersLeft (is_joined lost stream (is_too_long gatherer.old.link page.now) page.now) stream.next_sequence page.now
        gatherer.old gatherer.new more) }
    ensures cause { OnErr result (LacksMemory gatherer.new (vec_capacity room.old)) }
    ensures noted { OnOk result (gatherer.new.refused ≡ gatherer.old.refused) }
    ensures capacity { vec_capacity room.old ≤ vec_capacity room.new }
{
    // For the proof alone.
    let _bytes = page.whole();
    let joined = is_joined(lost, stream, gatherer.is_too_long(page), page);
    if joined && lost == 0 && is_left_whole(page) {
        // The page as it came: of a sound stream none is copied.
        return take(gatherer, page, commands);
    }
    break_off(gatherer, joined, page.serial());
    let number = stream.next_sequence as u32;
    take_mended(room, gatherer, joined, number, page, commands)
}
