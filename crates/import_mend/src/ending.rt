//! Streams that are ended though their last page hasn't come.
ghost use Rattle.std.specs.Prelude.{◌≡◌, ◌<◌, ◌≤◌, ◌+◌, ◌-◌, ◌++◌, ◌^◌, true, false, not, None, Some, Ok, OnErr, OnOk, IfSome, List, nat_eq, vec_capacity};
ghost use Rattle.std.specs.List.{find};
ghost use Rattle.ogg_page.specs.Sizes.{fixed_size};
ghost use Rattle.link_chain.specs.ChainState.{is_open};
ghost use Rattle.link_chain.specs.Places.{HaveOwnSerials};
ghost use Rattle.link_chain.specs.Progress.{stream_in};
ghost use Rattle.link_chain.specs.declared.stream_state.StreamState.{StreamState as State};
ghost use Rattle.import_mend.specs.Gives.{EndsStream, EndsStreams, is_unended};
ghost use Rattle.import_mend.specs.Room.{HasRoom, LacksMemory};
ghost use Rattle.import_mend.specs.Steps.{after_end};
ghost use Rattle.ogg_command.specs.declared.command.Command.{Command as CommandOf};

use crate::Memory;
use crate::taking::take;
use crate::writing::{write_last, written_page};
use import_gather::Gatherer;
use link_chain::{Chain, StreamState, is_open};
use ogg_command::Command;

/// The first of the streams that hasn't ended.
fn first_unended(streams: &[StreamState]) -> Option<StreamState>
    ensures { result ≡ find (λ (stream : State). not stream.ended) streams.now }
{
    streams.iter().copied().find(|stream| !stream.ended)
}

/// The first stream of the link that hasn't ended.
fn first_open(chain: &Chain) -> Option<StreamState>
    ensures some { IfSome result (λ stream. (stream.ended ≡ false) × (stream_in chain.now.chain.streams stream.serial ≡ Some stream)) }
    ensures none { result ≡ None → is_open chain.now.chain ≡ false }
    ensures first { result ≡ find is_unended chain.now.chain.streams }
    ensures own { HaveOwnSerials chain.now.chain.streams }
{
    first_unended(chain.streams())
}

/// Whether a last page can be given to a stream.
fn can_end(chain: &Chain, stream: StreamState) -> bool
    ensures fits { result ≡ true → (nat_eq chain.now.chain.links 0 ≡ false) × (stream.next_sequence < 2 ^ 32)
        × (chain.now.chain.length_of + fixed_size < 2 ^ 63) }
    ensures each { nat_eq chain.now.chain.links 0 ≡ false → stream.next_sequence < 2 ^ 32 → chain.now.chain.length_of < 2 ^ 63 - 64
        → result ≡ true }
{
    chain.links() > 0 && stream.next_sequence < 1 << 32 && chain.len() < (1 << 63) - 64
}

/// Ends a stream of the link by a page without packets. A packet that it leaves unfinished is dropped.
fn end_stream(
    room: &mut Vec<u8>,
    gatherer: &mut Gatherer,
    stream: StreamState,
    commands: &mut Vec<Command>,
) -> Result<(), Memory>
    requires known { stream_in gatherer.old.chain.streams stream.serial ≡ Some stream }
    requires unended { stream.ended ≡ false }
    requires links { nat_eq gatherer.old.chain.links 0 ≡ false }
    requires number { stream.next_sequence < 2 ^ 32 }
    requires small { gatherer.old.chain.length_of + fixed_size < 2 ^ 63 }
    ensures after { OnOk result (gatherer.new.chain ≡ after_end stream gatherer.old) }
    ensures gives { OnOk result ((more : List CommandOf) × (commands.new.items ≡ commands.old.items ++ more)
        × EndsStream stream gatherer.old gatherer.new more) }
    ensures cause { OnErr result (LacksMemory gatherer.new (vec_capacity room.old)) }
    ensures noted { OnOk result (gatherer.new.refused ≡ gatherer.old.refused) }
    ensures capacity { vec_capacity room.old ≤ vec_capacity room.new }
{
    gatherer.drop_packet(stream.serial);
    room.clear();
    let number = stream.next_sequence as u32;
    write_last(stream.serial, stream.last_position, number, room)?;
    let page = written_page(room.as_slice());
    take(gatherer, &page, commands)
}

/// Ends the streams of the link that haven't ended. False if there is no room for a last page.
pub fn end_streams(
    room: &mut Vec<u8>,
    gatherer: &mut Gatherer,
    commands: &mut Vec<Command>,
) -> Result<bool, Memory>
    ensures closed { result ≡ Ok true → is_open gatherer.new.chain ≡ false }
    ensures gives { OnOk result ((more : List CommandOf) × (commands.new.items ≡ commands.old.items ++ more)
        × EndsStreams gatherer.old gatherer.new more) }
    ensures cause { OnErr result (LacksMemory gatherer.new (vec_capacity room.old)) }
    ensures noted { OnOk result (gatherer.new.refused ≡ gatherer.old.refused) }
    ensures capacity { vec_capacity room.old ≤ vec_capacity room.new }
    ensures open { result ≡ Ok false → is_open gatherer.new.chain ≡ true }
    ensures all { HasRoom gatherer.old.chain → OnOk result (is_open gatherer.new.chain ≡ false) }
{
    let count = gatherer.chain().streams().len();
    for _ in 0..count {
        let stream = match first_open(gatherer.chain()) {
            Some(stream) => stream,
            None => return Ok(true),
        };
        if !can_end(gatherer.chain(), stream) {
            return Ok(false);
        }
        end_stream(room, gatherer, stream, commands)?;
    }
    Ok(!is_open(gatherer.chain().streams()))
}
