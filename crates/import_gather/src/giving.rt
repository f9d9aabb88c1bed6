//! Commands that are appended.
ghost use Rattle.std.specs.Prelude.{◌≡◌, ◌∷◌, ◌++◌, [], ℕ, None, OnOk, OnErr, IfOk, List, map};
ghost use Rattle.import_commands.specs.Commands.{end_of, entry_of, put_of};
ghost use Rattle.import_gather.specs.Kept.{KeptStream, ends_by};
ghost use Rattle.import_gather.specs.Giving.{bare, new_stream};
ghost use Rattle.import_gather.specs.Refusals.{IsNoted};
ghost use Rattle.ogg_command.specs.declared.command.Command.{Command as CommandOf};

use crate::grower::Grower;
use crate::kept::Kept;
use ogg_command::{Begin, Command, Entry, Listed, Memory, NewStream, Put};
use ogg_page::Page;

/// The streams of a `Begin`, with the headers that were kept. These are taken out.
fn new_streams(grower: &mut Grower, streams: &mut [Kept]) -> Result<Vec<NewStream>, Memory>
    ensures new { IfOk result (λ new. new.items ≡ map new_stream streams.old) }
    ensures bare { OnOk result (streams.new ≡ map bare streams.old) }
    ensures noted { IsNoted result grower.old grower.new }
{
    let mut new = grower.empty();
    for stream in streams.iter_mut() {
        let serial = stream.serial();
        let headers = stream.take_headers(grower);
        let stream = new_stream(grower, serial, headers);
        grower.push(&mut new, stream)?;
    }
    Ok(new)
}

fn new_stream(grower: &Grower, serial: u32, headers: Vec<Listed<u8>>) -> NewStream
    ensures { (stream : KeptStream) → stream.serial ≡ serial → stream.headers ≡ headers.items → result ≡ new_stream stream }
{
    NewStream {
        serial,
        headers: Listed::of(headers),
        media: Listed::of(grower.empty()),
        fields: Listed::of(grower.empty()),
        rate: (0, 0),
        base_granule: 0,
        preroll: 0,
        shift: 0,
    }
}

/// Appends the `Begin` of a link of these streams, whose headers are taken out.
pub fn push_begin(
    grower: &mut Grower,
    streams: &mut [Kept],
    commands: &mut Vec<Command>,
) -> Result<(), Memory>
    ensures ok { OnOk result (commands.new.items
        ≡ commands.old.items ++ CommandOf.Begin (record { skeleton = None; streams = map new_stream streams.old }) ∷ []) }
    ensures bare { OnOk result (streams.new ≡ map bare streams.old) }
    ensures same { OnErr result (commands.new.items ≡ commands.old.items) }
    ensures noted { IsNoted result grower.old grower.new }
{
    let new = new_streams(grower, streams)?;
    let begin = Begin {
        skeleton: None,
        streams: Listed::of(new),
    };
    grower.push(commands, Command::Begin(begin))?;
    Ok(())
}

/// Appends the ends of streams. After `Memory` some of them may have been appended.
pub fn push_ends(
    grower: &mut Grower,
    ends: &[u32],
    commands: &mut Vec<Command>,
) -> Result<(), Memory>
    ensures ok { OnOk result (commands.new.items ≡ commands.old.items ++ map (λ serial. CommandOf.End serial) ends.now) }
    ensures more { (given : List CommandOf) × (commands.new.items ≡ commands.old.items ++ given) }
    ensures noted { IsNoted result grower.old grower.new }
{
    for serial in ends {
        grower.push(commands, Command::End(*serial))?;
    }
    Ok(())
}

fn entries_of(
    grower: &mut Grower,
    page: &Page<'_>,
    packets: Vec<Listed<u8>>,
) -> Result<Vec<Entry>, Memory>
    ensures noted { IsNoted result grower.old grower.new }
    ensures entries { IfOk result (λ entries. entries.items ≡ map (entry_of page.now) packets.items) }
{
    let mut entries = grower.empty();
    for packet in packets {
        let entry = Entry {
            serial: page.serial(),
            position: page.position(),
            packet,
        };
        grower.push(&mut entries, entry)?;
    }
    Ok(entries)
}

/// Appends a `Put` of packets that end in the page, if there are any.
pub fn push_put(
    grower: &mut Grower,
    page: &Page<'_>,
    packets: Vec<Listed<u8>>,
    commands: &mut Vec<Command>,
) -> Result<(), Memory>
    ensures ok { OnOk result (commands.new.items ≡ commands.old.items ++ put_of (map (entry_of page.now) packets.items)) }
    ensures same { OnErr result (commands.new.items ≡ commands.old.items) }
    ensures noted { IsNoted result grower.old grower.new }
{
    if packets.is_empty() {
        return Ok(());
    }
    let entries = entries_of(grower, page, packets)?;
    let put = Put {
        entries: Listed::of(entries),
    };
    grower.push(commands, Command::Put(put))?;
    Ok(())
}

/// Appends the end of the page's stream, if the page is its last.
pub fn push_end(
    grower: &mut Grower,
    page: &Page<'_>,
    commands: &mut Vec<Command>,
) -> Result<(), Memory>
    ensures ok { OnOk result (commands.new.items ≡ commands.old.items ++ end_of page.now) }
    ensures same { OnErr result (commands.new.items ≡ commands.old.items) }
    ensures noted { IsNoted result grower.old grower.new }
{
    if page.is_last() {
        grower.push(commands, Command::End(page.serial()))?;
    }
    Ok(())
}

/// Adds the serial of the page's stream to those whose ends wait, if the page is its last.
pub fn push_serial(grower: &mut Grower, page: &Page<'_>, ends: &mut Vec<u32>) -> Result<(), Memory>
    ensures noted { IsNoted result grower.old grower.new }
    ensures ends { OnOk result (ends.new.items ≡ ends.old.items ++ ends_by page.now) }
{
    if page.is_last() {
        grower.push(ends, page.serial())?;
    }
    Ok(())
}
