//! Which packets are kept as headers until their link begins.
ghost use Rattle.std.specs.Prelude.{◌≡◌, ◌≤◌, ◌++◌, ◌-◌, [], List, ℕ, IfOk, length, sum_by, take, drop};
ghost use Rattle.std.specs.Option.{SomeIff};
ghost use Rattle.import_gather.specs.Headers.{is_skeleton, lacking, wanted, wanted_by};
ghost use Rattle.import_gather.specs.Refusals.{IsNoted};

use crate::grower::Grower;
use crate::limits::MOST_HEADERS;
use import_commands::header_count;
use ogg_command::{Listed, Memory};

/// How many packets of a stream are kept as headers, by the first.
#[tactic(auto, unfolding(crate::specs::Headers::wanted_by))]
fn wanted_by(first: &[u8]) -> usize
    ensures { result ≡ wanted_by first.now }
{
    if first.starts_with(b"fishead\0") {
        MOST_HEADERS
    } else {
        (header_count(first) as usize).min(MOST_HEADERS)
    }
}

/// How many headers a stream with these packets wants.
pub fn wanted(headers: &[Listed<u8>]) -> usize
    ensures { result ≡ wanted headers.now }
{
    match headers {
        [first, ..] => wanted_by(first.as_slice()),
        [] => wanted_by(b""),
    }
}

/// Appends as many packets to the headers as are lacking, and gives back the others. After `Memory` some of the
/// packets are lost.
pub fn keep_headers(
    grower: &mut Grower,
    headers: &mut Vec<Listed<u8>>,
    packets: Vec<Listed<u8>>,
) -> Result<Vec<Listed<u8>>, Memory>
    ensures kept { IfOk result (λ later. headers.new.items ≡ headers.old.items ++ take (lacking headers.old.items) packets.items) }
    ensures later { IfOk result (λ later. later.items ≡ drop (lacking headers.old.items) packets.items) }
    ensures noted { IsNoted result grower.old grower.new }
{
    let room = wanted(headers.as_slice()).saturating_sub(headers.len());
    share(grower, headers, packets, room)
}

fn share(
    grower: &mut Grower,
    headers: &mut Vec<Listed<u8>>,
    packets: Vec<Listed<u8>>,
    room: usize,
) -> Result<Vec<Listed<u8>>, Memory>
    ensures kept { IfOk result (λ later. headers.new.items ≡ headers.old.items ++ take room packets.items) }
    ensures later { IfOk result (λ later. later.items ≡ drop room packets.items) }
    ensures noted { IsNoted result grower.old grower.new }
{
    let mut later = grower.empty();
    let mut left = room;
    for packet in packets {
        if left > 0 {
            grower.push(headers, packet)?;
            left -= 1;
        } else {
            grower.push(&mut later, packet)?;
        }
    }
    Ok(later)
}

/// What is left of a number of bytes after the headers; none if the headers have more bytes together.
pub fn left_behind(left: usize, headers: &[Listed<u8>]) -> Option<usize>
    ensures { SomeIff result (sum_by length headers.now ≤ left) (left - sum_by length headers.now) }
{
    let mut left = left;
    for header in headers {
        left = left.checked_sub(header.len())?;
    }
    Some(left)
}
