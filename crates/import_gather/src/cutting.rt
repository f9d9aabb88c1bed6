//! A page's body, cut into packets by its lacing values.
ghost use Rattle.std.specs.Prelude.{◌≡◌, ◌≤◌, ◌*◌, ◌++◌, ◌∷◌, [], ℕ, IfOk, OnOk, length, sum};
ghost use Rattle.ogg_page.specs.Page.{IsPage};
ghost use Rattle.import_gather.specs.Cutting.{CutsInto, EndIn, first_size};
ghost use Rattle.import_gather.specs.Refusals.{IsNoted};
ghost use Rattle.ogg_page.specs.Sizes.{most_values, full_value, longest_body};

use crate::grower::Grower;
use ogg_command::{Listed, Memory};
use ogg_page::{FULL_VALUE, Page};
use std::mem;

/// Cuts a page into the packets that end in it. `rest` has the bytes of the packet that the pages before it left
/// unfinished, and then those that this page leaves. After `Memory` it may have some of the page's.
pub fn cut_page(
    grower: &mut Grower,
    rest: &mut Vec<u8>,
    page: &Page<'_>,
) -> Result<Vec<Listed<u8>>, Memory>
    ensures noted { IsNoted result grower.old grower.new }
    ensures packets { IfOk result (λ packets. EndIn rest.old.items page.now packets.items rest.new.items) }
{
    // For the proof alone.
    let _bytes = page.whole();
    // A long packet has its room at once, so that it isn't moved as it grows.
    grower.reserve(rest, first_size(page))?;
    cut(grower, rest, page.lacing(), page.body())
}

fn cut(
    grower: &mut Grower,
    rest: &mut Vec<u8>,
    lacing: &[u8],
    body: &[u8],
) -> Result<Vec<Listed<u8>>, Memory>
    requires { sum lacing.now ≡ length body.now }
    ensures noted { IsNoted result grower.old grower.new }
    ensures packets { IfOk result (λ packets. (segments : ℕ) → length rest.old.items ≡ full_value * segments
        → CutsInto segments rest.old.items lacing.now body.now packets.items rest.new.items) }
{
    let mut packets = grower.empty();
    let mut left = body;
    for value in lacing {
        let (piece, others) = left.split_at(usize::from(*value));
        grower.append(rest, piece)?;
        if *value < FULL_VALUE {
            end_packet(grower, rest, &mut packets)?;
        }
        left = others;
    }
    Ok(packets)
}

/// The packet with these bytes has ended.
fn end_packet(
    grower: &mut Grower,
    rest: &mut Vec<u8>,
    packets: &mut Vec<Listed<u8>>,
) -> Result<(), Memory>
    ensures packets { OnOk result (packets.new.items ≡ packets.old.items ++ rest.old.items ∷ []) }
    ensures rest { rest.new.items ≡ [] }
    ensures noted { IsNoted result grower.old grower.new }
{
    let packet = mem::replace(rest, grower.empty());
    grower.push(packets, Listed::of(packet))?;
    Ok(())
}

/// How many bytes a page has of the first packet in it.
pub fn first_size(page: &Page<'_>) -> usize
    ensures value { result ≡ first_size page.now.lacing }
    ensures bound { result ≤ longest_body }
{
    // For the proof alone.
    let _bytes = page.whole();
    first_size_of(page.lacing())
}

fn first_size_of(lacing: &[u8]) -> usize
    requires { length lacing.now ≤ most_values }
    ensures value { result ≡ first_size lacing.now }
    ensures bound { result ≤ full_value * length lacing.now }
{
    let mut size = 0;
    for value in lacing {
        size += usize::from(*value);
        if *value < FULL_VALUE {
            break;
        }
    }
    size
}
