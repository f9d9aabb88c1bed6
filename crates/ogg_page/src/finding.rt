//! The page at a window's place, out of the bytes that are held.
ghost use Rattle.std.specs.Prelude.{◌≡◌, ◌-◌, take, drop, min, OnOk};
ghost use Rattle.ogg_page.specs.Source.{HasCause};
ghost use Rattle.ogg_page.specs.Room.{HoldsBytes, IsFoundAt, held_of};
ghost use Rattle.ogg_page.specs.Window.{KeepsSource, HasSourceCause};
ghost use Rattle.ogg_page.specs.Sizes.{longest_page};

use crate::fault::{SourceFault, WindowFault};
use crate::held::Held;
use crate::reading::size_in_front;
use crate::sizes::LONGEST_PAGE;
use crate::source::PageSource;

/// Moves what is held to the front of the room, and reads on after it as far as the longest page
/// goes, or up to the end of the range. After a fault nothing is held.
fn read_on<S: PageSource>(
    source: &mut S,
    room: &mut [u8],
    held: &mut Held,
    at: u64,
    to: u64,
) -> Result<(), SourceFault>
    requires { HoldsBytes (S.bytes source.old) (S.is_honest source.old) (S.size source.old) room.old held.old at to }
    ensures holds { HoldsBytes (S.bytes source.new) (S.is_honest source.new) (S.size source.new) room.new held.new at to }
    ensures all { OnOk result (held.new.end - held.new.start ≡ min (to - at) longest_page) }
    ensures source { KeepsSource S.bytes S.is_honest S.size S.only_reads source.old source.new }
    ensures cause { HasCause (S.failures source.old) (S.failures source.new) result }
{
    let kept = held.end - held.start;
    let wanted = (to - at).min(LONGEST_PAGE as u64) as usize;
    room.copy_within(held.start..held.end, 0);
    *held = Held { start: 0, end: 0 };
    let (_, behind) = room.split_at_mut(kept);
    let (free, _) = behind.split_at_mut(wanted - kept);
    source.read_at(at + kept as u64, free)?;
    held.end = wanted;
    Ok(())
}

/// The size of the page at `at`. If it isn't held as a whole, the room is filled first.
pub(crate) fn find<S: PageSource>(
    source: &mut S,
    room: &mut [u8],
    held: &mut Held,
    at: u64,
    to: u64,
) -> Result<usize, WindowFault>
    requires holds { HoldsBytes (S.bytes source.old) (S.is_honest source.old) (S.size source.old) room.old held.old at to }
    ensures holds { HoldsBytes (S.bytes source.new) (S.is_honest source.new) (S.size source.new) room.new held.new at to }
    ensures found { IsFoundAt (S.is_honest source.old) at (take (to - at) (drop at (S.bytes source.old))) (held_of room.new held.new) result }
    ensures source { KeepsSource S.bytes S.is_honest S.size S.only_reads source.old source.new }
    ensures cause { HasSourceCause (S.failures source.old) (S.failures source.new) result }
{
    match size_in_front(&room[held.start..held.end]) {
        Ok(size) => Ok(size),
        Err(fault) => {
            if (held.end - held.start) as u64 == (to - at).min(LONGEST_PAGE as u64) {
                return Err(WindowFault::Page(at, fault));
            }
            match read_on(source, room, held, at, to) {
                Ok(()) => match size_in_front(&room[held.start..held.end]) {
                    Ok(size) => Ok(size),
                    Err(fault) => Err(WindowFault::Page(at, fault)),
                },
                Err(_) => Err(WindowFault::Source),
            }
        }
    }
}
