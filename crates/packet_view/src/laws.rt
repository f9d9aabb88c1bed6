//! What always holds of the packets in bytes.
ghost use Rattle.std.specs.Prelude.{◌<◌, List, ℕ, [], false, slice_index};
ghost use Rattle.std.specs.List.{AllByRecursion};
ghost use Rattle.ogg_page.specs.Pages.{found_in};
ghost use Rattle.packet_view.specs.Apart.{LieApart, pages_found};
ghost use Rattle.packet_view.specs.Packets.{packets_from, packets_of};
ghost use Rattle.packet_view.specs.Held.{AreHeld};
ghost use Rattle.packet_view.specs.StreamParts.{AreTheirParts, at_start, parts_from};
ghost use Rattle.packet_view.specs.Placed.{AreInOrder, parts_of_all};

/// The packets that [`Packets`](crate::Packets) returns are those that the stream's pages before the first page at
/// fault hold, in order and whole. Each of those pages fits the stream's pages before it, and the fault is that of
/// what comes next. Of the packets that end in a page the last has the page's position, and those before it have
/// none.
pub fn packets_are_held()
    ensures { (serial : ℕ) (bytes : List ℕ) → ((i : ℕ) → slice_index bytes i < 256) → AreHeld serial (found_in 0 bytes) (packets_of serial bytes) }
{}

/// The parts of these packets are the source's bytes at their places. None is empty, and none begins
/// before the end of the one before it, in the same packet or in an earlier one.
pub fn parts_are_in_order()
    ensures { (serial : ℕ) (bytes : List ℕ) → ((i : ℕ) → slice_index bytes i < 256) → AreInOrder bytes 0 (parts_of_all (packets_of serial bytes).packets) }
{}

/// Each part of a packet lies in the body of a page of its stream, in the order of the pages, and no
/// page has two parts of one packet.
pub fn a_page_has_one_part_of_a_packet()
    ensures { (serial : ℕ) (bytes : List ℕ) → ((i : ℕ) → slice_index bytes i < 256)
        → AllByRecursion (λ packet. LieApart serial (pages_found (found_in 0 bytes)) packet.parts) (packets_of serial bytes).packets }
{}

/// The parts that [`Stream`](crate::Stream) lends are those of the packets that [`Packets`](crate::Packets) returns
/// for the same bytes. Joined from a first part to the next last one they are the packets, in order and with their
/// positions, and the same fault follows. The first byte is at this offset of the source.
pub fn parts_are_of_the_packets()
    ensures { (serial offset : ℕ) (bytes : List ℕ) → ((i : ℕ) → slice_index bytes i < 256)
        → AreTheirParts (packets_from serial at_start [] (found_in offset bytes))
        (parts_from serial at_start false (found_in offset bytes)) }
{}
