//! Copies out of a small file, and pages of damaged bytes, with sizes counted by hand from RFC 3533, section 6.
use crate::feeds::fakes::FakeWriter;
use crate::files::{Failing, Held, PageSpec, change, file_again, file_of, over, write_short};
use crate::packets::streams::{Want, next_of};
use link_index::{Index, IndexFault};
use ogg_page::{FIRST, LAST, PageBuffer, PageHead, PageSource, Window};
use ogg_split::*;
use packet_view::{Packets, Stream, StreamFault, ViewFault};
use std::alloc::Global;
use std::io::{self, Write};
use std::test::Fail;

/// Two streams in a link. The second packet of stream 1 has two parts, and a page of stream 2 comes between them. The
/// pages have 31, 31, 65,307, 29, 5,022 and 27 bytes.
const TWO_STREAMS: [PageSpec; 6] = [
    (FIRST, 0, 1, 0, Held::Short(b"abc")),
    (FIRST, 0, 2, 0, Held::Short(b"abc")),
    (0, u64::MAX, 1, 1, Held::Front),
    (0, 9, 2, 1, Held::Short(b"x")),
    (5, 7, 1, 2, Held::Rest),
    (LAST, 9, 2, 2, Held::Nothing),
];

/// A window over bytes of which the read of this number fails; at 0 no read fails.
fn window_over<'a>(
    alloc: Global,
    bytes: &'a [u8],
    fails_at: u64,
) -> Result<Window<Failing<'a>>, Memory> {
    let source = Failing::new(bytes, fails_at);
    Ok(over(source, PageBuffer::new(alloc)?, 0, 0))
}

/// Copies out of a slice, the link or one of its streams.
fn copy<W: Write>(
    bytes: &[u8],
    index: &Index,
    asked: (u32, Option<u32>),
    out: &mut W,
) -> Result<u64, SplitFault> {
    match asked {
        (link, Some(serial)) => copy_stream(bytes, index, link, serial, out),
        (link, None) => copy_link(bytes, index, link, out),
    }
}

/// Copies out of a window, the link or one of its streams.
fn copy_from<S: PageSource, W: Write>(
    window: &mut Window<S>,
    index: &Index,
    asked: (u32, Option<u32>),
    out: &mut W,
) -> Result<u64, SplitFault> {
    match asked {
        (link, Some(serial)) => copy_stream_from(window, index, link, serial, out),
        (link, None) => copy_link_from(window, index, link, out),
    }
}

/// A link, a serial or none, and what a copy answers.
const COPIES: [((u32, Option<u32>), Result<u64, SplitFault>); 6] = [
    ((0, None), Ok(70_447)),
    ((0, Some(1)), Ok(70_360)),
    ((0, Some(2)), Ok(87)),
    ((0, Some(3)), Err(SplitFault::NoStream)),
    ((1, None), Err(SplitFault::NoLink)),
    ((1, Some(1)), Err(SplitFault::NoLink)),
];

/// What a copy answers, and the bytes that it writes.
type Copied = (Result<u64, SplitFault>, Vec<u8>);

/// A copy out of the slice.
fn copied(alloc: Global, bytes: &[u8], index: &Index, asked: (u32, Option<u32>)) -> Copied {
    let mut out = Vec::new(alloc);
    (copy(bytes, index, asked, &mut out), out)
}

/// A copy out of the window.
fn copied_from<S: PageSource>(
    alloc: Global,
    window: &mut Window<S>,
    index: &Index,
    asked: (u32, Option<u32>),
) -> Copied {
    let mut out = Vec::new(alloc);
    (copy_from(window, index, asked, &mut out), out)
}

/// The pages that a copy writes if it answers this.
fn wanted(
    alloc: Global,
    asked: (u32, Option<u32>),
    answer: Result<u64, SplitFault>,
) -> Result<Vec<u8>, Memory> {
    match answer {
        Ok(_) => file_of(alloc, &TWO_STREAMS, asked.1),
        Err(_) => Ok(Vec::new(alloc)),
    }
}

/// Whether all copies out of the slice answer and write what they must.
fn slice_is_copied(alloc: Global, bytes: &[u8], index: &Index) -> Result<bool, Memory> {
    for &(asked, want) in &COPIES {
        let (answer, out) = copied(alloc, bytes, index, asked);
        if answer != want || out != wanted(alloc, asked, want)? {
            return Ok(false);
        }
    }
    Ok(true)
}

/// The same for copies out of one window.
fn window_is_copied(alloc: Global, bytes: &[u8], index: &Index) -> Result<bool, Memory> {
    let mut window = window_over(alloc, bytes, 0)?;
    for &(asked, want) in &COPIES {
        let (answer, out) = copied_from(alloc, &mut window, index, asked);
        if answer != want || out != wanted(alloc, asked, want)? {
            return Ok(false);
        }
    }
    Ok(true)
}

#[test]
fn a_copy_is_the_pages_asked_for(rt: HostRuntime) -> Result<(), Fail> {
    let bytes = file_of(rt.alloc(), &TWO_STREAMS, None)?;
    let index = Index::scan(rt.alloc(), &bytes)?;
    assert!(rt; slice_is_copied(rt.alloc(), &bytes, &index)?);
    assert!(rt; window_is_copied(rt.alloc(), &bytes, &index)?);
    Ok(())
}

/// The index of these bytes, made once more if memory is refused.
fn scanned(alloc: Global, bytes: &[u8]) -> Result<Index, IndexFault> {
    match Index::scan(alloc, bytes) {
        Err(IndexFault::Memory) => Index::scan(alloc, bytes),
        answer => answer,
    }
}

/// A window over these bytes, made once more if memory is refused.
fn window_again<'a>(alloc: Global, bytes: &'a [u8]) -> Result<Window<Failing<'a>>, Memory> {
    match window_over(alloc, bytes, 0) {
        Ok(window) => Ok(window),
        Err(_) => window_over(alloc, bytes, 0),
    }
}

/// `rt try --test --fail-alloc N` refuses the `N`th request for memory. Copies make none.
#[test]
fn copies_are_made_after_memory_was_refused(rt: HostRuntime) -> Result<(), Fail> {
    let bytes = file_again(rt.alloc(), &TWO_STREAMS)?;
    let index = scanned(rt.alloc(), &bytes)?;
    let mut window = window_again(rt.alloc(), &bytes)?;
    for &(asked, want) in &COPIES {
        assert!(rt; copy(&bytes, &index, asked, &mut io::sink()) == want);
        assert!(rt; copy_from(&mut window, &index, asked, &mut io::sink()) == want);
    }
    Ok(())
}

/// The read that fails, the write that fails, the fault of copying stream 1, and how many bytes were written before it.
const FAILURES: [(u64, u64, SplitFault, usize); 5] = [
    (1, 9, SplitFault::Source, 0),
    (2, 9, SplitFault::Source, 31),
    (3, 9, SplitFault::Source, 65_338),
    (0, 1, SplitFault::Write, 0),
    (0, 3, SplitFault::Write, 65_338),
];

/// What a copy of stream 1 answers, whose read and write with these numbers fail, and what it writes.
fn failed(
    alloc: Global,
    bytes: &[u8],
    index: &Index,
    (read, write): (u64, u64),
) -> Result<(Option<SplitFault>, FakeWriter), Memory> {
    let mut window = window_over(alloc, bytes, read)?;
    let mut out = FakeWriter::new(Vec::new(alloc), 65_307, write);
    let answer = copy_from(&mut window, index, (0, Some(1)), &mut out);
    Ok((answer.err(), out))
}

/// Whether each copy that fails writes so many bytes of stream 1's pages, and no other.
fn prefixes_are_left(alloc: Global, bytes: &[u8], index: &Index) -> Result<bool, Memory> {
    let all = file_of(alloc, &TWO_STREAMS, Some(1))?;
    for &(read, write, want, count) in &FAILURES {
        let (fault, out) = failed(alloc, bytes, index, (read, write))?;
        let written = out.written();
        if fault != Some(want) || written.len() != count || !all.starts_with(written) {
            return Ok(false);
        }
    }
    Ok(true)
}

/// What copies of the link and of stream 2 come to, and whether packets of stream 2 are given.
fn of_short(alloc: Global, short: &[u8], index: &Index) -> (Copied, Copied, bool) {
    (
        copied(alloc, short, index, (0, None)),
        copied(alloc, short, index, (0, Some(2))),
        packets_of(short, index, 0, 2).is_ok(),
    )
}

/// Whether these copies wrote nothing, as bytes are missing, and packets aren't given.
fn is_refused(((link, all), (stream, one), are_given): (Copied, Copied, bool)) -> bool {
    let faults = (link, stream) == (Err(SplitFault::Source), Err(SplitFault::Source));
    faults && all.is_empty() && one.is_empty() && !are_given
}

#[test]
fn a_fault_leaves_a_prefix(rt: HostRuntime) -> Result<(), Fail> {
    let bytes = file_of(rt.alloc(), &TWO_STREAMS, None)?;
    let index = Index::scan(rt.alloc(), &bytes)?;
    assert!(rt; prefixes_are_left(rt.alloc(), &bytes, &index)?);
    let short = bytes.get(..70_446).unwrap_or(&[]);
    assert!(rt; is_refused(of_short(rt.alloc(), short, &index)));
    Ok(())
}

/// The sizes of the next three packets, of which the third is that there is none.
fn sizes_left(packets: &mut Packets) -> Result<[Option<usize>; 3], ViewFault> {
    Ok([
        size_of_next(packets)?,
        size_of_next(packets)?,
        size_of_next(packets)?,
    ])
}

/// The size of the next packet.
fn size_of_next(packets: &mut Packets) -> Result<Option<usize>, ViewFault> {
    match packets.next()? {
        Some(packet) => Ok(Some(packet.len())),
        None => Ok(None),
    }
}

/// Whether the packets of stream 1 are given, of 3 and of 70,000 bytes.
fn packets_are_given(bytes: &[u8], index: &Index) -> bool {
    match packets_of(bytes, index, 0, 1) {
        Ok(mut packets) => sizes_left(&mut packets) == Ok([Some(3), Some(70_000), None]),
        Err(_) => false,
    }
}

/// The parts of stream 1: how many bytes each has, whether its packet begins and ends with it, and its position.
const PARTS: [Option<Want>; 4] = [
    Some((3, true, true, Some(0))),
    Some((65_025, true, false, None)),
    Some((4_975, false, true, Some(7))),
    None,
];

/// The parts that a stream is left with, as far as a fourth one.
fn parts_left<S: PageSource>(stream: &mut Stream<S>) -> Result<[Option<Want>; 4], StreamFault> {
    Ok([
        next_of(stream)?,
        next_of(stream)?,
        next_of(stream)?,
        next_of(stream)?,
    ])
}

/// The fault that `parts_of` gives back with the window.
fn refused<'a>(
    window: Window<Failing<'a>>,
    index: &Index,
    asked: (u32, u32),
) -> (Option<SplitFault>, Window<Failing<'a>>) {
    match parts_of(window, index, asked.0, asked.1) {
        Err((fault, window)) => (Some(fault), window),
        Ok(stream) => (None, stream.into_window()),
    }
}

/// The faults of a link and of a serial that aren't there, and then the parts of stream 1, all by one window.
fn parts_after_faults(
    window: Window<Failing>,
    index: &Index,
) -> (Option<SplitFault>, Option<SplitFault>, bool) {
    let (no_link, window) = refused(window, index, (1, 1));
    let (no_stream, window) = refused(window, index, (0, 3));
    (no_link, no_stream, are_given(window, index))
}

/// Whether the parts of stream 1 are given by this window.
fn are_given(window: Window<Failing>, index: &Index) -> bool {
    match parts_of(window, index, 0, 1) {
        Ok(mut stream) => parts_left(&mut stream) == Ok(PARTS),
        Err(_) => false,
    }
}

/// The faults of asking for the packets of a link and of a serial that aren't there.
fn faults_of(bytes: &[u8], index: &Index) -> (Option<SplitFault>, Option<SplitFault>) {
    (
        packets_of(bytes, index, 1, 1).err(),
        packets_of(bytes, index, 0, 3).err(),
    )
}

/// Writes the second packet of stream 1, which has a part in each of two pages.
fn second_is_written<W: Write>(bytes: &[u8], index: &Index, out: &mut W) -> bool {
    let Ok(mut packets) = packets_of(bytes, index, 0, 1) else {
        return false;
    };
    if size_of_next(&mut packets) != Ok(Some(3)) {
        return false;
    }
    match packets.next() {
        Ok(Some(packet)) => packet.write_to(out).is_ok(),
        _ => false,
    }
}

/// Whether these are the bodies of the pages at 62 and 65,398, whose heads have 282 and 47 bytes.
fn are_its_bodies(bytes: &[u8], written: &[u8]) -> bool {
    let (first, second) = written.split_at(written.len().min(65_025));
    bytes.get(344..65_369) == Some(first) && bytes.get(65_445..70_420) == Some(second)
}

#[test]
fn a_packet_of_70000_bytes_is_written_whole(rt: HostRuntime) -> Result<(), Fail> {
    let bytes = file_of(rt.alloc(), &TWO_STREAMS, None)?;
    let index = Index::scan(rt.alloc(), &bytes)?;
    let mut out = Vec::new(rt.alloc());
    assert!(rt; second_is_written(&bytes, &index, &mut out) && out.len() == 70_000);
    assert!(rt; are_its_bodies(&bytes, &out));
    Ok(())
}

/// Whether a writer that fails at once gets nothing of a copy.
fn gets_nothing(alloc: Global, bytes: &[u8], index: &Index, asked: (u32, Option<u32>)) -> bool {
    let mut out = FakeWriter::new(Vec::new(alloc), 65_307, 1);
    copy(bytes, index, asked, &mut out) == Err(SplitFault::Write) && out.written().is_empty()
}

#[test]
fn a_writer_that_fails_at_once_gets_nothing(rt: HostRuntime) -> Result<(), Fail> {
    let alloc = rt.alloc();
    let bytes = file_of(alloc, &TWO_STREAMS, None)?;
    let index = Index::scan(alloc, &bytes)?;
    assert!(rt; gets_nothing(alloc, &bytes, &index, (0, None)));
    assert!(rt; gets_nothing(alloc, &bytes, &index, (0, Some(2))));
    Ok(())
}

#[test]
fn the_packets_and_the_parts_of_a_stream_are_given(rt: HostRuntime) -> Result<(), Fail> {
    let bytes = file_of(rt.alloc(), &TWO_STREAMS, None)?;
    let index = Index::scan(rt.alloc(), &bytes)?;
    let (no_link, no_stream) = (Some(SplitFault::NoLink), Some(SplitFault::NoStream));
    assert!(rt; faults_of(&bytes, &index) == (no_link, no_stream));
    assert!(rt; packets_are_given(&bytes, &index));
    let window = window_over(rt.alloc(), &bytes, 0)?;
    assert!(rt; parts_after_faults(window, &index) == (no_link, no_stream, true));
    Ok(())
}

/// A stream with two packets, in pages of 31, 33 and 27 bytes.
const ONE_STREAM: [PageSpec; 3] = [
    (FIRST, 0, 1, 0, Held::Short(b"abc")),
    (0, 5, 1, 1, Held::Short(b"hello")),
    (LAST, 5, 1, 2, Held::Nothing),
];

/// Pages, the offset of a byte that is changed if one is, and the good pages of what is left.
const DAMAGES: [(&[PageSpec], Option<usize>, &[(u64, u64)]); 4] = [
    (&[], None, &[]),
    (&ONE_STREAM, None, &[(0, 31), (31, 33), (64, 27)]),
    (&ONE_STREAM, Some(59), &[(0, 31), (64, 27)]),
    (&ONE_STREAM, Some(90), &[(0, 31), (31, 33)]),
];

/// A page that holds another as its packet: the inner page is listed if the outer one is no page.
const NESTED: [(Option<usize>, &[(u64, u64)]); 2] = [
    (None, &[(0, 31), (31, 59)]),
    (Some(31), &[(0, 31), (59, 31)]),
];

/// Whether these are the good pages.
fn lists(alloc: Global, bytes: &[u8], want: &[(u64, u64)]) -> Result<bool, Memory> {
    let found = salvage(alloc, bytes)?;
    let mut pairs = Vec::new(alloc);
    for page in &found {
        pairs.push((page.offset, page.length))?;
    }
    Ok(pairs.as_slice() == want)
}

/// Changes the byte at this place, if there is one.
fn damage(bytes: &mut [u8], place: Option<usize>) {
    if let Some(place) = place {
        if let Some(byte) = bytes.get_mut(place) {
            *byte ^= 0x20;
        }
    }
}

const FIRST_PAGE: [PageSpec; 1] = [(FIRST, 0, 1, 0, Held::Short(b"abc"))];

const LATER_HEAD: PageHead = PageHead {
    flags: 0,
    position: 5,
    serial: 1,
    sequence: 1,
};

/// A page, and then a page that holds it as its packet.
fn nested(alloc: Global) -> Result<Vec<u8>, Memory> {
    let inner = file_of(alloc, &FIRST_PAGE, None)?;
    let mut bytes = inner.as_slice().to_vec(alloc)?;
    write_short(&LATER_HEAD, inner.as_slice(), &mut bytes)?;
    Ok(bytes)
}

#[test]
fn good_pages_are_found_around_damage(rt: HostRuntime) -> Result<(), Fail> {
    for &(pages, changed, good) in &DAMAGES {
        let mut bytes = file_of(rt.alloc(), pages, None)?;
        damage(&mut bytes, changed);
        assert!(rt; lists(rt.alloc(), &bytes, good)?);
    }
    for &(changed, good) in &NESTED {
        let mut bytes = nested(rt.alloc())?;
        damage(&mut bytes, changed);
        assert!(rt; lists(rt.alloc(), &bytes, good)?);
    }
    Ok(())
}
