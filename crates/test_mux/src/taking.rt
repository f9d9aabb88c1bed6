//! Files that were put together by hand, whose pages are taken one after the other, with checksums by another
//! program; and the refusal of a command after pages that no command made.
use crate::pages::{FIRST, SECOND, THIRD};
use crate::records::Packet::Text;
use crate::records::Record::{Begin, BeginMany, BeginOne, End, Put};
use crate::records::{Record, append};
use crate::running::{ReadPacket, read, run, run_of, second};
use chain_rules::{ChainFault, Command, Refusal, Shape};
use feed_codec::{Feed, FeedFault};
use link_chain::{Chain, WalkFault};
use ogg_page::split_page;
use std::alloc::Global;
use std::test::Fail;
use test_feeds::bytes_of;

/// The first page of stream 2: `abc`.
const OTHER: &[u8] = b"OggS\0\x02\0\0\0\0\0\0\0\0\x02\0\0\0\0\0\0\0u\x8e\x83-\x01\x03abc";

/// The first page of stream 65: `abc`.
const LATER: &[u8] = b"OggS\0\x02\0\0\0\0\0\0\0\0\x41\0\0\0\0\0\0\0\xb9\xe1\xff\xf6\x01\x03abc";

/// A file, and how far its pages are taken.
#[derive(Clone, Copy)]
struct File {
    pieces: &'static [&'static [u8]],
    /// The end of the pages that are taken.
    end: u64,
    /// What is wrong with the page after them.
    fault: Option<ChainFault>,
    /// The first stream with an unfinished packet.
    unfinished: Option<u32>,
}

/// Two streams in one link. The second packet of stream 1 has 70,000 bytes in two pages, and a page of stream 2
/// stands between these.
const TWO_PARTS: File = File {
    pieces: &[
        FIRST,
        OTHER,
        b"OggS\0\0\xff\xff\xff\xff\xff\xff\xff\xff\x01\0\0\0\x01\0\0\0\xb3!\xbe\x1a\xff",
        &[255; 255],
        &[7; 65_025],
        b"OggS\0\0\x01\0\0\0\0\0\0\0\x02\0\0\0\x01\0\0\0\xaf\x18\xff\xf9\x01\x01x",
        b"OggS\0\x05\x09\0\0\0\0\0\0\0\x01\0\0\0\x02\0\0\0\x1e\x92\xa9\xda\x14",
        &[255; 19],
        &[130],
        &[7; 4975],
        b"OggS\0\x04\x01\0\0\0\0\0\0\0\x02\0\0\0\x02\0\0\0\x8ai\x18\xad\0",
    ],
    end: 70_447,
    fault: None,
    unfinished: None,
};

/// Files with a page that may not follow, and files without one.
const FILES: [File; 14] = [
    TWO_PARTS,
    // No page.
    File {
        pieces: &[],
        end: 0,
        fault: None,
        unfinished: None,
    },
    // A link that has ended. Only a first page may follow, also if its stream is known.
    File {
        pieces: &[FIRST, SECOND, THIRD],
        end: 91,
        fault: None,
        unfinished: None,
    },
    File {
        pieces: &[FIRST, SECOND, THIRD, FIRST],
        end: 122,
        fault: None,
        unfinished: None,
    },
    // A page that is no stream's first, before any.
    File {
        pieces: &[b"OggS\0\0\0\0\0\0\0\0\0\0\x01\0\0\0\0\0\0\0\xb1\x86\x10\xd1\x01\x03abc"],
        end: 0,
        fault: Some(ChainFault::BosPlace),
        unfinished: None,
    },
    // A page of a stream that has no first one.
    File {
        pieces: &[
            FIRST,
            b"OggS\0\0\0\0\0\0\0\0\0\0\x02\0\0\0\x01\0\0\0\x7f1\xb3\xff\x01\x01x",
        ],
        end: 31,
        fault: Some(ChainFault::NoStream),
        unfinished: None,
    },
    // The page's number is 2, and 1 would follow.
    File {
        pieces: &[
            FIRST,
            b"OggS\0\0\0\0\0\0\0\0\0\0\x01\0\0\0\x02\0\0\0\xdb\x9aV\x92\x01\x01x",
        ],
        end: 31,
        fault: Some(ChainFault::Sequence),
        unfinished: None,
    },
    // The page goes on with a packet, and there is none to go on with.
    File {
        pieces: &[
            FIRST,
            b"OggS\0\x01\0\0\0\0\0\0\0\0\x01\0\0\0\x01\0\0\0\xec\x92\xcd\xca\x01\x01x",
        ],
        end: 31,
        fault: Some(ChainFault::Continued),
        unfinished: None,
    },
    // The first page of a stream that has one in this link.
    File {
        pieces: &[FIRST, FIRST],
        end: 31,
        fault: Some(ChainFault::SerialTwice),
        unfinished: None,
    },
    // A first page whose packet goes on.
    File {
        pieces: &[
            FIRST,
            b"OggS\0\x02\0\0\0\0\0\0\0\0\x02\0\0\0\0\0\0\0p\xa3\xe61\x01\xff",
            &[7; 255],
        ],
        end: 31,
        fault: Some(ChainFault::BosShape),
        unfinished: None,
    },
    // A last page whose packet goes on; a page that isn't the last may have such a packet.
    File {
        pieces: &[
            FIRST,
            b"OggS\0\x04\xff\xff\xff\xff\xff\xff\xff\xff\x01\0\0\0\x01\0\0\0\xd8\xd5l\xdc\x01\xff",
            &[7; 255],
        ],
        end: 31,
        fault: Some(ChainFault::EosUnfinished),
        unfinished: None,
    },
    File {
        pieces: &[
            FIRST,
            b"OggS\0\0\xff\xff\xff\xff\xff\xff\xff\xff\x01\0\0\0\x01\0\0\0\xa9\xe7_\xe0\x01\xff",
            &[7; 255],
        ],
        end: 314,
        fault: None,
        unfinished: Some(1),
    },
    // A page after its stream's last one.
    File {
        pieces: &[
            FIRST,
            SECOND,
            THIRD,
            b"OggS\0\0\x06\0\0\0\0\0\0\0\x01\0\0\0\x03\0\0\0\xd5\xe9R~\x01\x01x",
        ],
        end: 91,
        fault: Some(ChainFault::AfterEos),
        unfinished: None,
    },
    // A first page after the pages with data of a link that hasn't ended.
    File {
        pieces: &[FIRST, SECOND, OTHER],
        end: 64,
        fault: Some(ChainFault::BosWhileOpen),
        unfinished: None,
    },
];

/// How far the pages of a file were taken.
#[derive(Drop)]
pub struct Taken {
    /// The chain of the pages that were taken.
    pub shape: Shape,
    /// The end of these pages.
    pub end: u64,
    /// What is wrong with the page after them.
    pub fault: Option<ChainFault>,
}

/// Takes the pages in these bytes, which are pages and nothing else, up to the first fault.
pub fn take_pages(alloc: Global, bytes: &[u8]) -> Result<Taken, Fail> {
    let mut chain = Chain::new(alloc);
    let walk = link_chain::take_pages(&mut chain, bytes);
    let fault = match walk.fault {
        None => None,
        Some(WalkFault::Chain(fault)) => Some(fault),
        Some(WalkFault::Page(_)) => return Err("no page".into()),
    };
    Ok(Taken {
        shape: Shape::of(chain),
        end: walk.end as u64,
        fault,
    })
}

/// The same by a shape, which takes one page after the other, at most 16.
fn take_one_by_one(alloc: Global, bytes: &[u8]) -> Result<Taken, Fail> {
    let mut shape = Shape::new(alloc);
    let mut rest = bytes;
    let mut fault = None;
    for _ in 0..16 {
        if rest.is_empty() || fault.is_some() {
            break;
        }
        let Ok((page, others)) = split_page(rest) else {
            return Err("no page".into());
        };
        if rest.len() > 1 << 40 || shape.len() > 1 << 40 {
            return Err("too long".into());
        }
        match shape.take_page(&page) {
            Ok(()) => rest = others,
            Err(first) => fault = Some(first),
        }
    }
    let end = shape.len();
    Ok(Taken { shape, end, fault })
}

/// Whether the file's pages are taken as far as it says.
fn is_as_far(taken: &Taken, file: &File) -> bool {
    let left = (taken.end, taken.fault, taken.shape.unfinished());
    left == (file.end, file.fault, file.unfinished)
}

/// Whether they are, all at once and one by one.
fn is_taken(alloc: Global, file: &File) -> Result<bool, Fail> {
    let bytes = bytes_of(alloc, file.pieces)?;
    let taken = take_pages(alloc, bytes.as_slice())?;
    let one_by_one = take_one_by_one(alloc, bytes.as_slice())?;
    Ok(is_as_far(&taken, file) && is_as_far(&one_by_one, file))
}

#[test]
fn pages_are_taken_up_to_the_first_fault(rt: HostRuntime) -> Result<(), Fail> {
    for file in &FILES {
        assert!(rt; is_taken(rt.alloc(), file)?);
    }
    Ok(())
}

/// The packets of stream 1 after its header's, and the parts of its second one.
const OF_1: [ReadPacket; 2] = [(3, 1, Some(0)), (70_000, 2, Some(9))];

const PARTS_OF_1: [(usize, bool); 2] = [(65_025, true), (4975, true)];

/// Whether stream 1 is read, its second packet in parts.
fn stream_1_is_read(alloc: Global, bytes: &[u8]) -> Result<bool, Fail> {
    let (header, packets) = read(alloc, bytes, 1)?;
    let (whole, parts) = second(alloc, bytes, 1)?;
    let is_listed = header == Some(b"abc".as_slice()) && packets.as_slice() == OF_1.as_slice();
    Ok(is_listed && whole.is_none() && parts.as_slice() == PARTS_OF_1.as_slice())
}

/// Whether stream 2 is read, its second packet whole.
fn stream_2_is_read(alloc: Global, bytes: &[u8]) -> Result<bool, Fail> {
    let (header, packets) = read(alloc, bytes, 2)?;
    let (whole, _) = second(alloc, bytes, 2)?;
    let is_listed = header == Some(b"abc".as_slice()) && packets.len() == 2;
    Ok(is_listed && whole == Some(b"x".as_slice()))
}

#[test]
fn a_packet_is_read_in_two_parts(rt: HostRuntime) -> Result<(), Fail> {
    let bytes = bytes_of(rt.alloc(), TWO_PARTS.pieces)?;
    assert!(rt; stream_1_is_read(rt.alloc(), &bytes)?);
    assert!(rt; stream_2_is_read(rt.alloc(), &bytes)?);
    Ok(())
}

#[test]
fn the_65th_stream_of_a_link_is_too_many(rt: HostRuntime) -> Result<(), Fail> {
    let run = run_of(rt.alloc(), &[BeginMany(64)])?;
    let mut pages = run.pages.to_vec(rt.alloc())?;
    pages.extend_from_slice(LATER)?;
    let taken = take_pages(rt.alloc(), pages.as_slice())?;
    assert!(rt; (taken.end, taken.fault) == (1984, Some(ChainFault::TooMany)));
    Ok(())
}

/// What these bytes begin with.
fn first_of(alloc: Global, bytes: &[u8]) -> Result<Option<feed_codec::Record>, FeedFault> {
    let mut rest = bytes;
    Feed::new(alloc).next(&mut rest)
}

/// The command of this record.
fn command_of(alloc: Global, record: Record) -> Result<Command, Fail> {
    let mut bytes = Vec::new(alloc);
    append(record, &mut bytes)?;
    match first_of(alloc, &bytes)? {
        Some(feed_codec::Record::Command(command)) => Ok(command),
        _ => Err("no command".into()),
    }
}

/// What the rules answer to a command after these pages.
fn answer(alloc: Global, pages: &[u8], command: &Command) -> Result<Option<Refusal>, Fail> {
    let taken = take_pages(alloc, pages)?;
    if taken.fault.is_some() {
        return Err("a page isn't taken".into());
    }
    Ok(taken.shape.check(command).err())
}

/// Commands that would need one more page.
const ONE_MORE: [Record; 2] = [Put(&[(1, 5, Text(b"hello"))]), End(1)];

/// The first page of stream 1 with the last number that a page can have: `abc`.
const LAST: &[u8] = b"OggS\0\x02\0\0\0\0\0\0\0\0\x01\0\0\0\xff\xff\xff\xff\x9d\x0ck\xab\x01\x03abc";

#[test]
fn no_page_follows_the_last_number(rt: HostRuntime) -> Result<(), Fail> {
    for &record in &ONE_MORE {
        let command = command_of(rt.alloc(), record)?;
        assert!(rt; answer(rt.alloc(), LAST, &command)? == Some(Refusal::SequenceEnd));
    }
    Ok(())
}

/// Another link, whose stream has a serial that is new.
const NEXT: Record = Begin(&[(0, &[Text(b"abc")])]);

/// The feed of 65,536 links of one stream.
fn links(alloc: Global) -> Result<Vec<u8>, Fail> {
    let mut feed = Vec::new(alloc);
    for serial in 1..=65_536 {
        append(BeginOne(serial), &mut feed)?;
        append(End(serial), &mut feed)?;
    }
    Ok(feed)
}

/// Whether another link is refused after these pages, and taken if there is one link less. A link has two pages, of 31
/// and 27 bytes.
fn is_full(alloc: Global, pages: &[u8]) -> Result<bool, Fail> {
    let next = command_of(alloc, NEXT)?;
    let fewer = pages.get(58..).unwrap_or(&[]);
    Ok(
        pages.len() == 65_536 * 58
            && answer(alloc, pages, &next)? == Some(Refusal::LinksFull)
            && answer(alloc, fewer, &next)? == None,
    )
}

#[test]
fn links_are_taken_until_there_are_65536(rt: HostRuntime) -> Result<(), Fail> {
    let run = run(rt.alloc(), &links(rt.alloc())?)?;
    assert!(rt; run.result.is_ok());
    assert!(rt; is_full(rt.alloc(), &run.pages)?);
    Ok(())
}
