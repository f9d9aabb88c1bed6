//! Feeds that are run to their end, and feeds that end in a fault: each answer, and the pages.
use crate::pages::{FIRST, SECOND, THIRD};
use crate::records::Packet::{Text, Zeros};
use crate::records::Record::{
    Begin, BeginMany, BeginManyWithSkeleton, BeginWithFields, BeginWithSkeleton, Bytes, End, Flush,
    Put, PutMany, Version,
};
use crate::records::{Described, Field, Packet, Record, append};
use crate::running::{ReadPacket, read, run, run_of, stand};
use crate::taking::take_pages;
use chain_rules::{Command, Shape};
use feed_codec::{Feed, FeedFault, RunFault};
use ogg_page::PageBuffer;
use std::alloc::Global;
use std::test::Fail;

/// A begin of the stream with serial 1 and the header `abc`.
const ONE: Record = Begin(&[(1, &[Text(b"abc")])]);

/// A put of `hello` at position 5.
const HELLO: Record = Put(&[(1, 5, Text(b"hello"))]);

/// A stream with serial 1 and the header `abc`, as a Skeleton describes it.
const VORBIS: Described = Described {
    serial: 1,
    headers: &[Text(b"abc")],
    media: b"audio/vorbis",
    rate: (44_100, 1),
};

/// A message field that is written.
const TITLE: Field = (b"Title", b"One");

/// The longest packet of a put, 8,388,608 bytes.
const LONGEST: (u32, u64, Packet) = (1, 0, Zeros(8_388_608));

/// A feed, and the result of its run.
struct Example {
    /// Each record, and the line that answers it; an announcement has none.
    turns: &'static [(Record, &'static str)],
    /// The length of the pages.
    end: u64,
    /// Bytes of the pages, each with the offset at which they stand.
    found: &'static [(usize, &'static [u8])],
}

/// Feeds without a fault.
const EXAMPLES: [Example; 22] = [
    // No command.
    Example {
        turns: &[],
        end: 0,
        found: &[],
    },
    // A link, a packet and the stream's end. After that no link is open.
    Example {
        turns: &[
            (PutMany(0, Zeros(0)), "refused 3 NoLink\n"),
            (ONE, "kept 1 31\n"),
            (HELLO, "kept 2 64\n"),
            (End(1), "kept 3 91\n"),
            (
                Begin(&[(2, &[Text(b"abc")]), (2, &[Text(b"abc")])]),
                "refused 6 SerialTaken\n",
            ),
            (End(1), "refused 3 NoLink\n"),
        ],
        end: 91,
        found: &[(0, FIRST), (31, SECOND), (64, THIRD)],
    },
    // Packets whose lengths are multiples of 255, or nearly.
    Example {
        turns: &[
            (ONE, "kept 1 31\n"),
            (
                Put(&[
                    (1, 0, Zeros(0)),
                    (1, 0, Zeros(254)),
                    (1, 0, Zeros(255)),
                    (1, 0, Zeros(510)),
                ]),
                "kept 2 1084\n",
            ),
        ],
        end: 1084,
        found: &[(57, &[7, 0, 254, 255, 0, 255, 255, 0])],
    },
    // The longest packet that lies whole in a page.
    Example {
        turns: &[
            (ONE, "kept 1 31\n"),
            (Put(&[(1, 7, Zeros(65_024))]), "kept 2 65337\n"),
        ],
        end: 65_337,
        found: &[(31, b"OggS\0\0\x07\0\0\0\0\0\0\0")],
    },
    // One further byte: no packet ends in its first page, and the second goes on with it.
    Example {
        turns: &[
            (ONE, "kept 1 31\n"),
            (Put(&[(1, 7, Zeros(65_025))]), "kept 2 65366\n"),
        ],
        end: 65_366,
        found: &[
            (31, b"OggS\0\0\xff\xff\xff\xff\xff\xff\xff\xff"),
            (65_338, b"OggS\0\x01\x07\0\0\0\0\0\0\0\x01\0\0\0\x02\0\0\0"),
            (65_364, &[1, 0]),
        ],
    },
    // As many lacing values as a page has, and one more.
    Example {
        turns: &[
            (ONE, "kept 1 31\n"),
            (PutMany(255, Zeros(0)), "kept 2 313\n"),
        ],
        end: 313,
        found: &[(57, &[255, 0])],
    },
    Example {
        turns: &[
            (ONE, "kept 1 31\n"),
            (PutMany(256, Zeros(0)), "kept 2 341\n"),
        ],
        end: 341,
        found: &[(57, &[255, 0]), (313, b"OggS\0\0\0\0"), (339, &[1, 0])],
    },
    // A put with one entry that is refused: none of it is written.
    Example {
        turns: &[
            (ONE, "kept 1 31\n"),
            (
                Put(&[(1, 5, Text(b"hello")), (7, 5, Text(b"x"))]),
                "refused 12 UnknownSerial\n",
            ),
        ],
        end: 31,
        found: &[(0, FIRST)],
    },
    // Two streams that end one after the other, and the next link.
    Example {
        turns: &[
            (
                Begin(&[(1, &[Text(b"abc")]), (2, &[Text(b"abc")])]),
                "kept 1 62\n",
            ),
            (End(1), "kept 2 89\n"),
            (End(1), "refused 13 StreamEnded\n"),
            (Begin(&[(3, &[Text(b"abc")])]), "refused 2 LinkOpen\n"),
            (End(2), "kept 3 116\n"),
            (Put(&[(2, 0, Text(b"x"))]), "refused 3 NoLink\n"),
            (Begin(&[(2, &[Text(b"abc")])]), "refused 6 SerialTaken\n"),
            (Begin(&[(3, &[Text(b"abc")])]), "kept 4 147\n"),
        ],
        end: 147,
        found: &[
            (62, b"OggS\0\x04\0\0\0\0\0\0\0\0\x01\0\0\0\x01\0\0\0"),
            (116, b"OggS\0\x02\0\0\0\0\0\0\0\0\x03\0\0\0\0\0\0\0"),
        ],
    },
    // Positions: never back, also within a put, and at most 2^63 - 1.
    Example {
        turns: &[
            (ONE, "kept 1 31\n"),
            (HELLO, "kept 2 64\n"),
            (
                Put(&[(1, 4, Text(b"x")), (7, 9, Text(b"y"))]),
                "refused 15 PositionBack\n",
            ),
            (
                Put(&[(7, 9, Text(b"y")), (1, 4, Text(b"x"))]),
                "refused 12 UnknownSerial\n",
            ),
            (
                Put(&[(1, 9, Text(b"x")), (1, 8, Text(b"y"))]),
                "refused 15 PositionBack\n",
            ),
            (Put(&[(1, 4, Text(b"x"))]), "refused 15 PositionBack\n"),
            (Put(&[(1, 5, Text(b"x"))]), "kept 3 93\n"),
            (
                Put(&[(1, 0x8000_0000_0000_0000, Text(b"x"))]),
                "refused 14 PositionRange\n",
            ),
            (
                Put(&[(1, 0x7fff_ffff_ffff_ffff, Text(b"x"))]),
                "kept 4 122\n",
            ),
        ],
        end: 122,
        found: &[(93, b"OggS\0\0\xff\xff\xff\xff\xff\xff\xff\x7f")],
    },
    // Several headers. The first stands alone in its page.
    Example {
        turns: &[(
            Begin(&[(1, &[Text(b"abc"), Text(b"de"), Text(b"f")])]),
            "kept 1 63\n",
        )],
        end: 63,
        found: &[(0, FIRST), (57, &[2, 2, 1, b'd', b'e', b'f'])],
    },
    // Entries of two streams: a run ends with the last entry of one stream.
    Example {
        turns: &[
            (
                Begin(&[(1, &[Text(b"abc")]), (2, &[Text(b"abc")])]),
                "kept 1 62\n",
            ),
            (
                Put(&[
                    (1, 0, Text(b"a")),
                    (1, 0, Text(b"b")),
                    (2, 0, Text(b"c")),
                    (1, 0, Text(b"d")),
                ]),
                "kept 2 151\n",
            ),
        ],
        end: 151,
        found: &[
            (88, &[2, 1, 1, b'a', b'b']),
            (93, b"OggS\0\0\0\0\0\0\0\0\0\0\x02\0\0\0\x01\0\0\0"),
            (122, b"OggS\0\0\0\0\0\0\0\0\0\0\x01\0\0\0\x02\0\0\0"),
        ],
    },
    // A packet of 1 MiB and a byte; the longest packet of all, and what is longer; the longest batch;
    // the most entries.
    Example {
        turns: &[
            (ONE, "kept 1 31\n"),
            (Put(&[(1, 0, Zeros(1_048_577))]), "kept 2 1053180\n"),
        ],
        end: 1_053_180,
        found: &[(0, FIRST)],
    },
    Example {
        turns: &[
            (ONE, "kept 1 31\n"),
            (
                Put(&[(1, 0, Zeros(8_388_609))]),
                "refused 9 PacketTooLong\n",
            ),
            (PutMany(17, Zeros(1_048_576)), "refused 16 BatchTooLong\n"),
            (PutMany(0, Zeros(0)), "refused 4 Empty\n"),
            (PutMany(4097, Zeros(0)), "refused 5 TooMany\n"),
            (Put(&[LONGEST]), "kept 2 8425046\n"),
        ],
        end: 8_425_046,
        found: &[(0, FIRST)],
    },
    // A flush has the last reply's numbers, and no pages.
    Example {
        turns: &[
            (Flush, "kept 0 0\n"),
            (ONE, "kept 1 31\n"),
            (HELLO, "kept 2 64\n"),
            (Flush, "kept 2 64\n"),
            (Put(&[(1, 4, Text(b"x"))]), "refused 15 PositionBack\n"),
            (Flush, "kept 2 64\n"),
            (End(1), "kept 3 91\n"),
        ],
        end: 91,
        found: &[(0, FIRST), (31, SECOND), (64, THIRD)],
    },
    // A feed of version 2: a message field stands in the stream's fisbone, after the media type.
    Example {
        turns: &[
            (Version, ""),
            (
                BeginWithFields(9, (1000, 1000), &[(VORBIS, &[TITLE])]),
                "kept 1 271\n",
            ),
            (Flush, "kept 1 271\n"),
        ],
        end: 271,
        found: &[
            (123, b"OggS\0\0\0\0\0\0\0\0\0\0\x09\0\0\0\x01\0\0\0"),
            (149, &[1, 92]),
            (203, b"Content-Type: audio/vorbis\r\nTitle: One\r\n"),
            (243, b"OggS\0\x04\0\0\0\0\0\0\0\0\x09\0\0\0\x02\0\0\0"),
        ],
    },
    // The media type under another name, an empty name, a value with a space at its end, too many fields.
    Example {
        turns: &[
            (Version, ""),
            (
                BeginWithFields(
                    9,
                    (1000, 1000),
                    &[(VORBIS, &[TITLE, (b"content-type", b"a/b")])],
                ),
                "refused 10 BadType\n",
            ),
            (
                BeginWithFields(9, (1000, 1000), &[(VORBIS, &[(b"", b"One")])]),
                "refused 10 BadType\n",
            ),
            (
                BeginWithFields(9, (1000, 1000), &[(VORBIS, &[(b"Title", b"One ")])]),
                "refused 10 BadType\n",
            ),
            (
                BeginWithFields(9, (1000, 1000), &[(VORBIS, &[TITLE; 17])]),
                "refused 5 TooMany\n",
            ),
            (
                BeginWithFields(9, (1000, 1000), &[(VORBIS, &[TITLE; 16])]),
                "kept 1 452\n",
            ),
        ],
        end: 452,
        found: &[(
            204,
            b"Content-Type: audio/vorbis\r\nTitle: One\r\nTitle: One\r\n",
        )],
    },
    // No stream, no header, a first header that doesn't lie whole in a page.
    Example {
        turns: &[
            (BeginMany(0), "refused 4 Empty\n"),
            (Begin(&[(1, &[])]), "refused 7 NoHeader\n"),
            (Begin(&[(1, &[Zeros(65_025)])]), "refused 8 HeadTooLong\n"),
            (Begin(&[(1, &[Zeros(65_024)])]), "kept 1 65306\n"),
        ],
        end: 65_306,
        found: &[(26, &[255, 255])],
    },
    // The most streams, and one more.
    Example {
        turns: &[(BeginMany(64), "kept 1 1984\n")],
        end: 1984,
        found: &[(0, FIRST)],
    },
    Example {
        turns: &[(BeginMany(65), "refused 5 TooMany\n")],
        end: 0,
        found: &[],
    },
    // A link that says what is in it: the fishead's page, the stream's first, the fisbone's, and the
    // Skeleton's last, with one empty packet.
    Example {
        turns: &[
            (
                BeginWithSkeleton(9, (1000, 1000), &[VORBIS]),
                "kept 1 259\n",
            ),
            (End(9), "refused 13 StreamEnded\n"),
            (HELLO, "kept 2 292\n"),
        ],
        end: 292,
        found: &[
            (0, b"OggS\0\x02\0\0\0\0\0\0\0\0\x09\0\0\0\0\0\0\0"),
            (27, b"\x40fishead\0\x03\0\0\0"),
            (92, FIRST),
            (123, b"OggS\0\0\0\0\0\0\0\0\0\0\x09\0\0\0\x01\0\0\0"),
            (
                150,
                b"\x50fisbone\0\x2c\0\0\0\x01\0\0\0\x01\0\0\0\x44\xac\0\0",
            ),
            (203, b"Content-Type: audio/vorbis\r\n"),
            (231, b"OggS\0\x04\0\0\0\0\0\0\0\0\x09\0\0\0\x02\0\0\0"),
            (257, b"\x01\0"),
            (259, SECOND),
        ],
    },
    // What a Skeleton can't say, in the order in which it is checked; it counts as a stream.
    Example {
        turns: &[
            (
                BeginWithSkeleton(
                    9,
                    (1000, 1000),
                    &[Described {
                        media: b"",
                        ..VORBIS
                    }],
                ),
                "refused 10 BadType\n",
            ),
            (
                BeginWithSkeleton(
                    9,
                    (1000, 1000),
                    &[Described {
                        rate: (0, 1),
                        ..VORBIS
                    }],
                ),
                "refused 11 BadRate\n",
            ),
            (
                BeginWithSkeleton(
                    9,
                    (1000, 0),
                    &[Described {
                        headers: &[],
                        ..VORBIS
                    }],
                ),
                "refused 11 BadRate\n",
            ),
            (
                BeginWithSkeleton(1, (1000, 1000), &[VORBIS]),
                "refused 6 SerialTaken\n",
            ),
            (BeginManyWithSkeleton(64), "refused 5 TooMany\n"),
            (BeginManyWithSkeleton(63), "kept 1 8877\n"),
        ],
        end: 8877,
        found: &[],
    },
];

/// The feed of an example, the lines that answer it, and how many commands it has.
fn told(alloc: Global, example: &Example) -> Result<(Vec<u8>, Vec<u8>, u64), Fail> {
    let mut feed = Vec::new(alloc);
    let mut lines = Vec::new(alloc);
    let mut commands = 0u64;
    for (record, line) in example.turns {
        append(*record, &mut feed)?;
        lines.extend_from_slice(line.as_bytes())?;
        if !matches!(record, Version | Flush) {
            commands = commands.saturating_add(1);
        }
    }
    Ok((feed, lines, commands))
}

/// The end of the pages that are taken, whether a fault follows, and the first stream with an unfinished packet.
fn taken(alloc: Global, pages: &[u8]) -> Result<(u64, bool, Option<u32>), Fail> {
    let taken = take_pages(alloc, pages)?;
    Ok((taken.end, taken.fault.is_some(), taken.shape.unfinished()))
}

/// Whether these are the example's pages: all of them are taken, and they stand where it says.
fn are_pages(alloc: Global, pages: &[u8], example: &Example) -> Result<bool, Fail> {
    Ok(
        pages.len() as u64 == example.end
            && taken(alloc, pages)? == (example.end, false, None)
            && stand(pages, example.found),
    )
}

/// Whether the example's commands are answered as it says, and their pages are written.
fn is_run(alloc: Global, example: &Example) -> Result<bool, Fail> {
    let (feed, lines, commands) = told(alloc, example)?;
    let run = run(alloc, &feed)?;
    Ok(
        run.result == Ok((commands, example.end))
            && run.replies.as_slice() == lines.as_slice()
            && are_pages(alloc, &run.pages, example)?,
    )
}

#[test]
fn each_command_is_answered_and_its_pages_are_written(rt: HostRuntime) -> Result<(), Fail> {
    for example in &EXAMPLES {
        assert!(rt; is_run(rt.alloc(), example)?);
    }
    Ok(())
}

/// Appends the pages of a command, made one at a time, if it isn't refused, and adds it to the chain.
fn add_command(
    alloc: Global,
    shape: &mut Shape,
    command: &Command,
    buffer: &mut PageBuffer,
    made: &mut Vec<u8>,
) -> Result<(), Fail> {
    if shape.check(command).is_err() {
        return Ok(());
    }
    shape.prepare(command)?;
    let mut whole = Vec::new(alloc);
    whole.extend_from_slice(made.as_slice())?;
    shape.lay(command, &mut whole)?;
    let mut pages = shape.pages(command)?;
    for left in (0..pages.left()).rev() {
        if !pages.next(buffer) || pages.left() != left {
            return Err("a page isn't made, or isn't counted".into());
        }
        made.extend_from_slice(buffer.bytes())?;
    }
    if pages.next(buffer) || made.as_slice() != whole.as_slice() {
        return Err("the pages made aren't those appended".into());
    }
    shape.accept(command);
    Ok(())
}

/// The pages of a feed's commands, made one at a time.
fn made_of(alloc: Global, feed: &[u8], turns: usize) -> Result<Vec<u8>, Fail> {
    let mut buffer = PageBuffer::new(alloc)?;
    let mut records = Feed::new(alloc);
    let mut rest = feed;
    let mut shape = Shape::new(alloc);
    let mut made = Vec::new(alloc);
    for _ in 0..turns {
        if let Some(feed_codec::Record::Command(command)) = records.next(&mut rest)? {
            add_command(alloc, &mut shape, &command, &mut buffer, &mut made)?;
        }
    }
    Ok(made)
}

#[test]
fn the_pages_made_one_at_a_time_are_those_appended(rt: HostRuntime) -> Result<(), Fail> {
    for example in &EXAMPLES {
        let (feed, ..) = told(rt.alloc(), example)?;
        let made = made_of(rt.alloc(), &feed, example.turns.len())?;
        assert!(rt; made.len() as u64 == example.end && stand(&made, example.found));
    }
    Ok(())
}

/// The begin of the stream with serial 1 and the header `abc`. The length of its payload is one byte more than its
/// streams take, and the byte is there.
const LONGER: Record = Bytes(
    b"\x01\x30\0\0\0\0\x01\0\x01\0\0\0\x01\0\x03\0\0\0abc\0\0\
      \0\0\0\0\0\0\0\0\0\0\0\0\0\0\0\0\0\0\0\0\0\0\0\0\0\0\0\0\0\0",
);

/// A feed, its fault, and the pages and the lines that are written before the fault.
type Faulty = (&'static [Record], FeedFault, &'static [u8], &'static str);

const FAULTS: [Faulty; 11] = [
    (
        &[ONE, Bytes(b"\x02\x17\0\0\0\x01\0\x01")],
        FeedFault::Truncated,
        FIRST,
        KEPT,
    ),
    (
        &[ONE, Bytes(b"\x02\x17\0")],
        FeedFault::Truncated,
        FIRST,
        KEPT,
    ),
    (
        &[ONE, Bytes(b"\x09\x04\0\0\0\x01\0\0\0")],
        FeedFault::Kind,
        FIRST,
        KEPT,
    ),
    (
        &[ONE, Bytes(b"\x02\x01\0\0\x02")],
        FeedFault::Length,
        FIRST,
        KEPT,
    ),
    (
        &[ONE, Bytes(b"\x03\x03\0\0\0\x01\0\0")],
        FeedFault::Form,
        FIRST,
        KEPT,
    ),
    (&[ONE, LONGER], FeedFault::Form, FIRST, KEPT),
    // The announcement stands only in front of all records, and a flush has no payload.
    (&[ONE, Version], FeedFault::Kind, FIRST, KEPT),
    (
        &[ONE, Bytes(b"\x04\x01\0\0\0\0")],
        FeedFault::Form,
        FIRST,
        KEPT,
    ),
    // A fault in front leaves no page. There is no version 3.
    (&[Bytes(b"\0\x01\0\0\0\x03"), ONE], FeedFault::Form, b"", ""),
    (&[Bytes(b"\0\0\0\0\0"), ONE], FeedFault::Form, b"", ""),
    // In version 2 a stream has a number of fields, even if the number is 0.
    (&[Version, ONE, HELLO], FeedFault::Form, b"", ""),
];

/// The line that answers the first begin.
const KEPT: &str = "kept 1 31\n";

/// Whether the feed ends by its fault, and has written its pages and lines then.
fn ends_so(alloc: Global, (records, fault, pages, lines): Faulty) -> Result<bool, Fail> {
    let run = run_of(alloc, records)?;
    Ok(
        run.result == Err(RunFault::Feed(fault))
            && run.pages.as_slice() == pages
            && run.replies.as_slice() == lines.as_bytes(),
    )
}

#[test]
fn what_stands_before_a_fault_of_the_feed_is_run(rt: HostRuntime) -> Result<(), Fail> {
    for faulty in &FAULTS {
        assert!(rt; ends_so(rt.alloc(), *faulty)?);
    }
    Ok(())
}

/// The header `abc`, as it is read.
const HEADER: ReadPacket = (3, 1, Some(0));

/// What is put to the stream with serial 1, each time from its beginning, and the packets that are read back.
const READ_BACK: [(Record, &[ReadPacket]); 4] = [
    (HELLO, &[HEADER, (5, 1, Some(5))]),
    (
        Put(&[
            (1, 1, Zeros(0)),
            (1, 2, Zeros(254)),
            (1, 3, Zeros(255)),
            (1, 4, Zeros(510)),
        ]),
        &[
            HEADER,
            (0, 0, None),
            (254, 1, None),
            (255, 1, None),
            (510, 1, Some(4)),
        ],
    ),
    (
        Put(&[(1, 7, Zeros(65_024))]),
        &[HEADER, (65_024, 1, Some(7))],
    ),
    (
        Put(&[(1, 8, Zeros(65_025)), (1, 9, Zeros(130_051))]),
        &[HEADER, (65_025, 1, Some(8)), (130_051, 3, Some(9))],
    ),
];

/// Whether just these packets are read back, from stream 1 alone.
fn is_read_back(alloc: Global, record: Record, wanted: &[ReadPacket]) -> Result<bool, Fail> {
    let run = run_of(alloc, &[ONE, record])?;
    let (header, packets) = read(alloc, &run.pages, 1)?;
    let (_, others) = read(alloc, &run.pages, 2)?;
    Ok(
        header == Some(b"abc".as_slice())
            && packets.as_slice() == wanted
            && others.as_slice().is_empty(),
    )
}

#[test]
fn what_was_put_is_read_back(rt: HostRuntime) -> Result<(), Fail> {
    for &(record, wanted) in &READ_BACK {
        assert!(rt; is_read_back(rt.alloc(), record, wanted)?);
    }
    Ok(())
}
