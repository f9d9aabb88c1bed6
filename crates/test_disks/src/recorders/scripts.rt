//! Commands and their answers, row by row, and commands stopped after each call of the disk.
use super::tools::{
    Answer, ByHand, Given, ROW_1, ROW_2, ROW_3, ends, file_of, give, group, opened,
};
use crate::fused::{Fuse, fused};
use chain_rules::Refusal;
use disk_model::{Disk, MemDisk};
use ogg_recorder::Recorder;
use std::alloc::Global;
use std::test::Fail;

/// A command and its answer.
pub(super) type Turn = (Given, Answer);

/// A file, and commands for its recorder, up to the first whose answer is another one.
#[derive(Clone, Copy)]
struct Script {
    file: &'static [ByHand],
    /// What follows its pages.
    tail: &'static [u8],
    /// The end of the committed bytes that the opening finds, and how many follow.
    before: (u64, u64),
    /// How many commands share a commit.
    most: u32,
    turns: &'static [Turn],
    stops: &'static [Stop],
    /// Commands after the next opening.
    again: &'static [Turn],
    /// The end of the committed bytes after these, and how many follow.
    at_last: (u64, u64),
}

/// Which calls of the disk fail; whether all commands are answered as the script says, or one is refused since the
/// disk has failed; and the end of the committed bytes that the next opening finds, and how many follow. An opening
/// makes four calls of the disk if a closed byte follows the pages, or if the file is empty.
type Stop = (Fuse, bool, (u64, u64));

/// A new file.
const NEW: Script = Script {
    file: &[],
    tail: b"",
    before: (0, 0),
    most: 1,
    turns: &[],
    stops: &[],
    again: &[],
    at_last: (0, 0),
};

/// A file of one page and the closed byte that a recorder leaves after pages.
const OLD: Script = Script {
    file: &[ROW_1],
    tail: b"\0",
    before: (31, 1),
    ..NEW
};

/// The bytes of the first row's page.
const PAGE_1: &[u8] = b"OggS\0\x02\0\0\0\0\0\0\0\0\x01\0\0\0\0\0\0\0\x92\xdd\xf6\x15\x01\x03abc";

/// The put and the end that follow the first page.
const PUT: Given = Given::Put(&[(1, 5, b"hello")]);

/// The commands whose pages are those of the first rows.
pub(super) const FIRST: &[Turn] = &[
    (Given::Begin(&[1]), Answer::Kept(1, 31)),
    (
        Given::Put(&[(1, 5, b"hello"), (7, 5, b"x")]),
        Answer::Refused(Refusal::UnknownSerial),
    ),
    (PUT, Answer::Kept(2, 64)),
    (Given::Flush, Answer::Kept(2, 64)),
    (Given::End(1), Answer::Kept(3, 91)),
];

const SCRIPTS: &[Script] = &[
    Script {
        turns: FIRST,
        stops: &[(Fuse::Whole, true, (91, 1))],
        ..NEW
    },
    Script {
        turns: &[
            (Given::Begin(&[1, 2]), Answer::Kept(1, 62)),
            (Given::End(1), Answer::Kept(2, 89)),
            (Given::End(1), Answer::Refused(Refusal::StreamEnded)),
            (Given::Begin(&[3]), Answer::Refused(Refusal::LinkOpen)),
            (Given::End(2), Answer::Kept(3, 116)),
            (
                Given::Put(&[(2, 0, b"x")]),
                Answer::Refused(Refusal::NoLink),
            ),
            (Given::Begin(&[2]), Answer::Refused(Refusal::SerialTaken)),
            (Given::Begin(&[3]), Answer::Kept(4, 147)),
        ],
        stops: &[(Fuse::Whole, true, (147, 1))],
        ..NEW
    },
    Script {
        turns: &[
            (Given::Begin(&[1]), Answer::Kept(1, 31)),
            (PUT, Answer::Kept(2, 64)),
            (
                Given::Put(&[(1, 4, b"hello")]),
                Answer::Refused(Refusal::PositionBack),
            ),
            (PUT, Answer::Kept(3, 97)),
            (
                Given::Put(&[(1, 1 << 63, b"hello")]),
                Answer::Refused(Refusal::PositionRange),
            ),
            (
                Given::Put(&[(1, (1 << 63) - 1, b"hello")]),
                Answer::Kept(4, 130),
            ),
        ],
        stops: &[(Fuse::Whole, true, (130, 1))],
        ..NEW
    },
    Script {
        most: 3,
        turns: &[
            (Given::Begin(&[1]), Answer::Held(1)),
            (PUT, Answer::Held(2)),
            (Given::End(1), Answer::Kept(3, 91)),
            (Given::Begin(&[2]), Answer::Held(4)),
        ],
        stops: &[(Fuse::Whole, true, (91, 32))],
        ..NEW
    },
    Script {
        most: 8,
        turns: &[
            (Given::Begin(&[1]), Answer::Held(1)),
            (PUT, Answer::Held(2)),
            (
                Given::Put(&[(7, 5, b"x")]),
                Answer::Refused(Refusal::UnknownSerial),
            ),
            (Given::Flush, Answer::Kept(2, 64)),
            (Given::Flush, Answer::Kept(2, 64)),
            (Given::End(1), Answer::Held(3)),
            (Given::Flush, Answer::Kept(3, 91)),
        ],
        stops: &[(Fuse::Whole, true, (91, 1))],
        ..NEW
    },
    // What a stop in the first write of a new file's opening may leave, and what stands there before it.
    Script {
        turns: &[(Given::Begin(&[1]), Answer::Kept(1, 31))],
        stops: &[(Fuse::Whole, true, (31, 1))],
        ..NEW
    },
    Script {
        tail: b"O",
        before: (0, 1),
        turns: &[(Given::Begin(&[1]), Answer::Kept(1, 31))],
        stops: &[(Fuse::Whole, true, (31, 1))],
        ..NEW
    },
    Script {
        tail: b"\0",
        before: (0, 1),
        turns: &[(Given::Begin(&[1]), Answer::Kept(1, 31))],
        stops: &[(Fuse::Whole, true, (31, 1))],
        ..NEW
    },
    // A file from elsewhere: the serials of its ended link are taken.
    Script {
        file: &[ROW_1, ROW_2, ROW_3],
        before: (91, 0),
        turns: &[
            (Given::Begin(&[1]), Answer::Refused(Refusal::SerialTaken)),
            (Given::Begin(&[2]), Answer::Kept(1, 122)),
        ],
        stops: &[(Fuse::Whole, true, (122, 1))],
        ..NEW
    },
    // What waits is lost when the disk is given back.
    Script {
        most: 2,
        turns: &[(Given::Begin(&[1]), Answer::Held(1))],
        stops: &[(Fuse::Whole, true, (0, 32))],
        ..NEW
    },
    // A put of one page: a write, a sync, the write of the commit byte, a sync.
    Script {
        turns: &[(PUT, Answer::Kept(1, 64))],
        stops: &[
            (Fuse::StopAfter(4), false, (31, 1)),
            (Fuse::StopAfter(5), false, (31, 34)),
            (Fuse::StopAfter(6), false, (31, 34)),
            (Fuse::StopAfter(7), false, (64, 1)),
            (Fuse::StopAfter(8), true, (64, 1)),
        ],
        ..OLD
    },
    // The last sync fails once: the answer is a fault, and the command is found.
    Script {
        turns: &[(PUT, Answer::Kept(1, 64))],
        stops: &[(Fuse::FailOnce(8), false, (64, 1))],
        again: &[(Given::End(1), Answer::Kept(1, 91))],
        at_last: (91, 1),
        ..OLD
    },
    // A packet of 65,025 bytes has a page of 65,307 bytes and one of 28.
    Script {
        turns: &[(Given::Zeros(65_025), Answer::Kept(1, 65_366))],
        stops: &[
            (Fuse::StopAfter(5), false, (31, 65_307)),
            (Fuse::StopAfter(6), false, (31, 65_336)),
            (Fuse::StopAfter(7), false, (31, 65_336)),
            (Fuse::StopAfter(8), false, (65_366, 1)),
            (Fuse::StopAfter(9), true, (65_366, 1)),
        ],
        ..OLD
    },
    // A packet of 1,048,576 bytes has 17 pages: 17 heads of 27 bytes, 4,113 lacing values and the packet.
    Script {
        turns: &[
            (Given::Begin(&[1]), Answer::Kept(1, 31)),
            (Given::Zeros(1_048_576), Answer::Kept(2, 1_053_179)),
        ],
        stops: &[(Fuse::Whole, true, (1_053_179, 1))],
        ..NEW
    },
    // A packet that is a page: its own page has 59 bytes.
    Script {
        turns: &[
            (Given::Begin(&[1]), Answer::Kept(1, 31)),
            (Given::Put(&[(1, 5, PAGE_1)]), Answer::Kept(2, 90)),
        ],
        stops: &[(Fuse::Whole, true, (90, 1))],
        ..NEW
    },
    // A put of 60,000 bytes is stopped before its commit byte is written, and the next one is written over it.
    Script {
        turns: &[(Given::Zeros(60_000), Answer::Kept(1, 60_294))],
        stops: &[(Fuse::StopAfter(6), false, (31, 60_264))],
        again: &[(PUT, Answer::Kept(1, 64))],
        at_last: (64, 60_231),
        ..OLD
    },
    // Three commands of one page each share a commit.
    Script {
        most: 3,
        turns: &[
            (Given::Begin(&[1]), Answer::Held(1)),
            (PUT, Answer::Held(2)),
            (Given::End(1), Answer::Kept(3, 91)),
        ],
        stops: &[
            (Fuse::StopAfter(5), false, (0, 32)),
            (Fuse::StopAfter(6), false, (0, 65)),
            (Fuse::StopAfter(7), false, (0, 92)),
            (Fuse::StopAfter(8), false, (0, 92)),
            (Fuse::StopAfter(9), false, (91, 1)),
            (Fuse::StopAfter(10), true, (91, 1)),
        ],
        ..NEW
    },
];

/// Gives the commands in turn, up to the first whose answer is another one, and returns that answer.
fn other_answer<D: Disk>(
    alloc: Global,
    recorder: &mut Recorder<D>,
    turns: &[Turn],
) -> Result<Option<Answer>, Fail> {
    let mut end = recorder.end();
    for (given, told) in turns {
        let answer = give(alloc, recorder, *given)?;
        if answer != *told {
            return Ok(Some(answer));
        }
        if let Answer::Kept(_, now) = answer {
            end = now;
        }
        if recorder.end() != end {
            return Err(Fail::from("another end"));
        }
    }
    Ok(None)
}

/// Whether the recorder accepts no command after a fault, and shows what was kept before.
fn refuses_all<D: Disk>(
    alloc: Global,
    recorder: &mut Recorder<D>,
    before: u64,
) -> Result<bool, Fail> {
    let failed = Answer::Refused(Refusal::Failed);
    let begin = give(alloc, recorder, Given::Begin(&[9]))?;
    let flush = give(alloc, recorder, Given::Flush)?;
    let left = (recorder.held(), recorder.count(), recorder.end());
    Ok(begin == failed && flush == failed && left == (0, 0, before))
}

/// What is seen of a recorder: the end that the opening found and how many bytes followed, the first answer that is
/// another one, whether it has then failed, and whether it refuses all if it has.
pub(super) type Seen = ((u64, u64), Option<Answer>, bool, bool);

/// Opens a recorder on this disk, gives it the commands, and gives the disk back.
pub(super) fn made<D: Disk + Drop>(
    alloc: Global,
    disk: D,
    most: u32,
    turns: &[Turn],
) -> Result<(Seen, D), Fail> {
    let mut recorder = opened(alloc, disk)?;
    group(&mut recorder, most);
    let found = (recorder.end(), recorder.tail());
    let other = other_answer(alloc, &mut recorder, turns)?;
    let is_failed = recorder.is_failed();
    let refuses = !is_failed || refuses_all(alloc, &mut recorder, found.0)?;
    Ok(((found, other, is_failed, refuses), recorder.give_back()))
}

/// Whether, whatever a stop makes of the commit byte, either none of the group is found or all of it.
fn all_or_none_is_found(
    alloc: Global,
    disk: &MemDisk,
    before: u64,
    end: u64,
) -> Result<bool, Fail> {
    for byte in [0, 1, b'O', 0xFF] {
        let mut image = disk.contents().to_vec(alloc)?;
        if let Some(place) = image.get_mut(before as usize) {
            *place = byte;
        }
        if disk.is_image(&image) && !ends_by(alloc, &image, before, end)? {
            return Ok(false);
        }
    }
    Ok(true)
}

/// Whether the committed bytes of this image end at one of these places.
fn ends_by(alloc: Global, image: &[u8], before: u64, end: u64) -> Result<bool, Fail> {
    match ends(alloc, image)? {
        Ok((found, _)) => Ok(found == before || found == before.max(end)),
        Err(_) => Ok(false),
    }
}

/// Whether a stop of a script is answered and leaves what the script says, also where the disk is opened again.
fn is_as_told(alloc: Global, script: &Script, stop: &Stop) -> Result<bool, Fail> {
    let (fuse, all, found) = *stop;
    let disk = fused(alloc, &file_of(alloc, script.file, script.tail)?, fuse)?;
    let (seen, disk) = made(alloc, disk, script.most, script.turns)?;
    if seen != (script.before, fault_unless(all), !all, true) {
        return Ok(false);
    }
    leaves(alloc, script, found, disk.into_inner())
}

/// The answer of a disk that has failed, if not all commands are answered as the script says.
fn fault_unless(all: bool) -> Option<Answer> {
    if all {
        return None;
    }
    Some(Answer::Refused(Refusal::Disk))
}

/// Whether the disk has what the script says, and takes what the script then says.
fn leaves(alloc: Global, script: &Script, found: (u64, u64), disk: MemDisk) -> Result<bool, Fail> {
    Ok(
        ends(alloc, disk.contents())? == Ok(found)
            && all_or_none_is_found(alloc, &disk, script.before.0, found.0)?
            && goes_on(alloc, disk, script, found)?,
    )
}

/// Whether the disk, opened again, takes what the script then says.
fn goes_on(alloc: Global, disk: MemDisk, script: &Script, found: (u64, u64)) -> Result<bool, Fail> {
    let (seen, disk) = made(alloc, disk, 1, script.again)?;
    let at_last = if script.again.is_empty() {
        found
    } else {
        script.at_last
    };
    Ok(seen == (found, None, false, true) && ends(alloc, disk.contents())? == Ok(at_last))
}

#[test]
fn commands_are_answered_and_found_as_the_rows_say(rt: HostRuntime) -> Result<(), Fail> {
    for script in SCRIPTS {
        for stop in script.stops {
            assert!(rt; is_as_told(rt.alloc(), script, stop)?);
        }
    }
    Ok(())
}
