//! Packets written out by hand from the layout of Ogg Skeleton 3.0, and what is read of others.
use crate::files::{change, joined};
use skeleton3::*;
use std::alloc::Global;
use std::test::Fail;

const FISHEAD: Fishead = Fishead {
    presentation: (0, 1000),
    base: (-2, 0x0102_0304_0506_0708),
    utc: *b"20260101T000000.000Z",
};

/// The packet of `FISHEAD`.
const FISHEAD_BYTES: [u8; 64] = *b"fishead\0\x03\0\0\0\
    \0\0\0\0\0\0\0\0\xe8\x03\0\0\0\0\0\0\
    \xfe\xff\xff\xff\xff\xff\xff\xff\x08\x07\x06\x05\x04\x03\x02\x01\
    20260101T000000.000Z";

const FISBONE: Fisbone<'static> = Fisbone {
    serial: 0x0403_0201,
    headers: 3,
    rate: (44100, 1),
    base_granule: -3,
    preroll: 2,
    shift: 6,
    media: b"audio/vorbis",
};

/// What comes before the message fields in the packet of `FISBONE`.
const FIXED_PART: [u8; 52] = *b"fisbone\0\x2c\0\0\0\x01\x02\x03\x04\x03\0\0\0\
    \x44\xac\0\0\0\0\0\0\x01\0\0\0\0\0\0\0\
    \xfd\xff\xff\xff\xff\xff\xff\xff\x02\0\0\0\x06\0\0\0";

/// Message fields, and the media type that they name.
const MESSAGES: [(&[u8], &[u8]); 14] = [
    (b"Content-Type: audio/vorbis\r\n", b"audio/vorbis"),
    (b"Content-Type: audio/vorbis\n", b"audio/vorbis"),
    (b"Content-Type: audio/vorbis", b"audio/vorbis"),
    (b"Content-Type: audio/vorbis\r", b"audio/vorbis"),
    (b"content-type:audio/ogg\r\n", b"audio/ogg"),
    (b"CONTENT-TYPE:\t audio/ogg \t\r\n", b"audio/ogg"),
    (b"Content-Type: a b\r\r\n", b"a b\r"),
    (b"Content-Type:\r\n", b""),
    (b"Content-Type: \t \r\n", b""),
    (b"Content-Type::\r\n", b":"),
    (b"\r\n\n\r\nContent-Type: a\r\n\r\n", b"a"),
    (b"Title: One\r\nContent-Type: a\r\n", b"a"),
    (b"Content-Type: a\r\nContent-Type: b\r\n", b"a"),
    (b":\nContent-Type: a\n:", b"a"),
];

/// Message fields that name no media type, or have a line without a colon.
const NO_MESSAGES: [&[u8]; 9] = [
    b"",
    b"\r\n",
    b"Content-Type\r\n",
    b"Title: One\r\n",
    b"Content-Type : a\r\n",
    b" Content-Type: a\r\n",
    b"Content-Types: a\r\n",
    b"Content-Type: a\r\nTitle\r\n",
    b"Title\r\nContent-Type: a\r\n",
];

/// Message fields: the name and the value of each.
type Fields = &'static [(&'static [u8], &'static [u8])];

/// Fields that follow the media type, the message that they make, and how many bytes the packet has.
const WITH_FIELDS: [(Fields, &[u8], usize); 3] = [
    (&[], b"Content-Type: audio/vorbis\r\n", 80),
    (
        &[(b"Title", b"One")],
        b"Content-Type: audio/vorbis\r\nTitle: One\r\n",
        92,
    ),
    (
        &[(b"Title", b"One"), (b"Role", b"audio/main: a")],
        b"Content-Type: audio/vorbis\r\nTitle: One\r\nRole: audio/main: a\r\n",
        113,
    ),
];

/// What `write` appends of `FISHEAD` to a byte.
fn fishead_after_a_byte(alloc: Global) -> Result<Vec<u8>, Memory> {
    let mut out = joined(alloc, &[&[7]])?;
    FISHEAD.write(&mut out)?;
    Ok(out)
}

/// What `write` appends of `FISBONE` to a byte.
fn fisbone_after_a_byte(alloc: Global) -> Result<Vec<u8>, Memory> {
    let mut out = joined(alloc, &[&[7]])?;
    FISBONE.write(&mut out)?;
    Ok(out)
}

/// What `write_with` appends of `FISBONE` and these fields to a byte.
fn fisbone_with(alloc: Global, pairs: Fields) -> Result<Vec<u8>, Memory> {
    let mut fields = Vec::new(alloc);
    for (name, value) in pairs {
        fields.push(Field::of(name.to_vec(alloc)?, value.to_vec(alloc)?))?;
    }
    let mut out = joined(alloc, &[&[7]])?;
    FISBONE.write_with(&fields, &mut out)?;
    Ok(out)
}

#[test]
fn packets_are_appended_byte_for_byte(rt: HostRuntime) -> Result<(), Fail> {
    let fishead = joined(rt.alloc(), &[&[7], &FISHEAD_BYTES])?;
    assert!(rt; fishead_after_a_byte(rt.alloc())?.as_slice() == fishead.as_slice());
    let message = b"Content-Type: audio/vorbis\r\n";
    let fisbone = joined(rt.alloc(), &[&[7], &FIXED_PART, message])?;
    assert!(rt; fisbone_after_a_byte(rt.alloc())?.as_slice() == fisbone.as_slice());
    assert!(rt; (FISHEAD.size(), FISBONE.size()) == (64, 80));
    Ok(())
}

#[test]
fn message_fields_follow_the_media_type(rt: HostRuntime) -> Result<(), Fail> {
    for &(fields, message, size) in &WITH_FIELDS {
        let want = joined(rt.alloc(), &[&[7], &FIXED_PART, message])?;
        assert!(rt; fisbone_with(rt.alloc(), fields)?.as_slice() == want.as_slice());
        let packet = joined(rt.alloc(), &[&FIXED_PART, message])?;
        assert!(rt; packet.len() == size);
        assert!(rt; Fisbone::read(&packet) == Ok(FISBONE));
    }
    Ok(())
}

/// How many bytes of the packet of `FISHEAD` and a further byte are read, the bytes that are changed, and the answer.
/// The minor version may be any.
const FISHEADS: [(usize, &[(usize, u8)], Result<Fishead, SkeletonFault>); 15] = [
    (64, &[], Ok(FISHEAD)),
    (64, &[(10, 0xff), (11, 0xff)], Ok(FISHEAD)),
    (0, &[], Err(SkeletonFault::Length)),
    (63, &[], Err(SkeletonFault::Length)),
    (65, &[], Err(SkeletonFault::Length)),
    (64, &[(0, b'F')], Err(SkeletonFault::Name)),
    (64, &[(7, 1)], Err(SkeletonFault::Name)),
    (64, &[(8, 4)], Err(SkeletonFault::Version)),
    (64, &[(8, 2)], Err(SkeletonFault::Version)),
    (64, &[(9, 1)], Err(SkeletonFault::Version)),
    (64, &[(0, b'X')], Err(SkeletonFault::Name)),
    (64, &[(7, 1), (0, b'X')], Err(SkeletonFault::Name)),
    (64, &[(8, 4), (0, b'X')], Err(SkeletonFault::Name)),
    (64, &[(8, 2), (0, b'X')], Err(SkeletonFault::Name)),
    (64, &[(9, 1), (0, b'X')], Err(SkeletonFault::Name)),
];

#[test]
fn fisheads_are_read_or_refused_by_their_first_fault(rt: HostRuntime) -> Result<(), Fail> {
    for &(length, changes, want) in &FISHEADS {
        let mut packet = joined(rt.alloc(), &[&FISHEAD_BYTES, b"\0"])?;
        packet.truncate(length);
        change(&mut packet, changes);
        assert!(rt; Fishead::read(&packet) == want);
    }
    Ok(())
}

#[test]
fn media_types_are_found_among_the_message_fields(rt: HostRuntime) -> Result<(), Fail> {
    for &(message, media) in &MESSAGES {
        let packet = joined(rt.alloc(), &[&FIXED_PART, message])?;
        let want = Fisbone { media, ..FISBONE };
        assert!(rt; Fisbone::read(&packet) == Ok(want));
    }
    for &message in &NO_MESSAGES {
        let packet = joined(rt.alloc(), &[&FIXED_PART, message])?;
        assert!(rt; Fisbone::read(&packet) == Err(SkeletonFault::Fields));
        assert!(rt; Fisbone::message(&packet).err() == Some(SkeletonFault::Fields));
    }
    Ok(())
}

/// How many bytes of the packet of `FISBONE` are read, the bytes that are changed, and the answer. The offset of the
/// message and the padding may be any.
const FISBONES: [(
    usize,
    &[(usize, u8)],
    Result<Fisbone<'static>, SkeletonFault>,
); 11] = [
    (80, &[], Ok(FISBONE)),
    (80, &[(8, 45)], Ok(FISBONE)),
    (80, &[(8, 45), (11, 45)], Ok(FISBONE)),
    (80, &[(8, 45), (11, 45), (49, 45)], Ok(FISBONE)),
    (80, &[(8, 45), (11, 45), (49, 45), (50, 45)], Ok(FISBONE)),
    (
        80,
        &[(8, 45), (11, 45), (49, 45), (50, 45), (51, 45)],
        Ok(FISBONE),
    ),
    (0, &[], Err(SkeletonFault::Length)),
    (51, &[], Err(SkeletonFault::Length)),
    (52, &[], Err(SkeletonFault::Fields)),
    (52, &[(7, b'0')], Err(SkeletonFault::Name)),
    (51, &[(7, b'0')], Err(SkeletonFault::Length)),
];

#[test]
fn fisbones_are_read_or_refused_by_their_first_fault(rt: HostRuntime) -> Result<(), Fail> {
    for &(length, changes, want) in &FISBONES {
        let message = b"Content-Type: audio/vorbis\r\n";
        let mut packet = joined(rt.alloc(), &[&FIXED_PART, message])?;
        packet.truncate(length);
        change(&mut packet, changes);
        assert!(rt; Fisbone::read(&packet) == want);
    }
    Ok(())
}

/// The message fields of a packet in order, and then no more.
const LENT: [Option<(&[u8], &[u8])>; 6] = [
    Some((b"Title", b"One")),
    Some((b"", b"")),
    Some((b"Content-Type", b"audio/ogg")),
    Some((b"Title", b"Two")),
    None,
    None,
];

#[test]
fn message_fields_are_lent_in_order_or_refused_as_the_packet_is(
    rt: HostRuntime,
) -> Result<(), Fail> {
    let message = b"\r\nTitle:\t One \n:\nContent-Type:audio/ogg\r\nTitle: Two";
    let packet = joined(rt.alloc(), &[&FIXED_PART, message])?;
    let mut fields = Fisbone::message(&packet)?;
    for &want in &LENT {
        assert!(rt; fields.next() == want);
    }
    let (short, _) = FIXED_PART.split_at(51);
    assert!(rt; Fisbone::message(short).err() == Some(SkeletonFault::Length));
    assert!(rt; Fisbone::message(&FISHEAD_BYTES).err() == Some(SkeletonFault::Name));
    Ok(())
}
