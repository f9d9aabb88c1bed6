//! Times and spans that a person asks for.
use archive_clock::{read_back, read_span, read_time};
use jiff::Error;
use jiff::tz::TimeZone;

/// 2026-11-28T14:05:00Z.
const NOW: u64 = 1_795_874_700_000;

/// Texts, and the time of each in UTC. The first three are examples of RFC 3339, section 5.8.
const TIMES: [(&str, Option<u64>); 34] = [
    ("1985-04-12T23:20:50.52Z", Some(482_196_050_520)),
    ("1996-12-19T16:39:57-08:00", Some(851_042_397_000)),
    ("1937-01-01T12:00:27.87+00:20", None),
    // A leap second is read as the second before it.
    ("1990-12-31T23:59:60Z", Some(662_687_999_000)),
    ("2026-11-28T14:05:00Z", Some(NOW)),
    ("2026-11-28T14:05:00+00:00", Some(NOW)),
    ("2026-11-28T14:05:00-00:00", Some(NOW)),
    ("2026-11-28t14:05:00z", Some(NOW)),
    ("2026-11-28T14:05:00+01:00", Some(1_795_871_100_000)),
    ("2026-11-28T14:05:00-05:00", Some(1_795_892_700_000)),
    ("2026-11-28T14:05:00.3109Z", Some(1_795_874_700_310)),
    ("2000-02-29T00:00:00Z", Some(951_782_400_000)),
    ("1970-01-01T00:00:00Z", Some(0)),
    ("1969-12-31T23:59:59.999Z", None),
    ("9999-12-30T22:00:00Z", Some(253_402_207_200_000)),
    // Without an offset it is the zone's.
    ("2026-11-28T14:05:00", Some(NOW)),
    ("2026-11-28T14:05:00.5", Some(1_795_874_700_500)),
    ("2026-11-28", None),
    ("2026-11-28T14:05:00[Europe/Berlin]", None),
    // No such date or time.
    ("2026-02-29T00:00:00Z", None),
    ("2026-13-01T00:00:00Z", None),
    ("2026-11-28T24:00:00Z", None),
    ("2026-11-28T14:05:00+26:00", None),
    ("", None),
    ("now", None),
    ("1795874700", None),
    ("2026-11-28T14:05:00Z ", None),
    // Back from now.
    ("-90s", Some(1_795_874_610_000)),
    ("-2h", Some(1_795_867_500_000)),
    ("-3d", Some(1_795_615_500_000)),
    ("-", None),
    ("-30000d", None),
    ("-0s", Some(NOW)),
    ("-0m", None),
];

#[test]
fn times_are_read_as_rfc_3339_has_them(rt: HostRuntime) {
    for &(text, time) in &TIMES {
        assert!(rt; read_time(text, NOW, &TimeZone::UTC) == time);
    }
}

/// Texts without an offset, and their times where Berlin's clocks are used.
const LOCAL: [(&str, u64); 4] = [
    ("2026-07-01T12:00:00", 1_782_900_000_000),
    // The clocks go forward at two, and this time isn't shown.
    ("2026-03-29T02:30:00", 1_774_747_800_000),
    // They go back at three, and this time is shown twice.
    ("2026-10-25T02:30:00", 1_792_888_200_000),
    ("2026-11-28T15:05:00", NOW),
];

#[test]
fn times_without_an_offset_are_those_of_the_zone(rt: HostRuntime) -> Result<(), Error> {
    let zone = TimeZone::posix("CET-1CEST,M3.5.0,M10.5.0/3")?;
    for &(text, time) in &LOCAL {
        assert!(rt; read_time(text, NOW, &zone) == Some(time));
    }
    Ok(())
}

/// Spans, and their seconds.
const SPANS: [(&[u8], Option<u64>); 17] = [
    (b"1s", Some(1)),
    (b"90s", Some(90)),
    (b"10m", Some(600)),
    (b"1h", Some(3600)),
    (b"3d", Some(259_200)),
    (b"6w", Some(3_628_800)),
    (b"18446744073709551615s", Some(u64::MAX)),
    (b"18446744073709551616s", None),
    (b"30500568904943w", Some(18_446_744_073_709_526_400)),
    (b"30500568904944w", None),
    (b"0s", None),
    (b"01s", None),
    (b"+1s", None),
    (b"1", None),
    (b"s", None),
    (b"1S", None),
    (b"1h30m", None),
];

#[test]
fn spans_are_a_number_and_a_letter(rt: HostRuntime) {
    for &(text, seconds) in &SPANS {
        assert!(rt; read_span(text) == seconds);
    }
}

#[test]
fn spans_back_end_at_1970(rt: HostRuntime) {
    assert!(rt; read_back(b"1s", 1000) == Some(0));
    assert!(rt; read_back(b"1s", 999) == None);
    assert!(rt; read_back(b"18446744073709551615s", u64::MAX) == None);
}
