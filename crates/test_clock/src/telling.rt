//! Times that a person is told.
use archive_clock::put_time;
use text_line::Line;

const TOLD: [(u64, &[u8]); 6] = [
    (0, b"1970-01-01T00:00:00.000Z\n"),
    (482_196_050_520, b"1985-04-12T23:20:50.520Z\n"),
    (951_868_799_999, b"2000-02-29T23:59:59.999Z\n"),
    (1_795_874_700_310, b"2026-11-28T14:05:00.310Z\n"),
    (253_402_300_799_999, b"9999-12-31T23:59:59.999Z\n"),
    (u64::MAX, b"9999-12-31T23:59:59.999Z\n"),
];

#[test]
fn times_are_told_in_utc(rt: HostRuntime) {
    for &(time, text) in &TOLD {
        let mut line = Line::new();
        put_time(&mut line, time);
        assert!(rt; line.as_slice() == text);
    }
}
