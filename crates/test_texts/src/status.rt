//! The status, as a whole.
use memchr::memmem::find;
use serve_texts::{Mends, Numbers, append_status};
use std::test::Fail;

/// Numbers at their edges, and others that are all different.
pub const NUMBERS: Numbers = Numbers {
    committed_bytes: 18_446_744_073_709_551_615,
    links: 0,
    packets: 3,
    commits: 4,
    commit_milliseconds: 18_446_744_073_709_551_615,
    reopenings: 6,
    listeners: 7,
    sessions: 8,
    sources: 9,
    others: 10,
    connections_refused: 11,
    sources_accepted: 12,
    sources_refused: 13,
    sent_bytes: 1_099_511_627_776,
    mends: Mends {
        junk: 15,
        gaps: 16,
        restarts: 17,
        strangers: 18,
        repeated: 19,
        unfinished: 20,
        too_long: 21,
        misshapen: 22,
        full: 23,
    },
    uptime_seconds: 24,
    on_air: true,
    on_air_seconds: 26,
};

const HEAD: &[u8] = b"HTTP/1.1 200 OK\r\n\
    Content-Type: text/plain; version=0.0.4; charset=utf-8\r\n\
    Cache-Control: no-store\r\n\
    Connection: close\r\n\
    Content-Length: 2753\r\n\r\n";

const TEXT: &[u8] = b"# HELP kudzuturret_committed_bytes Bytes of the file that are committed.\n\
# TYPE kudzuturret_committed_bytes gauge\n\
kudzuturret_committed_bytes 18446744073709551615\n\
# HELP kudzuturret_links Links of the file.\n\
# TYPE kudzuturret_links gauge\n\
kudzuturret_links 0\n\
# HELP kudzuturret_packets_total Packets that were recorded in this run.\n\
# TYPE kudzuturret_packets_total counter\n\
kudzuturret_packets_total 3\n\
# HELP kudzuturret_commits_total Commits of this run.\n\
# TYPE kudzuturret_commits_total counter\n\
kudzuturret_commits_total 4\n\
# HELP kudzuturret_commit_seconds_total Seconds that the commits of this run took.\n\
# TYPE kudzuturret_commit_seconds_total counter\n\
kudzuturret_commit_seconds_total 18446744073709551.615\n\
# HELP kudzuturret_reopenings_total How often the file was opened again after a fault.\n\
# TYPE kudzuturret_reopenings_total counter\n\
kudzuturret_reopenings_total 6\n\
# HELP kudzuturret_connections Connections that are open, by what they are.\n\
# TYPE kudzuturret_connections gauge\n\
kudzuturret_connections{kind=\"listener\"} 7\n\
kudzuturret_connections{kind=\"session\"} 8\n\
kudzuturret_connections{kind=\"source\"} 9\n\
kudzuturret_connections{kind=\"other\"} 10\n\
# HELP kudzuturret_connections_refused_total Connections that were refused, since there were too many.\n\
# TYPE kudzuturret_connections_refused_total counter\n\
kudzuturret_connections_refused_total 11\n\
# HELP kudzuturret_sources_accepted_total Sources that were accepted.\n\
# TYPE kudzuturret_sources_accepted_total counter\n\
kudzuturret_sources_accepted_total 12\n\
# HELP kudzuturret_sources_refused_total Sources that were refused.\n\
# TYPE kudzuturret_sources_refused_total counter\n\
kudzuturret_sources_refused_total 13\n\
# HELP kudzuturret_sent_bytes_total Bytes that were sent on all connections.\n\
# TYPE kudzuturret_sent_bytes_total counter\n\
kudzuturret_sent_bytes_total 1099511627776\n\
# HELP kudzuturret_mends_total Mends of what sources sent, by their kind.\n\
# TYPE kudzuturret_mends_total counter\n\
kudzuturret_mends_total{kind=\"Junk\"} 15\n\
kudzuturret_mends_total{kind=\"Gap\"} 16\n\
kudzuturret_mends_total{kind=\"Restart\"} 17\n\
kudzuturret_mends_total{kind=\"Stranger\"} 18\n\
kudzuturret_mends_total{kind=\"Repeated\"} 19\n\
kudzuturret_mends_total{kind=\"Unfinished\"} 20\n\
kudzuturret_mends_total{kind=\"TooLong\"} 21\n\
kudzuturret_mends_total{kind=\"Misshapen\"} 22\n\
kudzuturret_mends_total{kind=\"Full\"} 23\n\
# HELP kudzuturret_uptime_seconds Seconds since the station began.\n\
# TYPE kudzuturret_uptime_seconds gauge\n\
kudzuturret_uptime_seconds 24\n\
# HELP kudzuturret_on_air 1 if a source is on the air, and otherwise 0.\n\
# TYPE kudzuturret_on_air gauge\n\
kudzuturret_on_air 1\n\
# HELP kudzuturret_on_air_seconds Seconds since the source on the air began, or 0 if there is none.\n\
# TYPE kudzuturret_on_air_seconds gauge\n\
kudzuturret_on_air_seconds 26\n";

#[test]
fn all_numbers_stand_in_the_text(rt: HostRuntime) -> Result<(), Fail> {
    let mut out = Vec::from_slice(rt.alloc(), b"before")?;
    append_status(&mut out, &NUMBERS, false)?;
    let mut want = Vec::from_slice(rt.alloc(), b"before")?;
    want.extend_from_slice(HEAD)?;
    want.extend_from_slice(TEXT)?;
    assert!(rt; out.as_slice() == want.as_slice());
    Ok(())
}

#[test]
fn head_gets_the_head_alone(rt: HostRuntime) -> Result<(), Fail> {
    let mut out = Vec::new(rt.alloc());
    append_status(&mut out, &NUMBERS, true)?;
    assert!(rt; out.as_slice() == HEAD);
    Ok(())
}

/// Milliseconds, and the seconds that are written.
const SECONDS: [(u64, &[u8]); 9] = [
    (0, b"_seconds_total 0.000\n"),
    (1, b"_seconds_total 0.001\n"),
    (10, b"_seconds_total 0.010\n"),
    (99, b"_seconds_total 0.099\n"),
    (100, b"_seconds_total 0.100\n"),
    (999, b"_seconds_total 0.999\n"),
    (1000, b"_seconds_total 1.000\n"),
    (1007, b"_seconds_total 1.007\n"),
    (60_050, b"_seconds_total 60.050\n"),
];

#[test]
fn milliseconds_are_written_as_seconds(rt: HostRuntime) -> Result<(), Fail> {
    for &(commit_milliseconds, line) in &SECONDS {
        let mut numbers = NUMBERS;
        numbers.commit_milliseconds = commit_milliseconds;
        let mut out = Vec::new(rt.alloc());
        append_status(&mut out, &numbers, false)?;
        assert!(rt; find(out.as_slice(), line).is_some());
    }
    Ok(())
}

#[test]
fn nothing_on_the_air_is_0(rt: HostRuntime) -> Result<(), Fail> {
    let mut numbers = NUMBERS;
    numbers.on_air = false;
    let mut out = Vec::new(rt.alloc());
    append_status(&mut out, &numbers, false)?;
    let line: &[u8] = b"\nkudzuturret_on_air 0\n";
    assert!(rt; find(out.as_slice(), line).is_some());
    Ok(())
}
