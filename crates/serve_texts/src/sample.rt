//! The samples of a station's status, and what stands before their values.
ghost use Rattle.std.specs.Prelude.{◌≡◌, ◌≤◌, length};
ghost use Rattle.serve_texts.specs.Status.{front_of, value_of};

use crate::numbers::Numbers;
use crate::value::Value;

/// A line with a value. Those of one metric stand side by side.
#[derive(Clone, Copy)]
pub enum Sample {
    CommittedBytes,
    Links,
    Packets,
    Commits,
    CommitSeconds,
    Reopenings,
    Listeners,
    Sessions,
    Sources,
    Others,
    ConnectionsRefused,
    SourcesAccepted,
    SourcesRefused,
    SentBytes,
    Junk,
    Gaps,
    Restarts,
    Strangers,
    Repeated,
    Unfinished,
    TooLong,
    Misshapen,
    Full,
    UptimeSeconds,
    OnAir,
    OnAirSeconds,
}

/// The samples in their order.
pub const SAMPLES: [Sample; 26] = [
    Sample::CommittedBytes,
    Sample::Links,
    Sample::Packets,
    Sample::Commits,
    Sample::CommitSeconds,
    Sample::Reopenings,
    Sample::Listeners,
    Sample::Sessions,
    Sample::Sources,
    Sample::Others,
    Sample::ConnectionsRefused,
    Sample::SourcesAccepted,
    Sample::SourcesRefused,
    Sample::SentBytes,
    Sample::Junk,
    Sample::Gaps,
    Sample::Restarts,
    Sample::Strangers,
    Sample::Repeated,
    Sample::Unfinished,
    Sample::TooLong,
    Sample::Misshapen,
    Sample::Full,
    Sample::UptimeSeconds,
    Sample::OnAir,
    Sample::OnAirSeconds,
];

impl Sample {
    /// All of the sample before its value, and what is said of its metric, if the sample is the metric's first.
    pub fn front(self) -> &'static [u8]
        ensures text { result.now ≡ front_of self }
        ensures short { length result.now ≤ 256 }
    {
        match self {
            Sample::CommittedBytes =>
                b"# HELP kudzuturret_committed_bytes Bytes of the file that are committed.\n\
                # TYPE kudzuturret_committed_bytes gauge\n\
                kudzuturret_committed_bytes ",
            Sample::Links => b"# HELP kudzuturret_links Links of the file.\n\
                # TYPE kudzuturret_links gauge\n\
                kudzuturret_links ",
            Sample::Packets =>
                b"# HELP kudzuturret_packets_total Packets that were recorded in this run.\n\
                # TYPE kudzuturret_packets_total counter\n\
                kudzuturret_packets_total ",
            Sample::Commits => b"# HELP kudzuturret_commits_total Commits of this run.\n\
                # TYPE kudzuturret_commits_total counter\n\
                kudzuturret_commits_total ",
            Sample::CommitSeconds =>
                b"# HELP kudzuturret_commit_seconds_total Seconds that the commits of this run took.\n\
                # TYPE kudzuturret_commit_seconds_total counter\n\
                kudzuturret_commit_seconds_total ",
            Sample::Reopenings =>
                b"# HELP kudzuturret_reopenings_total How often the file was opened again after a fault.\n\
                # TYPE kudzuturret_reopenings_total counter\n\
                kudzuturret_reopenings_total ",
            Sample::Listeners =>
                b"# HELP kudzuturret_connections Connections that are open, by what they are.\n\
                # TYPE kudzuturret_connections gauge\n\
                kudzuturret_connections{kind=\"listener\"} ",
            Sample::Sessions => b"kudzuturret_connections{kind=\"session\"} ",
            Sample::Sources => b"kudzuturret_connections{kind=\"source\"} ",
            Sample::Others => b"kudzuturret_connections{kind=\"other\"} ",
            Sample::ConnectionsRefused =>
                b"# HELP kudzuturret_connections_refused_total Connections that were refused, since there were too many.\n\
                # TYPE kudzuturret_connections_refused_total counter\n\
                kudzuturret_connections_refused_total ",
            Sample::SourcesAccepted =>
                b"# HELP kudzuturret_sources_accepted_total Sources that were accepted.\n\
                # TYPE kudzuturret_sources_accepted_total counter\n\
                kudzuturret_sources_accepted_total ",
            Sample::SourcesRefused =>
                b"# HELP kudzuturret_sources_refused_total Sources that were refused.\n\
                # TYPE kudzuturret_sources_refused_total counter\n\
                kudzuturret_sources_refused_total ",
            Sample::SentBytes =>
                b"# HELP kudzuturret_sent_bytes_total Bytes that were sent on all connections.\n\
                # TYPE kudzuturret_sent_bytes_total counter\n\
                kudzuturret_sent_bytes_total ",
            Sample::Junk =>
                b"# HELP kudzuturret_mends_total Mends of what sources sent, by their kind.\n\
                # TYPE kudzuturret_mends_total counter\n\
                kudzuturret_mends_total{kind=\"Junk\"} ",
            Sample::Gaps => b"kudzuturret_mends_total{kind=\"Gap\"} ",
            Sample::Restarts => b"kudzuturret_mends_total{kind=\"Restart\"} ",
            Sample::Strangers => b"kudzuturret_mends_total{kind=\"Stranger\"} ",
            Sample::Repeated => b"kudzuturret_mends_total{kind=\"Repeated\"} ",
            Sample::Unfinished => b"kudzuturret_mends_total{kind=\"Unfinished\"} ",
            Sample::TooLong => b"kudzuturret_mends_total{kind=\"TooLong\"} ",
            Sample::Misshapen => b"kudzuturret_mends_total{kind=\"Misshapen\"} ",
            Sample::Full => b"kudzuturret_mends_total{kind=\"Full\"} ",
            Sample::UptimeSeconds =>
                b"# HELP kudzuturret_uptime_seconds Seconds since the station began.\n\
                # TYPE kudzuturret_uptime_seconds gauge\n\
                kudzuturret_uptime_seconds ",
            Sample::OnAir =>
                b"# HELP kudzuturret_on_air 1 if a source is on the air, and otherwise 0.\n\
                # TYPE kudzuturret_on_air gauge\n\
                kudzuturret_on_air ",
            Sample::OnAirSeconds =>
                b"# HELP kudzuturret_on_air_seconds Seconds since the source on the air began, or 0 if there is none.\n\
                # TYPE kudzuturret_on_air_seconds gauge\n\
                kudzuturret_on_air_seconds ",
        }
    }

    pub fn value(self, numbers: &Numbers) -> Value
        ensures { result ≡ value_of self numbers.now }
    {
        match self {
            Sample::CommittedBytes => Value::Whole(numbers.committed_bytes),
            Sample::Links => Value::Whole(numbers.links),
            Sample::Packets => Value::Whole(numbers.packets),
            Sample::Commits => Value::Whole(numbers.commits),
            Sample::CommitSeconds => Value::Thousandths(numbers.commit_milliseconds),
            Sample::Reopenings => Value::Whole(numbers.reopenings),
            Sample::Listeners => Value::Whole(numbers.listeners),
            Sample::Sessions => Value::Whole(numbers.sessions),
            Sample::Sources => Value::Whole(numbers.sources),
            Sample::Others => Value::Whole(numbers.others),
            Sample::ConnectionsRefused => Value::Whole(numbers.connections_refused),
            Sample::SourcesAccepted => Value::Whole(numbers.sources_accepted),
            Sample::SourcesRefused => Value::Whole(numbers.sources_refused),
            Sample::SentBytes => Value::Whole(numbers.sent_bytes),
            Sample::Junk => Value::Whole(numbers.mends.junk),
            Sample::Gaps => Value::Whole(numbers.mends.gaps),
            Sample::Restarts => Value::Whole(numbers.mends.restarts),
            Sample::Strangers => Value::Whole(numbers.mends.strangers),
            Sample::Repeated => Value::Whole(numbers.mends.repeated),
            Sample::Unfinished => Value::Whole(numbers.mends.unfinished),
            Sample::TooLong => Value::Whole(numbers.mends.too_long),
            Sample::Misshapen => Value::Whole(numbers.mends.misshapen),
            Sample::Full => Value::Whole(numbers.mends.full),
            Sample::UptimeSeconds => Value::Whole(numbers.uptime_seconds),
            Sample::OnAir => Value::Whole(if numbers.on_air { 1 } else { 0 }),
            Sample::OnAirSeconds => Value::Whole(numbers.on_air_seconds),
        }
    }
}
