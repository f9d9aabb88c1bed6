//! How a station fares, in numbers.

/// The numbers of a station. Those of this run begin at 0 with it.
#[derive(Clone, Copy, Debug, PartialEq, Eq)]
pub struct Numbers {
    /// Bytes of the file that are committed.
    pub committed_bytes: u64,
    /// Links of the file.
    pub links: u64,
    /// Packets that were recorded in this run.
    pub packets: u64,
    /// Commits of this run.
    pub commits: u64,
    /// Milliseconds that the commits of this run took together.
    pub commit_milliseconds: u64,
    /// How often the file was opened again after a fault in this run.
    pub reopenings: u64,
    /// Open connections that listen to what is recorded now.
    pub listeners: u64,
    /// Open connections that the file server answers.
    pub sessions: u64,
    /// Open connections that send a stream, or ask to.
    pub sources: u64,
    /// Open connections of which it isn't known yet what they are, or not any more.
    pub others: u64,
    /// Connections of this run that were refused, since there were too many.
    pub connections_refused: u64,
    /// Sources of this run that were accepted.
    pub sources_accepted: u64,
    /// Sources of this run that were refused.
    pub sources_refused: u64,
    /// Bytes that were sent on all connections of this run.
    pub sent_bytes: u64,
    /// What was mended in this run.
    pub mends: Mends,
    /// Seconds since the station began.
    pub uptime_seconds: u64,
    /// Whether a source is on the air.
    pub on_air: bool,
    /// Seconds since the source on the air began, or 0 if there is none.
    pub on_air_seconds: u64,
}

/// How often something was mended in what sources sent, by the kinds of mends.
#[derive(Clone, Copy, Debug, PartialEq, Eq)]
pub struct Mends {
    pub junk: u64,
    pub gaps: u64,
    pub restarts: u64,
    pub strangers: u64,
    pub repeated: u64,
    pub unfinished: u64,
    pub too_long: u64,
    pub misshapen: u64,
    pub full: u64,
}
