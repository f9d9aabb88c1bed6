//! What the words ask for.

use import_changes::Skeletons;

/// How the files of an archive are begun and kept: what was asked for of it.
#[derive(Clone, Copy, Debug, PartialEq, Eq)]
pub struct Filing {
    /// A file has the commands of one period of this many seconds.
    pub every: Option<u64>,
    /// A file that has this many bytes gets no further command.
    pub most_bytes: Option<u64>,
    /// A file goes this many seconds after its last command.
    pub keep: Option<u64>,
    /// The oldest goes while all files together have more bytes.
    pub keep_bytes: Option<u64>,
}

/// What the command line asks for.
#[derive(Clone, Copy)]
pub enum Action<'a> {
    /// The feed of the Ogg bitstream on standard input; with `renumber` its streams get serials that are free, and with
    /// `mend` what has no place in a sound stream is mended or left out.
    Feed {
        mend: bool,
        renumber: bool,
        skeletons: Skeletons,
    },
    /// The Ogg stream on standard input into the file or the folder, mended where it has to be. As many as `most`
    /// commands share a commit while more of the stream is at hand. With `strict` the first mend or refusal ends the run.
    /// The file, or the newest of the folder, is sealed at the end if `seal` says so.
    Archive {
        path: &'a str,
        filing: Filing,
        skeletons: Skeletons,
        most: u32,
        strict: bool,
        seal: bool,
    },
    /// The file, or the newest of the folder, for any number of connections to the address, at most `listeners` at once.
    /// What comes on standard input is recorded into it meanwhile, and with a password file what connections send. With
    /// `seal` it is sealed once standard input has ended, and with `log` each connection gets a line. The pages of the
    /// origin `allow_origin` may read what is answered.
    Station {
        path: &'a str,
        filing: Filing,
        address: &'a str,
        password_file: Option<&'a str>,
        listeners: u32,
        allow_origin: Option<&'a str>,
        skeletons: Skeletons,
        seal: bool,
        log: bool,
    },
    /// The files of the folder whose time overlaps the time from `since` to `until`, in milliseconds since 1970, and
    /// with `links` what is in them.
    List {
        folder: &'a str,
        since: Option<u64>,
        until: Option<u64>,
        links: bool,
    },
    /// What was recorded into the folder after `since` and not after `until`, in milliseconds since 1970, as one Ogg file.
    /// Its ends are where players look for them, unless it is `raw`.
    Cut {
        folder: &'a str,
        since: Option<u64>,
        until: Option<u64>,
        raw: bool,
    },
    /// Each line of standard input as a packet into the file or the folder, at most `most` of them to a commit, or all that
    /// are at hand. `streams` are the names of several streams with commas between, of which each line begins with one and
    /// a tab; otherwise all lines go to the stream `stream`. With `acks` each commit is told. The file, or the newest of the
    /// folder, is sealed at the end if `seal` says so.
    Lines {
        path: &'a str,
        filing: Filing,
        most: Option<u32>,
        acks: bool,
        media: Option<&'a str>,
        stream: Option<&'a str>,
        streams: Option<&'a str>,
        seal: bool,
    },
    /// The packets that the file or the folder holds, of the stream with this name or place, or of all; with `headers`
    /// their headers too, and with `json` an object for each.
    Packets {
        path: &'a str,
        stream: Option<&'a str>,
        link: Option<u32>,
        since: Option<u64>,
        until: Option<u64>,
        headers: bool,
        json: bool,
    },
    /// Whatever is wrong with the file, or the folder.
    Verify {
        path: &'a str,
    },
    /// The pages of the feed on standard input, with `strict` up to the first refusal.
    Mux {
        strict: bool,
    },
    /// Only the replies that the feed on standard input gets, with `strict` up to the first refusal.
    Check {
        strict: bool,
    },
    /// The feed on standard input into the file, `most` commands to a commit, with `strict` up to the first refusal.
    /// With `end_open` the streams that an earlier run left open are ended first, and so they are with `renumber`, which
    /// gives a stream another serial if the file has its serial. The file is sealed at the end if `seal` says so.
    Record {
        file: &'a str,
        end_open: bool,
        renumber: bool,
        seal: bool,
        most: u32,
        strict: bool,
    },
    /// The listing of the file.
    Links {
        file: &'a str,
    },
    /// A link's pages out of the file, or those of one of its streams.
    Split {
        file: &'a str,
        link: u32,
        serial: Option<u32>,
    },
    /// A link of the file, or all of its links, so that players stop at the right sample.
    Finish {
        file: &'a str,
        link: Option<u32>,
    },
    /// Where the file has good pages.
    Salvage {
        file: &'a str,
    },
    /// The file for this many connections to the address.
    Serve {
        file: &'a str,
        address: &'a str,
        count: u32,
    },
    /// The same, while a feed is recorded into the file, `most` commands to a commit.
    Live {
        file: &'a str,
        address: &'a str,
        feed: &'a str,
        count: u32,
        most: u32,
    },
}
