//! The action that words ask for.
ghost use Rattle.std.specs.Prelude.{◌≤◌, IfOk, IfSome};
ghost use Rattle.command_line.specs.Action.{IsCount, IsGroup, IsInBounds};

use crate::action::{Action, Filing};
use crate::building::program;
use crate::rows::{Bounds, CONNECTIONS, COUNTS, GROUPS};
use crate::times::time_asked;
use archive_clock::read_span;
use clap::error::ErrorKind;
use clap::{ArgMatches, Error};
use import_changes::Skeletons;
use serve_origins::is_origin;
use skeleton3::is_media_type;
use std::alloc::{AllocError, Global};

/// What is said of words of which `clap` has checked that they aren't there: all have their subcommand and their bounds.
const NOTHING: &str = "the words ask for nothing";

/// What is said of a text that is no span of time.
const NO_SPAN: &str = "a DURATION is a number from 1 on and one of s m h d w, as in 90s, 1h or 6w";

/// What is said of a text that is no number of bytes.
const NO_BYTES: &str = "BYTES is a number from 1 on";

/// What is said of two ways to name streams.
const BOTH: &str = "`--stream` names one stream and `--streams` several: give one of them";

/// How many names there may be.
const MOST_NAMES: usize = 63;

/// What is said of a text that is no name of a stream and no media type.
const NO_NAME: &str =
    "a NAME and a TYPE are 1 to 255 printing ASCII characters without a space at an end; NAMES are 63 at most, with commas between";

/// What is said of a text that names no origin.
const NO_ORIGIN: &str =
    "an ORIGIN is `*`, or a scheme, a host and maybe a port, as https://radio.example:8443, in lower case and without a `/` at the end";

/// What is said of a text that is no time.
const NO_TIME: &str =
    "T is a time as 2026-11-28T14:05:00Z or 2026-11-28T14:05:00 (local), or counted back from now, as -90s";

/// What the words ask for; the first is the program's own name. An error is the text to show in place of it: help, the
/// version, or what is wrong with the words.
pub fn action_of<'a>(rt: &HostRuntime, words: &'a [String]) -> Result<Action<'a>, Error>
    ensures { IfOk result IsInBounds }
{
    let alloc = rt.alloc();
    let matches = program(alloc)?.try_get_matches_from(words)?;
    match matches.subcommand() {
        Some((name, words)) => match asked(rt, name, words) {
            Ok(action) => Ok(action),
            Err(message) => Err(refusal(alloc, message)?),
        },
        // `clap` has checked that there is a subcommand.
        None => Err(refusal(alloc, NOTHING)?),
    }
}

/// What is said of words that are no text.
pub fn not_text(alloc: Global) -> Result<Error, AllocError> {
    refusal(alloc, "an argument isn't text in UTF-8")
}

/// What is said of words that another program is asked for: there is one for each family of words.
pub fn elsewhere(alloc: Global) -> Result<Error, AllocError> {
    refusal(
        alloc,
        "another program does this; ./kudzuturret runs the one that does",
    )
}

/// An error that `clap` didn't find, in the form of `clap`'s own errors.
fn refusal(alloc: Global, message: &str) -> Result<Error, AllocError> {
    program(alloc)?.error(ErrorKind::InvalidValue, message)
}

/// What a subcommand with these words asks for, or what is to be said of them.
fn asked<'a>(
    rt: &HostRuntime,
    name: &str,
    words: &ArgMatches<'a>,
) -> Result<Action<'a>, &'static str>
    ensures { IfOk result IsInBounds }
{
    match name {
        "archive" => archive_of(words),
        "station" => station_of(words),
        "lines" => lines_of(words),
        "packets" => packets_of(rt, words),
        "list" => list_of(rt, words),
        "cut" => cut_of(rt, words),
        _ => asked_of_files(name, words).ok_or(NOTHING),
    }
}

/// The same for a subcommand without spans and times.
fn asked_of_files<'a>(name: &str, words: &ArgMatches<'a>) -> Option<Action<'a>>
    ensures { IfSome result IsInBounds }
{
    match name {
        "verify" => verify_of(words),
        "feed" => Some(feed_of(words)),
        "mux" => Some(mux_of(words)),
        "record" => record_of(words),
        "links" => links_of(words),
        "split" => split_of(words),
        "finish" => finish_of(words),
        "salvage" => salvage_of(words),
        "serve" => serve_of(words),
        "live" => live_of(words),
        _ => None,
    }
}

/// How many commands share one commit.
fn group_of(words: &ArgMatches<'_>) -> Option<u32>
    ensures { IfSome result IsGroup }
{
    number_of(words, "group", GROUPS)
}

/// How many connections are served.
fn count_of(words: &ArgMatches<'_>) -> Option<u32>
    ensures { IfSome result IsCount }
{
    number_of(words, "COUNT", COUNTS)
}

/// A number, if it is there and within the bounds. `clap` has refused every other.
fn number_of(words: &ArgMatches<'_>, name: &str, bounds: Bounds) -> Option<u32>
    ensures { IfSome result (λ number. (bounds.least ≤ number) × (number ≤ bounds.most)) }
{
    match words.get_one::<u32>(name) {
        Some(number) if bounds.least <= number && number <= bounds.most => Some(number),
        _ => None,
    }
}

/// What becomes of Skeletons.
fn skeletons_of(words: &ArgMatches<'_>) -> Skeletons {
    match words.get_one::<u32>("skeleton") {
        Some(serial) => Skeletons::Made(serial),
        None if words.get_flag("no-skeleton") => Skeletons::LeftOut,
        None => Skeletons::Kept,
    }
}

/// The seconds of a span, if one is given.
fn span_of(words: &ArgMatches<'_>, name: &str) -> Result<Option<u64>, &'static str> {
    let Some(text) = words.get_str(name) else {
        return Ok(None);
    };
    match read_span(text.as_bytes()) {
        Some(seconds) => Ok(Some(seconds)),
        None => Err(NO_SPAN),
    }
}

/// A number of bytes, if one is given.
fn bytes_of(words: &ArgMatches<'_>, name: &str) -> Result<Option<u64>, &'static str> {
    let Some(text) = words.get_str(name) else {
        return Ok(None);
    };
    match text.parse::<u64>() {
        Ok(bytes) if bytes > 0 => Ok(Some(bytes)),
        _ => Err(NO_BYTES),
    }
}

/// A time in milliseconds since 1970, if one is given.
fn time_of(
    rt: &HostRuntime,
    words: &ArgMatches<'_>,
    name: &str,
) -> Result<Option<u64>, &'static str> {
    let Some(text) = words.get_str(name) else {
        return Ok(None);
    };
    match time_asked(rt, text) {
        Some(time) => Ok(Some(time)),
        None => Err(NO_TIME),
    }
}

/// How the files of an archive are begun and kept.
fn filing_of(words: &ArgMatches<'_>) -> Result<Filing, &'static str> {
    Ok(Filing {
        every: span_of(words, "every")?,
        most_bytes: bytes_of(words, "most-bytes")?,
        keep: span_of(words, "keep")?,
        keep_bytes: bytes_of(words, "keep-bytes")?,
    })
}

fn archive_of<'a>(words: &ArgMatches<'a>) -> Result<Action<'a>, &'static str>
    ensures { IfOk result IsInBounds }
{
    let filing = filing_of(words)?;
    archive_filed(words, filing).ok_or(NOTHING)
}

fn archive_filed<'a>(words: &ArgMatches<'a>, filing: Filing) -> Option<Action<'a>>
    ensures { IfSome result IsInBounds }
{
    Some(Action::Archive {
        path: words.get_str("PATH")?,
        filing,
        skeletons: skeletons_of(words),
        most: group_of(words)?,
        strict: words.get_flag("strict"),
        seal: words.get_flag("seal"),
    })
}

fn lines_of<'a>(words: &ArgMatches<'a>) -> Result<Action<'a>, &'static str>
    ensures { IfOk result IsInBounds }
{
    let filing = filing_of(words)?;
    let named = named_streams(words)?;
    Ok(Action::Lines {
        path: words.get_str("PATH").ok_or(NOTHING)?,
        filing,
        most: group_of(words),
        acks: words.get_flag("acks"),
        media: media_of(words)?,
        stream: named.0,
        streams: named.1,
        seal: words.get_flag("seal"),
    })
}

/// The name of the one stream, or those of several.
fn named_streams<'a>(
    words: &ArgMatches<'a>,
) -> Result<(Option<&'a str>, Option<&'a str>), &'static str> {
    match (words.get_str("stream"), words.get_str("streams")) {
        (Some(_), Some(_)) => Err(BOTH),
        (stream, streams) => {
            if are_names(stream, false) && are_names(streams, true) {
                Ok((stream, streams))
            } else {
                Err(NO_NAME)
            }
        }
    }
}

/// Whether these may be the names of streams.
fn are_names(text: Option<&str>, several: bool) -> bool {
    match text {
        Some(names) if several => names.split(',').count() <= MOST_NAMES
            && names.split(',').all(|name| is_media_type(name.as_bytes())),
        Some(name) => is_media_type(name.as_bytes()),
        None => true,
    }
}

/// The media type of the lines, if one is given.
fn media_of<'a>(words: &ArgMatches<'a>) -> Result<Option<&'a str>, &'static str> {
    match words.get_str("media") {
        Some(media) if !is_media_type(media.as_bytes()) => Err(NO_NAME),
        media => Ok(media),
    }
}

fn packets_of<'a>(rt: &HostRuntime, words: &ArgMatches<'a>) -> Result<Action<'a>, &'static str>
    ensures { IfOk result IsInBounds }
{
    Ok(Action::Packets {
        path: words.get_str("PATH").ok_or(NOTHING)?,
        stream: words.get_str("stream"),
        link: words.get_one::<u32>("link"),
        since: time_of(rt, words, "since")?,
        until: time_of(rt, words, "until")?,
        headers: words.get_flag("headers"),
        json: words.get_flag("json"),
    })
}

fn list_of<'a>(rt: &HostRuntime, words: &ArgMatches<'a>) -> Result<Action<'a>, &'static str>
    ensures { IfOk result IsInBounds }
{
    Ok(Action::List {
        folder: words.get_str("DIR").ok_or(NOTHING)?,
        since: time_of(rt, words, "since")?,
        until: time_of(rt, words, "until")?,
        links: words.get_flag("links"),
    })
}

fn cut_of<'a>(rt: &HostRuntime, words: &ArgMatches<'a>) -> Result<Action<'a>, &'static str>
    ensures { IfOk result IsInBounds }
{
    Ok(Action::Cut {
        folder: words.get_str("DIR").ok_or(NOTHING)?,
        since: time_of(rt, words, "since")?,
        until: time_of(rt, words, "until")?,
        raw: words.get_flag("raw"),
    })
}

fn verify_of<'a>(words: &ArgMatches<'a>) -> Option<Action<'a>>
    ensures { IfSome result IsInBounds }
{
    Some(Action::Verify {
        path: words.get_str("PATH")?,
    })
}

fn station_of<'a>(words: &ArgMatches<'a>) -> Result<Action<'a>, &'static str>
    ensures { IfOk result IsInBounds }
{
    let filing = filing_of(words)?;
    let allow_origin = origin_of(words)?;
    station_filed(words, filing, allow_origin).ok_or(NOTHING)
}

/// The origin whose pages may read what is answered, if one is given.
fn origin_of<'a>(words: &ArgMatches<'a>) -> Result<Option<&'a str>, &'static str> {
    match words.get_str("allow-origin") {
        Some(origin) if !is_origin(origin.as_bytes()) => Err(NO_ORIGIN),
        origin => Ok(origin),
    }
}

fn station_filed<'a>(
    words: &ArgMatches<'a>,
    filing: Filing,
    allow_origin: Option<&'a str>,
) -> Option<Action<'a>>
    ensures { IfSome result IsInBounds }
{
    Some(Action::Station {
        path: words.get_str("PATH")?,
        filing,
        address: words.get_str("ADDR")?,
        password_file: words.get_str("password-file"),
        listeners: number_of(words, "listeners", CONNECTIONS)?,
        allow_origin,
        skeletons: skeletons_of(words),
        seal: words.get_flag("seal"),
        log: words.get_flag("log"),
    })
}

fn feed_of<'a>(words: &ArgMatches<'a>) -> Action<'a>
    ensures { IsInBounds result }
{
    Action::Feed {
        mend: words.get_flag("mend"),
        renumber: words.get_flag("renumber"),
        skeletons: skeletons_of(words),
    }
}

fn mux_of<'a>(words: &ArgMatches<'a>) -> Action<'a>
    ensures { IsInBounds result }
{
    let strict = words.get_flag("strict");
    if words.get_flag("check") {
        Action::Check { strict }
    } else {
        Action::Mux { strict }
    }
}

fn record_of<'a>(words: &ArgMatches<'a>) -> Option<Action<'a>>
    ensures { IfSome result IsInBounds }
{
    Some(Action::Record {
        file: words.get_str("FILE")?,
        end_open: words.get_flag("end-open"),
        renumber: words.get_flag("renumber"),
        seal: words.get_flag("seal"),
        most: group_of(words)?,
        strict: words.get_flag("strict"),
    })
}

fn links_of<'a>(words: &ArgMatches<'a>) -> Option<Action<'a>>
    ensures { IfSome result IsInBounds }
{
    Some(Action::Links {
        file: words.get_str("FILE")?,
    })
}

fn split_of<'a>(words: &ArgMatches<'a>) -> Option<Action<'a>>
    ensures { IfSome result IsInBounds }
{
    Some(Action::Split {
        file: words.get_str("FILE")?,
        link: words.get_one::<u32>("LINK")?,
        serial: words.get_one::<u32>("SERIAL"),
    })
}

fn finish_of<'a>(words: &ArgMatches<'a>) -> Option<Action<'a>>
    ensures { IfSome result IsInBounds }
{
    Some(Action::Finish {
        file: words.get_str("FILE")?,
        link: words.get_one::<u32>("LINK"),
    })
}

fn salvage_of<'a>(words: &ArgMatches<'a>) -> Option<Action<'a>>
    ensures { IfSome result IsInBounds }
{
    Some(Action::Salvage {
        file: words.get_str("FILE")?,
    })
}

fn serve_of<'a>(words: &ArgMatches<'a>) -> Option<Action<'a>>
    ensures { IfSome result IsInBounds }
{
    Some(Action::Serve {
        file: words.get_str("FILE")?,
        address: words.get_str("ADDR")?,
        count: count_of(words)?,
    })
}

fn live_of<'a>(words: &ArgMatches<'a>) -> Option<Action<'a>>
    ensures { IfSome result IsInBounds }
{
    Some(Action::Live {
        file: words.get_str("FILE")?,
        address: words.get_str("ADDR")?,
        feed: words.get_str("FEED")?,
        count: count_of(words)?,
        most: group_of(words)?,
    })
}
