//! The program of archives: streams are recorded into files, and these are listed, cut out again, and finished. It opens
//! no socket.
//!
//! The status is 0 if the work was done, and 1 after a fault, whose line is on standard error. The status is 2 if the
//! command line asks for nothing that can be done, or for what another program does; then a text on standard error says
//! what it could ask for.
#![tactic(auto)]

use archive_actions::{ArchiveOptions, Filing};
use command_line::{Action, Program, answer};
use fault_lines::{Place, status_about, status_of};
use import_feed::ChangeOptions;
use line_actions::LineOptions;
use packet_actions::PacketOptions;
use std::process::ExitCode;

/// The media type of lines.
const MEDIA: &str = "text/plain; charset=utf-8";

/// The name of the stream of lines.
const NAME: &str = "lines";

/// The words about archives.
struct Archives;

fn main(rt: HostRuntime) -> ExitCode {
    answer(&rt, &Archives)
}

impl Program for Archives {
    fn run(&self, rt: &HostRuntime, action: Action<'_>) -> Option<ExitCode> {
        let ended = match action {
            Action::Archive {
                path,
                filing,
                skeletons,
                most,
                strict,
                seal,
            } => {
                let options = ArchiveOptions {
                    skeletons,
                    most,
                    strict,
                    seal,
                };
                archive_actions::archive(rt, path, filed(filing), options)
            }
            Action::Lines {
                path,
                filing,
                most,
                acks,
                media,
                stream,
                streams,
                seal,
            } => {
                let options = LineOptions {
                    most,
                    acks,
                    media: media.unwrap_or(MEDIA),
                    names: streams.unwrap_or(stream.unwrap_or(NAME)),
                    tagged: streams.is_some(),
                    seal,
                };
                line_actions::lines(rt, path, filed(filing), options)
            }
            Action::Packets {
                path,
                stream,
                link,
                since,
                until,
                headers,
                json,
            } => {
                let options = PacketOptions {
                    stream,
                    link,
                    since,
                    until,
                    headers,
                    json,
                };
                packet_actions::packets(rt, path, options)
            }
            Action::Feed {
                mend,
                renumber,
                skeletons,
            } => {
                let changes = ChangeOptions {
                    renumber,
                    skeletons,
                };
                stream_actions::feed(rt, mend, changes)
            }
            Action::List {
                folder,
                since,
                until,
                links,
            } => file_actions::list(rt, folder, since, until, links),
            Action::Cut {
                folder,
                since,
                until,
                raw,
            } => file_actions::cut(rt, folder, since, until, raw),
            Action::Verify { path } => file_actions::verify(rt, path),
            Action::Links { file } => file_actions::links(rt, file),
            Action::Split { file, link, serial } => file_actions::split(rt, file, link, serial),
            Action::Finish { file, link } => file_actions::finish(rt, file, link),
            Action::Salvage { file } => file_actions::salvage(rt, file),
            _ => return None,
        };
        Some(match place_of(action) {
            Some(place) => status_about(rt, ended, place),
            None => status_of(rt, ended),
        })
    }
}

/// What a word of ours works on: its faults are told with a sentence.
fn place_of(action: Action<'_>) -> Option<Place<'_>> {
    match action {
        Action::Archive { path, .. }
        | Action::Lines { path, .. }
        | Action::Packets { path, .. }
        | Action::Verify { path } => Some(Place::Either(path)),
        Action::List { folder, .. } | Action::Cut { folder, .. } => Some(Place::Folder(folder)),
        Action::Finish { file, .. } => Some(Place::File(file)),
        _ => None,
    }
}

/// What was asked for of an archive's files.
fn filed(filing: command_line::Filing) -> Filing {
    Filing {
        every: filing.every,
        most_bytes: filing.most_bytes,
        keep: filing.keep,
        keep_bytes: filing.keep_bytes,
    }
}
