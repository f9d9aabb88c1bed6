//! The program of feeds: what a command line asks for, done over files, sockets and the standard streams.
//!
//! The status is 0 if the work was done, and 1 after a fault, whose line is on standard error. The status is 2 if the
//! command line asks for nothing that can be done, or for what another program does; then a text on standard error says
//! what it could ask for.
#![tactic(auto)]

use command_line::{Action, Program, answer};
use fault_lines::status_of;
use std::process::ExitCode;
use stream_actions::RecordEnds;

/// The words about feeds, and about files.
struct Feeds;

fn main(rt: HostRuntime) -> ExitCode {
    answer(&rt, &Feeds)
}

impl Program for Feeds {
    fn run(&self, rt: &HostRuntime, action: Action<'_>) -> Option<ExitCode> {
        let ended = match action {
            Action::Mux { strict } => stream_actions::mux(rt, strict),
            Action::Check { strict } => stream_actions::check(rt, strict),
            Action::Record {
                file,
                end_open,
                renumber,
                seal,
                most,
                strict,
            } => {
                let ends = RecordEnds {
                    end_open,
                    renumber,
                    seal,
                };
                stream_actions::record(rt, file, ends, most, strict)
            }
            Action::Links { file } => file_actions::links(rt, file),
            Action::Split { file, link, serial } => file_actions::split(rt, file, link, serial),
            Action::Salvage { file } => file_actions::salvage(rt, file),
            Action::Serve {
                file,
                address,
                count,
            } => serve_actions::serve(rt, file, address, count),
            Action::Live {
                file,
                address,
                feed,
                count,
                most,
            } => serve_actions::live(rt, file, address, feed, count, most),
            _ => return None,
        };
        Some(status_of(rt, ended))
    }
}
