//! The program of stations: what a command line asks for, done over a file or a folder, and sockets.
//!
//! The status is 0 if the work was done, and 1 after a fault, whose line is on standard error. The status is 2 if the
//! command line asks for nothing that can be done, or for what another program does; then a text on standard error says
//! what it could ask for.
#![tactic(auto)]

use command_line::{Action, Program, answer};
use fault_lines::{Fault, Place, status_about, told_about};
use station_loop::{Filing, Options, refusal_of};
use std::process::ExitCode;

/// The word about stations.
struct Stations;

fn main(rt: HostRuntime) -> ExitCode {
    answer(&rt, &Stations)
}

impl Program for Stations {
    fn run(&self, rt: &HostRuntime, action: Action<'_>) -> Option<ExitCode> {
        let status = match action {
            Action::Station {
                path,
                filing,
                address,
                password_file,
                listeners,
                allow_origin,
                skeletons,
                seal,
                log,
            } => {
                let filing = Filing {
                    every: filing.every,
                    most_bytes: filing.most_bytes,
                    keep: filing.keep,
                    keep_bytes: filing.keep_bytes,
                };
                let options = Options {
                    path,
                    filing,
                    address,
                    password_file,
                    listeners,
                    allow_origin,
                    skeletons,
                    seal,
                    log,
                };
                match station_loop::station(rt, options) {
                    Err(Fault::Net) => told_about(rt, Fault::Net, address, refusal_of(rt, address)),
                    ended => status_about(rt, ended, Place::File(path)),
                }
            }
            _ => return None,
        };
        Some(status)
    }
}
