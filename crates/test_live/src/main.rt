//! Records at random, lets listeners join at each boundary between commands, and checks what they hear.
//!
//! First comes a link whose pages, and what is heard of them, are written out by hand. Then
//! a fixed generator makes 200 recordings of several links, some with a Skeleton, of up to three streams, with packets
//! of up to several pages. At each boundary a listener joins, at the time or later, and pulls pieces of one of seven
//! sizes while page after page is committed. What was heard is read again: its pages, as a chain of links, and each
//! stream's packets, which are those of the link's beginning and those after the boundary. Some recordings are read from
//! a disk of which one call fails.
//!
//! It prints how many recordings were heard. The status is 1 if one wasn't, and then it says which.
#![tactic(auto)]

mod by_hand;
mod failing;
mod generator;
mod hearing;
mod packets;
mod recording;

use crate::by_hand::is_heard_by_hand;
use crate::failing::is_heard_over_faults;
use crate::hearing::is_heard;
use crate::recording::record;
use std::alloc::{AllocError, Global};
use std::process::ExitCode;

/// How many recordings are made.
const RECORDINGS: u64 = 200;

fn main(rt: HostRuntime) -> ExitCode {
    for number in 0..=RECORDINGS {
        match check(rt.alloc(), number) {
            Ok(true) => {}
            Ok(false) => {
                let _ = rt.eprint(format_args!(
                    "recording {number} wasn't heard as it should be\n"
                ));
                return ExitCode::from(1);
            }
            Err(_) => {
                let _ = rt.eprint("memory was refused\n");
                return ExitCode::from(2);
            }
        }
    }
    match rt.print(format_args!("{RECORDINGS} recordings were heard\n")) {
        Ok(()) => ExitCode::SUCCESS,
        Err(_) => ExitCode::from(2),
    }
}

/// Whether a recording is heard from each boundary on. Number 0 is the link that is written out by hand.
fn check(alloc: Global, number: u64) -> Result<bool, AllocError> {
    if number == 0 {
        return is_heard_by_hand(alloc);
    }
    let Some(made) = record(alloc, number)? else {
        return Ok(false);
    };
    if !is_heard(alloc, &made, number)? {
        return Ok(false);
    }
    Ok(number % 10 != 0 || is_heard_over_faults(alloc, &made)?)
}
