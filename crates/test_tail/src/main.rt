//! Makes calls of a disk with a tail at random, and compares them with a plain vector.
//!
//! A fixed generator makes 2,000 lists of writes, cuts, syncs and reads, over rooms of up to 40 bytes. Each runs over a
//! disk in memory, then with one call of that disk failing, for each call in turn, and then with one write, cut or
//! sync that is told as failed though the write or the cut was done. All that is read is compared with the vector.
//!
//! For each number a recording grows by pieces on a disk that then stops: the last half of the room is still read, and
//! what is longer than the room is not.
//!
//! It prints how many lists were right. The status is 1 if one wasn't, and then it says which.
#![tactic(auto)]

mod dice;
mod late;
mod lists;
mod stopped;

use crate::lists::is_right;
use crate::stopped::is_read_after_stop;
use std::alloc::{AllocError, Global};
use std::process::ExitCode;

/// How many lists are made.
const LISTS: u64 = 2_000;

fn main(rt: HostRuntime) -> ExitCode {
    for number in 0..LISTS {
        match check(rt.alloc(), number) {
            Ok(true) => {}
            Ok(false) => {
                let _ = rt.eprint(format_args!("list {number} wasn't right\n"));
                return ExitCode::from(1);
            }
            Err(_) => {
                let _ = rt.eprint("memory was refused\n");
                return ExitCode::from(2);
            }
        }
    }
    match rt.print(format_args!("{LISTS} lists of calls were right\n")) {
        Ok(()) => ExitCode::SUCCESS,
        Err(_) => ExitCode::from(2),
    }
}

fn check(alloc: Global, number: u64) -> Result<bool, AllocError> {
    Ok(is_right(alloc, number)? && is_read_after_stop(alloc, number)?)
}
