//! What every program does: it takes its words, does what they ask for, or shows a text in place of that.
ghost use Rattle.std.specs.Prelude.{◌≡◌, ◌≤◌, IfSome};
ghost use Rattle.std.specs.Process.{exit_status};

use crate::action::Action;
use crate::asking::{action_of, elsewhere, not_text};
use clap::Error;
use std::alloc::AllocError;
use std::fs::File;
use std::process::ExitCode;
use std::{env, io};

/// A program, which answers some of the words.
pub trait Program {
    /// Does what is asked for, and returns the status, 0 or 1; nothing, if another program answers that.
    fn run(&self, rt: &HostRuntime, action: Action<'_>) -> Option<ExitCode>
        ensures { IfSome result (λ status. exit_status status ≤ 1) };
}

/// Runs the program with the words of the command line. The status is 2 if they ask for nothing that it can do; then a
/// text on standard error says what they could ask for.
pub fn answer<P: Program>(rt: &HostRuntime, program: &P) -> ExitCode
    ensures { exit_status result ≤ 2 }
{
    // Held to the end: see `folder`.
    let _streams = [folder(rt), folder(rt), folder(rt)];
    match words(rt) {
        Ok(words) => answer_words(rt, program, words.as_slice()),
        Err(error) => show(rt, &error),
    }
}

/// Does what these words ask for.
fn answer_words<P: Program>(rt: &HostRuntime, program: &P, words: &[String]) -> ExitCode
    ensures { exit_status result ≤ 2 }
{
    let action = match action_of(rt, words) {
        Ok(action) => action,
        Err(error) => return show(rt, &error),
    };
    match program.run(rt, action) {
        Some(status) => status,
        None => refuse(rt),
    }
}

/// Another program answers these words.
fn refuse(rt: &HostRuntime) -> ExitCode
    ensures { exit_status result ≡ 2 }
{
    match elsewhere(rt.alloc()) {
        Ok(error) => show(rt, &error),
        Err(_) => ExitCode::from(2),
    }
}

/// A folder, which can't be read or written, under the least number that is free. The next file that is opened would get
/// the number of a standard stream that is closed, and what is told there would be written into a recording.
fn folder(rt: &HostRuntime) -> Option<File> {
    File::open(rt, "/").ok()
}

/// The words of the command line. An error is the text to show in their place.
fn words(rt: &HostRuntime) -> Result<Vec<String>, Error> {
    match env::args(rt) {
        Ok(words) => Ok(words.collect(rt.alloc())?),
        Err(error) if error.kind() == io::ErrorKind::OutOfMemory => Err(Error::from(AllocError)),
        // Nothing else reads these words.
        Err(_) => Err(not_text(rt.alloc())?),
    }
}

/// Shows a text in place of the work. The status is 2.
fn show(rt: &HostRuntime, error: &Error) -> ExitCode
    ensures { exit_status result ≡ 2 }
{
    let _ = rt.eprint(error);
    ExitCode::from(2)
}
