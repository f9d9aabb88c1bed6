//! Reads Ogg bytes on standard input, for tests and measures together with other programs.
//!
//! Without a word it counts the pages: `pages COUNT END`, and then `fault OFFSET CODE NAME` if bytes are left that
//! begin with no page. With `chain` it takes the pages into a chain of links, one by one, and prints `chain END`.
//! Then comes `fault OFFSET CODE NAME` of the first page that may not follow, or `unfinished SERIAL` if a packet
//! goes on at the end. With a serial it lists the packets of that stream, `MD5 LENGTH`, and then `end`, or
//! `fault CODE NAME`. With `window FILE` it counts the pages of a file through a window, without reading it as a
//! whole: the output is the same. With `folding TURNS` or `tables TURNS` it goes over the bytes so often, computing their
//! checksum as `page_checksum` does for many bytes or for few, and prints `checksum VALUE`.
//!
//! The status is 0 if there was no fault, and 1 after one. The status is 2 if standard input or the file can't be
//! read, standard output can't be written, or the word is none of these.
#![tactic(auto)]

mod chain;
mod listing;
mod summing;
mod window;

use crate::chain::check_chain;
use crate::listing::{count_pages, list_packets};
use crate::summing::sum_again;
use crate::window::count_lent;
use std::alloc::Global;
use std::env;
use std::io::{self, BufWriter, Read, Write};
use std::process::ExitCode;

fn main(rt: HostRuntime) -> ExitCode {
    match run(&rt) {
        Ok(true) => ExitCode::SUCCESS,
        Ok(false) => ExitCode::from(1),
        Err(_) => ExitCode::from(2),
    }
}

/// Whether what was asked for was found without a fault.
fn run(rt: &HostRuntime) -> io::Result<bool> {
    let mut output = BufWriter::new(rt.alloc(), rt.stdout())?;
    let is_sound = answer(rt, &mut output)?;
    output.flush()?;
    Ok(is_sound)
}

/// Answers what the words ask for.
fn answer<W: Write>(rt: &HostRuntime, output: &mut W) -> io::Result<bool> {
    let mut words = env::args(rt)?.skip(1);
    let word = words.next();
    let second = words.next();
    match word {
        None => count_pages(&input(rt)?, output),
        Some(word) => match second {
            None => read(rt.alloc(), word.as_str(), &input(rt)?, output),
            Some(second) => go_over(rt, word.as_str(), second.as_str(), output),
        },
    }
}

/// All of standard input.
fn input(rt: &HostRuntime) -> io::Result<Vec<u8>> {
    let mut bytes = Vec::new(rt.alloc());
    rt.stdin().read_to_end(&mut bytes)?;
    Ok(bytes)
}

/// Goes through a file by a window, or over the bytes again and again.
fn go_over<W: Write>(
    rt: &HostRuntime,
    word: &str,
    second: &str,
    output: &mut W,
) -> io::Result<bool> {
    if word == "window" {
        return count_lent(rt, second, output);
    }
    if word != "folding" && word != "tables" {
        return Err(io::Error::from(io::ErrorKind::InvalidInput));
    }
    sum_again(word == "tables", second, &input(rt)?, output)
}

/// Reads the bytes as a chain, or the packets of the stream with this serial.
fn read<W: Write>(alloc: Global, word: &str, bytes: &[u8], output: &mut W) -> io::Result<bool> {
    if word == "chain" {
        return check_chain(alloc, bytes, output);
    }
    match word.parse::<u32>() {
        Ok(serial) => list_packets(bytes, serial, output),
        Err(_) => Err(io::Error::from(io::ErrorKind::InvalidInput)),
    }
}
