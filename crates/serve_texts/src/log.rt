//! The lines of the log.
ghost use Rattle.std.specs.Prelude.{◌≡◌, ◌≤◌, ◌<◌, ◌+◌, ◌++◌, ℕ, List, OnOk, OnErr, length, vec_len, vec_capacity};
ghost use Rattle.httpdate.specs.Date.{date_text};
ghost use Rattle.httpdate.specs.declared.date.HttpDate.{HttpDate as Date};
ghost use Rattle.serve_texts.specs.Log.{IsAt, agent_text, date_part, front_text, last_text, line_text, log_line, number_text, program_text, request_text};

use crate::Memory;
use crate::escape::{append_escaped, append_shown};
use crate::heard::{request_line, value_of};
use crate::pieces::append_pieces;
use crate::reply::Reply;
use crate::value::three_digits;
use httpdate::HttpDate;
use itoa::Buffer;

/// The last second that a line can have: that of the year 9999.
const LAST_SECOND: u64 = 253_402_300_799;

/// Appends who asked, and when. After `Memory` a part of it stands in the vector.
fn append_front(out: &mut Vec<u8>, address: &[u8], date: &[u8; 29]) -> Result<(), Memory>
    ensures ok { OnOk result (out.new.items ≡ out.old.items ++ front_text address.now date.now) }
    ensures kept { (added : List ℕ) × (out.new.items ≡ out.old.items ++ added) }
    ensures full { OnErr result (vec_capacity out.old < vec_len out.old + length (front_text address.now date.now)) }
    ensures capacity { vec_capacity out.old ≤ vec_capacity out.new }
{
    match append_escaped(out, address) {
        Ok(()) => append_date(out, date),
        Err(memory) => Err(memory),
    }
}

/// Appends the date, with what stands before and after it. After `Memory` a part of it stands in the vector.
fn append_date(out: &mut Vec<u8>, date: &[u8; 29]) -> Result<(), Memory>
    ensures ok { OnOk result (out.new.items ≡ out.old.items ++ date_part date.now) }
    ensures kept { (added : List ℕ) × (out.new.items ≡ out.old.items ++ added) }
    ensures full { OnErr result (vec_capacity out.old < vec_len out.old + length (date_part date.now)) }
    ensures capacity { vec_capacity out.old ≤ vec_capacity out.new }
{
    append_pieces(
        out,
        &[
            b" - - [",
            &date[5..7],
            b"/",
            &date[8..11],
            b"/",
            &date[12..16],
            b":",
            &date[17..25],
            b" +0000] \"",
        ],
    )
}

/// Appends what was asked for, the status, and the bytes of content. After `Memory` a part of it stands in the vector.
fn append_request(out: &mut Vec<u8>, head: &[u8], reply: &Reply) -> Result<(), Memory>
    ensures ok { OnOk result (out.new.items ≡ out.old.items ++ request_text head.now reply.now) }
    ensures kept { (added : List ℕ) × (out.new.items ≡ out.old.items ++ added) }
    ensures full { OnErr result (vec_capacity out.old < vec_len out.old + length (request_text head.now reply.now)) }
    ensures capacity { vec_capacity out.old ≤ vec_capacity out.new }
{
    match append_shown(out, request_line(head)) {
        Ok(()) => append_numbers(out, reply),
        Err(memory) => Err(memory),
    }
}

/// Appends the status and the bytes of content. After `Memory` a part of it stands in the vector.
fn append_numbers(out: &mut Vec<u8>, reply: &Reply) -> Result<(), Memory>
    ensures ok { OnOk result (out.new.items ≡ out.old.items ++ number_text reply.now) }
    ensures kept { (added : List ℕ) × (out.new.items ≡ out.old.items ++ added) }
    ensures full { OnErr result (vec_capacity out.old < vec_len out.old + length (number_text reply.now)) }
    ensures capacity { vec_capacity out.old ≤ vec_capacity out.new }
{
    let status = three_digits(u64::from(reply.status));
    let mut digits = Buffer::new();
    let content = digits.format(reply.content).as_bytes();
    append_pieces(out, &[b"\" ", &status, b" ", content, b" \""])
}

/// Appends the page that the request came from, and the program that made it. After `Memory` a part of it stands in the
/// vector.
fn append_agent(out: &mut Vec<u8>, head: &[u8]) -> Result<(), Memory>
    ensures ok { OnOk result (out.new.items ≡ out.old.items ++ agent_text head.now) }
    ensures kept { (added : List ℕ) × (out.new.items ≡ out.old.items ++ added) }
    ensures full { OnErr result (vec_capacity out.old < vec_len out.old + length (agent_text head.now)) }
    ensures capacity { vec_capacity out.old ≤ vec_capacity out.new }
{
    match append_shown(out, value_of(b"referer:", head)) {
        Ok(()) => append_program(out, head),
        Err(memory) => Err(memory),
    }
}

/// Appends the program that made the request, with what stands before and after it. After `Memory` a part of it stands
/// in the vector.
fn append_program(out: &mut Vec<u8>, head: &[u8]) -> Result<(), Memory>
    ensures ok { OnOk result (out.new.items ≡ out.old.items ++ program_text head.now) }
    ensures kept { (added : List ℕ) × (out.new.items ≡ out.old.items ++ added) }
    ensures full { OnErr result (vec_capacity out.old < vec_len out.old + length (program_text head.now)) }
    ensures capacity { vec_capacity out.old ≤ vec_capacity out.new }
{
    match append_pieces(out, &[b"\" \""]) {
        Ok(()) => append_last(out, value_of(b"user-agent:", head)),
        Err(memory) => Err(memory),
    }
}

/// Appends the last part of a line. After `Memory` a part of it stands in the vector.
fn append_last(out: &mut Vec<u8>, text: &[u8]) -> Result<(), Memory>
    ensures ok { OnOk result (out.new.items ≡ out.old.items ++ last_text text.now) }
    ensures kept { (added : List ℕ) × (out.new.items ≡ out.old.items ++ added) }
    ensures full { OnErr result (vec_capacity out.old < vec_len out.old + length (last_text text.now)) }
    ensures capacity { vec_capacity out.old ≤ vec_capacity out.new }
{
    match append_shown(out, text) {
        Ok(()) => append_pieces(out, &[b"\"\n"]),
        Err(memory) => Err(memory),
    }
}

/// Appends a line. After `Memory` a part of it stands in the vector.
fn append_parts(
    out: &mut Vec<u8>,
    address: &[u8],
    date: &[u8; 29],
    head: &[u8],
    reply: &Reply,
) -> Result<(), Memory>
    ensures ok { OnOk result (out.new.items ≡ out.old.items ++ line_text address.now date.now head.now reply.now) }
    ensures kept { (added : List ℕ) × (out.new.items ≡ out.old.items ++ added) }
    ensures full { OnErr result
        (vec_capacity out.old < vec_len out.old + length (line_text address.now date.now head.now reply.now)) }
{
    match append_front(out, address, date) {
        Ok(()) => {}
        Err(memory) => return Err(memory),
    }
    match append_request(out, head, reply) {
        Ok(()) => append_agent(out, head),
        Err(memory) => Err(memory),
    }
}

/// The date of this second, counted from 1970.
fn date_at(seconds: u64) -> HttpDate
    ensures { IsAt seconds result }
{
    HttpDate::from_unix_secs(seconds.min(LAST_SECOND)).unwrap()
}

/// Appends the line of a connection from this address that ended at this second, counted from 1970, of which this was
/// heard and sent. After `Memory` the vector is unchanged.
pub fn append_line(
    out: &mut Vec<u8>,
    address: &[u8],
    seconds: u64,
    head: &[u8],
    reply: &Reply,
) -> Result<(), Memory>
    ensures ok { OnOk result
        ((date : Date) × IsAt seconds date × (out.new.items ≡ out.old.items ++ log_line address.now date head.now reply.now)) }
    ensures err { OnErr result (out.new.items ≡ out.old.items) }
    ensures full { OnErr result ((date : Date) × IsAt seconds date
        × (vec_capacity out.old < vec_len out.old + length (log_line address.now date head.now reply.now))) }
{
    let date = date_at(seconds);
    let len = out.len();
    match append_parts(out, address, &date.to_bytes(), head, reply) {
        Ok(()) => Ok(()),
        Err(Memory) => {
            out.truncate(len);
            Err(Memory)
        }
    }
}
