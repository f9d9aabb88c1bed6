//! The heads of answers about files.
ghost use Rattle.std.specs.Prelude.{◌≡◌, ◌++◌, ℕ, List, codes, IfOk, OnOk};
ghost use Rattle.archive_clock.specs.Told.{IsUtcText};
ghost use Rattle.ogg_http.specs.Answer.{AnswerFits, answer_head, line};
ghost use Rattle.archive_fetch.specs.Heads.{both, caching, disposition, head_of, name_of, validators, with_lines};
ghost use Rattle.archive_fetch.specs.Replies.{ReplyFits};

use crate::conditions::tag_of;
use crate::replies::{FileFacts, Reply};
use archive_clock::utc_of;
use ogg_http::{Answer, response_head};
pub use std::alloc::AllocError as Memory;
use std::alloc::Global;

fn put_line(text: &[u8], head: &mut Vec<u8>) -> Result<(), Memory>
    ensures { OnOk result (head.new.items ≡ head.old.items ++ line text.now) }
{
    head.extend_from_slice(text)?;
    head.extend_from_slice(b"\r\n")
}

fn caching(has_ended: bool) -> &'static [u8]
    ensures { result.now ++ codes "\r\n" ≡ caching has_ended }
{
    if has_ended {
        b"Cache-Control: public, max-age=31536000, immutable"
    } else {
        b"Cache-Control: no-cache"
    }
}

/// What a client may keep the file by, and for how long.
fn put_validators(file: FileFacts, head: &mut Vec<u8>) -> Result<(), Memory>
    ensures { OnOk result (head.new.items ≡ head.old.items ++ validators file) }
{
    head.extend_from_slice(b"ETag: ")?;
    put_line(tag_of(file).as_slice(), head)?;
    put_line(caching(file.has_ended), head)
}

fn unchanged(alloc: Global, file: FileFacts) -> Result<Vec<u8>, Memory>
    ensures { IfOk result (λ head. head.items ≡ head_of (Reply.Unchanged file)) }
{
    let mut head = Vec::new(alloc);
    put_line(b"HTTP/1.1 304 Not Modified", &mut head)?;
    put_validators(file, &mut head)?;
    put_line(b"Connection: close", &mut head)?;
    put_line(b"", &mut head)?;
    Ok(head)
}

fn found(alloc: Global, answer: Answer, file: FileFacts) -> Result<Vec<u8>, Memory>
    requires { ReplyFits (Reply.Found answer file) }
    ensures { IfOk result (λ head. head.items ≡ head_of (Reply.Found answer file)) }
{
    let mut head = refused(alloc, answer)?;
    // The empty line at its end.
    head.truncate(head.len().saturating_sub(2));
    put_validators(file, &mut head)?;
    put_line(b"", &mut head)?;
    Ok(head)
}

/// The head of the answer to a request for a cut, which gets a name by its times, in milliseconds since 1970.
pub fn cut_head(alloc: Global, answer: Answer, since: u64, until: u64) -> Result<Vec<u8>, Memory>
    requires { AnswerFits answer }
    ensures { IfOk result (λ head. (from to : List ℕ) × IsUtcText since from × IsUtcText until to
        × (head.items ≡ with_lines (disposition from to) (answer_head answer))) }
{
    let from = utc_of(since);
    let to = utc_of(until);
    let head = refused(alloc, answer)?;
    match named(head, &from, &to) {
        Ok(head) => Ok(head),
        Err(memory) => Err(memory),
    }
}

/// The head with a name for what follows it.
fn named(head: Vec<u8>, from: &[u8], to: &[u8]) -> Result<Vec<u8>, Memory>
    ensures { IfOk result (λ named. named.items ≡ with_lines (disposition from.now to.now) head.items) }
{
    let mut head = head;
    // The empty line at its end.
    head.truncate(head.len().saturating_sub(2));
    let front = b"Content-Disposition: attachment; filename=\"";
    put_line_of(front, from, to, &mut head)?;
    put_line(b"", &mut head)?;
    Ok(head)
}

fn put_times(from: &[u8], to: &[u8], head: &mut Vec<u8>) -> Result<(), Memory>
    ensures { OnOk result (head.new.items ≡ head.old.items ++ both from.now to.now) }
{
    head.extend_from_slice(from)?;
    head.extend_from_slice(b"-")?;
    head.extend_from_slice(to)
}

fn put_name(from: &[u8], to: &[u8], head: &mut Vec<u8>) -> Result<(), Memory>
    ensures { OnOk result (head.new.items ≡ head.old.items ++ line (name_of from.now to.now)) }
{
    put_times(from, to, head)?;
    put_line(b".ogg\"", head)
}

fn put_line_of(front: &[u8], from: &[u8], to: &[u8], head: &mut Vec<u8>) -> Result<(), Memory>
    ensures { OnOk result (head.new.items ≡ head.old.items ++ line (front.now ++ name_of from.now to.now)) }
{
    head.extend_from_slice(front)?;
    put_name(from, to, head)
}

fn refused(alloc: Global, answer: Answer) -> Result<Vec<u8>, Memory>
    requires { ReplyFits (Reply.Refused answer) }
    ensures { IfOk result (λ head. head.items ≡ head_of (Reply.Refused answer)) }
{
    let mut head = Vec::new(alloc);
    response_head(&answer, &mut head)?;
    Ok(head)
}

/// The head of the answer.
pub fn head_of(alloc: Global, reply: Reply) -> Result<Vec<u8>, Memory>
    requires { ReplyFits reply }
    ensures { IfOk result (λ head. head.items ≡ head_of reply) }
{
    match reply {
        Reply::Unchanged(file) => unchanged(alloc, file),
        Reply::Found(answer, file) => found(alloc, answer, file),
        Reply::Refused(answer) => refused(alloc, answer),
    }
}
