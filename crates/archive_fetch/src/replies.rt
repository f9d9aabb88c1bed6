//! The answer that a request for a file gets.
ghost use Rattle.std.specs.Prelude.{◌≡◌, option_copied, IfSome};
ghost use Rattle.ogg_http.specs.Answer.{AnswerFits};
ghost use Rattle.ogg_http.specs.Range.{LiesIn};
ghost use Rattle.serve_responses.specs.Response.{asked_by, asked_range};
ghost use Rattle.archive_fetch.specs.Replies.{IsWithin, LiesWithin, ReplyFits, answer_for, answer_in, list_answer, refusal_of, reply_of};

use ogg_http::{Answer, Ranged, Request, Verb, range_of};

/// A file of an archive, as it stands.
#[derive(Clone, Copy, Debug, PartialEq, Eq)]
pub struct FileFacts {
    pub number: u64,
    /// How many bytes of it are committed.
    pub bytes: u64,
    /// Whether it has ended: its bytes stay as they are.
    pub has_ended: bool,
}

/// Why a request isn't answered with a file, whichever it names: HTTP/1.1 has one Host field (RFC 9112, section 3.2), and files
/// are only read.
pub fn refusal_of(request: &Request<'_>) -> Option<Answer>
    ensures refusal { result ≡ refusal_of (asked_by request.now) }
    ensures fits { IfSome result (λ answer. AnswerFits answer) }
{
    if request.http11 && request.hosts != 1 {
        return Some(Answer::BadRequest);
    }
    if request.verb == Verb::Other {
        return Some(Answer::NotAllowed);
    }
    None
}

/// What a request for a file is answered.
#[derive(Clone, Copy, Debug, PartialEq, Eq)]
pub enum Reply {
    /// The client has the file as it stands.
    Unchanged(FileFacts),
    /// The file, or a part of it, or that it has no such part.
    Found(Answer, FileFacts),
    /// There is no such file, or it can't be asked for so.
    Refused(Answer),
}

/// Which bytes of a file of this length a `Range` field asks for, if there is one.
fn asked_range(range: Option<&[u8]>, len: u64) -> Ranged
    ensures range { result ≡ asked_range (option_copied range.entry) len }
    ensures inside { LiesIn len result }
{
    match range {
        Some(text) => range_of(text, len),
        None => Ranged::Whole,
    }
}

fn answer_for(range: Ranged, len: u64) -> Answer
    ensures answer { result ≡ answer_for range len }
    ensures fits { LiesIn len range → AnswerFits result }
    ensures within { LiesWithin len result }
{
    match range {
        Ranged::Whole => Answer::Full(len),
        Ranged::Part(first, last) => Answer::Part(first, last, len),
        Ranged::Unsatisfiable => Answer::Unsatisfiable(len),
    }
}

/// The answer to a request for what has this many bytes, by its method and the value of its `Range`.
pub fn answer_in(verb: Verb, range: Option<&[u8]>, len: u64) -> Answer
    ensures answer { result ≡ answer_in verb (option_copied range.entry) len }
    ensures fits { AnswerFits result }
    ensures within { LiesWithin len result }
{
    match verb {
        Verb::Get => answer_for(asked_range(range, len), len),
        _ => Answer::Full(len),
    }
}

/// The answer to a request for a file, if it is there, by whether its client has it as it stands.
pub fn reply_to(request: &Request<'_>, had: bool, file: Option<FileFacts>) -> Reply
    ensures reply { result ≡ reply_of (asked_by request.now) had file }
    ensures fits { ReplyFits result }
    ensures within { IfSome file (λ file. IsWithin file.bytes result) }
{
    if let Some(refusal) = refusal_of(request) {
        return Reply::Refused(refusal);
    }
    let Some(file) = file else {
        return Reply::Refused(Answer::NotFound);
    };
    if had {
        return Reply::Unchanged(file);
    }
    Reply::Found(answer_in(request.verb, request.range, file.bytes), file)
}

/// The answer to a request for a list of this length, in bytes.
pub fn list_answer(request: &Request<'_>, len: u64) -> Answer
    ensures answer { result ≡ list_answer (asked_by request.now) len }
    ensures fits { AnswerFits result }
{
    match refusal_of(request) {
        Some(refusal) => refusal,
        None => Answer::Listing(len),
    }
}
