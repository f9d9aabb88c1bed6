//! The text and the body of a response.
ghost use Rattle.std.specs.Prelude.{◌≡◌, ◌⊎◌, ◌+◌, ◌≤◌, ◌<◌, ◌++◌, [], ℕ, List, Option, Some, None, length, option_copied, IfOk, OnOk, OnErr, vec_len, vec_capacity};
ghost use Rattle.link_index.specs.Listing.{listing};
ghost use Rattle.ogg_http.specs.Answer.{AnswerFits, answer_head};
ghost use Rattle.ogg_http.specs.Range.{LiesIn};
ghost use Rattle.serve_responses.specs.Response.{Content, Pages, asked_by, asked_range, lacks_host};
ghost use Rattle.serve_responses.specs.Response.{get_response, ranged, response_by, without_content};
ghost use Rattle.serve_sending.specs.Answering.{AreFound, IsAnswered, IsFound, IsWhole, cut, length_of, listing_text};

use crate::Memory;
use crate::body::Body;
use crate::finding::Found;
use crate::sending::Sending;
use link_index::Index;
use ogg_http::{Answer, Ranged, Request, Verb, range_of, response_head};
use std::alloc::Global;

/// HTTP/1.1 wants exactly one Host field (RFC 9112, section 3.2).
pub fn lacks_host(request: &Request<'_>) -> bool
    ensures { result ≡ lacks_host (asked_by request.now) }
{
    request.http11 && request.hosts != 1
}

/// The answer that has no content, as a whole.
pub fn plain(alloc: Global, answer: Answer) -> Result<Sending, Memory>
    requires { AnswerFits answer }
    ensures text { IfOk result (λ sending. sending.text ≡ answer_head answer) }
    ensures body { IfOk result (λ sending. sending.body ≡ Body.Nothing) }
{
    with_body(alloc, answer, Body::Nothing)
}

/// The answer with a body.
pub fn with_body(alloc: Global, answer: Answer, body: Body) -> Result<Sending, Memory>
    requires { AnswerFits answer }
    ensures text { IfOk result (λ sending. sending.text ≡ answer_head answer) }
    ensures body { IfOk result (λ sending. sending.body ≡ body) }
{
    let mut text = Vec::new(alloc);
    match response_head(&answer, &mut text) {
        Ok(()) => Ok(Sending::new(text, body)),
        Err(fault) => Err(fault),
    }
}

/// The response that lists the index, with or without its content.
fn listed(alloc: Global, index: &Index, whole: bool) -> Result<Sending, Memory>
    ensures text { IfOk result (λ sending. sending.text ≡ listing_text (listing index.now.chain.chain.length_of index.now.entries) whole) }
    ensures body { IfOk result (λ sending. sending.body ≡ Body.Nothing) }
{
    let mut lines = Vec::new(alloc);
    let mut text = Vec::new(alloc);
    match append_listed(index, whole, &mut lines, &mut text) {
        Ok(()) => Ok(Sending::new(text, Body::Nothing)),
        Err(memory) => Err(memory),
    }
}

/// Appends the text of a response that lists the index, with or without its content, by way of a vector for the
/// lines. After `Memory` the text may have its head.
fn append_listed(
    index: &Index,
    whole: bool,
    lines: &mut Vec<u8>,
    text: &mut Vec<u8>,
) -> Result<(), Memory>
    requires none { lines.old.items ≡ [] }
    ensures text { OnOk result (text.new.items
        ≡ text.old.items ++ listing_text (listing index.now.chain.chain.length_of index.now.entries) whole) }
    // There was no room for the lines, or none for the head, or after it none for the lines.
    ensures full { OnErr result
        ((vec_capacity lines.old < vec_len lines.old + length (listing index.now.chain.chain.length_of index.now.entries))
        ⊎ (vec_capacity text.old < vec_len text.old
        + length (answer_head (Answer.Listing (length (listing index.now.chain.chain.length_of index.now.entries)))))
        ⊎ (vec_capacity text.new < vec_len text.new + length (listing index.now.chain.chain.length_of index.now.entries))) }
{
    match index.write_listing(lines) {
        Ok(()) => {}
        Err(memory) => return Err(memory),
    }
    match response_head(&Answer::Listing(lines.len() as u64), text) {
        Ok(()) => {}
        Err(memory) => return Err(memory),
    }
    if whole {
        match text.reserve(lines.len()) {
            Ok(()) => {}
            Err(memory) => return Err(memory),
        }
        text.extend_from_slice(lines.as_slice()).unwrap();
    }
    Ok(())
}

/// How many bytes were found.
fn length_of(found: Found) -> u64
    ensures { result ≡ length_of found }
{
    match found {
        Found::Listing => 0,
        Found::File(_, len) => len,
        Found::Pages(_, _, len) => len,
    }
}

/// This many bytes of what was found, after those that are passed over.
fn cut(found: Found, skip: u64, count: u64) -> Body
    ensures { (committed bytes : List ℕ) → AreFound committed bytes found → skip + count ≤ length bytes → result ≡ cut found skip count }
{
    match found {
        Found::Listing => Body::Nothing,
        // A place in the file fits, so nothing is cut off here.
        Found::File(place, _) => Body::Part(place.saturating_add(skip), count),
        Found::Pages(serial, place, _) => Body::Stream(serial, place, skip, count),
    }
}

/// Which bytes a Range field asks for, or all without one (RFC 9110, section 14.2).
fn asked_range(range: Option<&[u8]>, len: u64) -> Ranged
    ensures range { result ≡ asked_range (option_copied range.entry) len }
    ensures inside { LiesIn len result }
{
    match range {
        Some(text) => range_of(text, len),
        None => Ranged::Whole,
    }
}

/// The answer with all of the bytes, a part of them, or none (RFC 9110, sections 15.3.1, 15.3.7 and 15.5.17).
fn ranged(found: Found, range: Ranged) -> (Answer, Body)
    requires { LiesIn (length_of found) range }
    ensures answered { (committed bytes : List ℕ) → AreFound committed bytes found
        → IsAnswered committed (ranged bytes range) result.0 result.1 }
    ensures fits { AnswerFits result.0 }
{
    let len = length_of(found);
    match range {
        Ranged::Whole => (Answer::Full(len), cut(found, 0, len)),
        Ranged::Part(first, last) => (
            Answer::Part(first, last, len),
            cut(found, first, last - first + 1),
        ),
        Ranged::Unsatisfiable => (Answer::Unsatisfiable(len), Body::Nothing),
    }
}

/// The response to GET for bytes of the file.
fn paged(alloc: Global, range: Option<&[u8]>, found: Found) -> Result<Sending, Memory>
    ensures { (committed bytes : List ℕ) → AreFound committed bytes found
        → IfOk result (λ sending. IsWhole committed (get_response (option_copied range.entry) (Some (Pages bytes))) sending) }
{
    let (answer, body) = ranged(found, asked_range(range, length_of(found)));
    with_body(alloc, answer, body)
}

/// The response to GET (RFC 9110, section 9.3.1).
fn get(
    alloc: Global,
    index: &Index,
    range: Option<&[u8]>,
    found: Option<Found>,
) -> Result<Sending, Memory>
    ensures { (committed : List ℕ) (content : Option Content)
        → IsFound committed (listing index.now.chain.chain.length_of index.now.entries) content found
        → IfOk result (λ sending. IsWhole committed (get_response (option_copied range.entry) content) sending) }
{
    match found {
        None => plain(alloc, Answer::NotFound),
        Some(found) => match found {
            Found::Listing => listed(alloc, index, true),
            Found::File(place, len) => paged(alloc, range, Found::File(place, len)),
            Found::Pages(serial, place, len) => paged(
                alloc,
                range,
                Found::Pages(serial, place, len),
            ),
        },
    }
}

/// The response to HEAD (RFC 9110, section 9.3.2).
fn head(alloc: Global, index: &Index, found: Option<Found>) -> Result<Sending, Memory>
    ensures { (committed : List ℕ) (content : Option Content)
        → IsFound committed (listing index.now.chain.chain.length_of index.now.entries) content found
        → IfOk result (λ sending. IsWhole committed (without_content (get_response None content).answer) sending) }
{
    match found {
        None => plain(alloc, Answer::NotFound),
        Some(Found::Listing) => listed(alloc, index, false),
        Some(found) => plain(alloc, Answer::Full(length_of(found))),
    }
}

/// The response to a request for what was found.
pub fn respond(
    alloc: Global,
    index: &Index,
    verb: Verb,
    range: Option<&[u8]>,
    found: Option<Found>,
) -> Result<Sending, Memory>
    ensures { (committed : List ℕ) (content : Option Content)
        → IsFound committed (listing index.now.chain.chain.length_of index.now.entries) content found
        → IfOk result (λ sending. IsWhole committed (response_by verb (option_copied range.entry) content) sending) }
{
    match verb {
        Verb::Get => get(alloc, index, range, found),
        Verb::Head => head(alloc, index, found),
        Verb::Other => plain(alloc, Answer::NotAllowed),
    }
}
