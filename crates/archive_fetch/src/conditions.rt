//! Whether a client has a file as it stands (RFC 9110, section 13.1.2).
ghost use Rattle.std.specs.Prelude.{◌≡◌, ◌++◌, ◌+◌, ◌≤◌, ℕ, List, codes, length, map, option_copied, true, false};
ghost use Rattle.std.specs.Fmt.{decimal};
ghost use Rattle.memchr.specs.Find.{OccursAt};
ghost use Rattle.arrayvec.specs.ArrayVec.{array_vec_len};
ghost use Rattle.httparse.specs.Grammar.{RequestHead, ReadsRequest};
ghost use Rattle.httparse.specs.Spans.{name_and_value};
ghost use Rattle.ogg_http.specs.Fields.{first_of_name};
ghost use Rattle.ogg_http.specs.Head.{head_bytes, most_fields};
ghost use Rattle.archive_fetch.specs.Replies.{IsHad, tag_of};

use crate::replies::FileFacts;
use arrayvec::ArrayVec;
use httparse::Status;
use httparse::spans::{EMPTY_HEADER_SPAN, parse_request};
use itoa::Buffer;
use memchr::memmem;
use ogg_http::first_of_name;

/// The greatest number of bytes of a head; the empty lines before it count.
const MOST_BYTES: usize = 8192;

/// The greatest number of its fields.
const MOST_FIELDS: usize = 64;

/// The greatest length of an entity tag: two numbers of 20 digits, and what stands round them.
const LONGEST_TAG: usize = 64;

/// An entity tag.
type Tag = ArrayVec<u8, LONGEST_TAG>;

fn push(text: &mut Tag, more: &[u8])
    requires { array_vec_len text.old + length more.now ≤ 64 }
    ensures items { text.new.items ≡ text.old.items ++ more.now }
    ensures len { array_vec_len text.new ≡ array_vec_len text.old + length more.now }
{
    text.try_extend_from_slice(more).unwrap();
}

fn push_number(text: &mut Tag, number: u64)
    requires { array_vec_len text.old + 20 ≤ 64 }
    ensures items { text.new.items ≡ text.old.items ++ decimal number }
    ensures len { array_vec_len text.new ≤ array_vec_len text.old + 20 }
{
    let mut buffer = Buffer::new();
    push(text, buffer.format(number).as_bytes());
}

/// The entity tag of a file.
pub(crate) fn tag_of(file: FileFacts) -> Tag
    ensures { result.items ≡ tag_of file }
{
    let mut tag = Tag::new();
    push(&mut tag, b"\"");
    push_number(&mut tag, file.number);
    push(&mut tag, b"-");
    push_number(&mut tag, file.bytes);
    push(&mut tag, b"\"");
    tag
}

/// The value of `If-None-Match`, if the head at the front of these bytes has it.
pub fn condition_in<'a>(front: &'a [u8]) -> Option<&'a [u8]>
    ensures { (head : RequestHead) (rest : List ℕ) → ReadsRequest (head_bytes front.now) head rest → length head.fields ≤ most_fields
        → option_copied result ≡ first_of_name (codes "if-none-match") (map name_and_value head.fields) }
{
    let front = &front[..front.len().min(MOST_BYTES)];
    let mut spans = [EMPTY_HEADER_SPAN; MOST_FIELDS];
    match parse_request(front, &mut spans) {
        Ok(Status::Complete(head)) => first_of_name(
            front,
            head.len,
            &spans[..head.headers],
            b"if-none-match",
        ),
        Ok(Status::Partial) => None,
        Err(_) => None,
    }
}

/// Whether the file's tag stands in this value.
fn has_tag(value: &[u8], file: FileFacts) -> bool
    ensures yes { result ≡ true → (at : ℕ) × OccursAt value.now (tag_of file) at }
    ensures no { result ≡ false → (at : ℕ) → ¬ (OccursAt value.now (tag_of file) at) }
{
    let tag = tag_of(file);
    memmem::find(value, tag.as_slice()).is_some()
}

/// Whether a client that sends this value of `If-None-Match` has the file as it stands.
pub fn is_had(value: &[u8], file: FileFacts) -> bool
    ensures yes { result ≡ true → IsHad value.now file }
    ensures no { result ≡ false → ¬ (IsHad value.now file) }
{
    value == b"*".as_slice() || has_tag(value, file)
}
