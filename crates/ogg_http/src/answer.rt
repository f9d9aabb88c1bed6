//! The heads of answers.
ghost use Rattle.std.specs.Prelude.{◌≡◌, ◌+◌, ◌≤◌, ◌<◌, [], ◌++◌, length, vec_len, vec_capacity, codes, OnOk, OnErr};
ghost use Rattle.std.specs.Fmt.{decimal};
ghost use Rattle.arrayvec.specs.ArrayVec.{array_vec_len};
ghost use Rattle.ogg_http.specs.Answer.{AnswerFits, answer_head, content_length, content_range, line, head_room};

use arrayvec::ArrayVec;
use itoa::Buffer;
pub use std::alloc::AllocError as Memory;

/// An answer, as far as its head says it. Each length is in bytes.
#[derive(Clone, Copy, Debug, PartialEq, Eq)]
pub enum Answer {
    /// All of a resource of this length.
    Full(u64),
    /// The bytes from the first number to the second, both in it, of a resource of this length.
    Part(u64, u64, u64),
    /// None of the bytes that were asked for is there. The resource has this length.
    Unsatisfiable(u64),
    /// A listing of this length.
    Listing(u64),
    BadRequest,
    NotFound,
    NotAllowed,
}

/// The room for a head, in bytes. The longest head, of a part with numbers of 20 digits, has 227.
const HEAD_ROOM: usize = 256;

type Text = ArrayVec<u8, HEAD_ROOM>;

fn push(text: &mut Text, more: &[u8])
    requires { array_vec_len text.old + length more.now ≤ head_room }
    ensures items { text.new.items ≡ text.old.items ++ more.now }
    ensures len { array_vec_len text.new ≡ array_vec_len text.old + length more.now }
{
    text.try_extend_from_slice(more).unwrap();
}

fn push_number(text: &mut Text, number: u64)
    requires { array_vec_len text.old + 20 ≤ head_room }
    ensures items { text.new.items ≡ text.old.items ++ decimal number }
    ensures len { array_vec_len text.new ≤ array_vec_len text.old + 20 }
{
    let mut buffer = Buffer::new();
    push(text, buffer.format(number).as_bytes());
}

fn push_line(text: &mut Text, more: &[u8])
    requires { array_vec_len text.old + length more.now + 2 ≤ head_room }
    ensures items { text.new.items ≡ text.old.items ++ line more.now }
    ensures len { array_vec_len text.new ≡ array_vec_len text.old + length more.now + 2 }
{
    push(text, more);
    push(text, b"\r\n");
}

fn push_content_length(text: &mut Text, len: u64)
    requires { array_vec_len text.old + 38 ≤ head_room }
    ensures items { text.new.items ≡ text.old.items ++ content_length len }
    ensures len { array_vec_len text.new ≤ array_vec_len text.old + 38 }
{
    push(text, b"Content-Length: ");
    push_number(text, len);
    push(text, b"\r\n");
}

fn push_content_range(text: &mut Text, first: u64, last: u64, len: u64)
    requires { array_vec_len text.old + 85 ≤ head_room }
    ensures items { text.new.items ≡ text.old.items ++ content_range first last len }
    ensures len { array_vec_len text.new ≤ array_vec_len text.old + 85 }
{
    push(text, b"Content-Range: bytes ");
    push_number(text, first);
    push(text, b"-");
    push_number(text, last);
    push(text, b"/");
    push_number(text, len);
    push(text, b"\r\n");
}

fn push_no_range(text: &mut Text, len: u64)
    requires { array_vec_len text.old + 45 ≤ head_room }
    ensures items { text.new.items
        ≡ text.old.items ++ line (codes "Content-Range: bytes */" ++ decimal len) }
    ensures len { array_vec_len text.new ≤ array_vec_len text.old + 45 }
{
    push(text, b"Content-Range: bytes */");
    push_number(text, len);
    push(text, b"\r\n");
}

fn push_end(text: &mut Text)
    requires { array_vec_len text.old + 21 ≤ head_room }
    ensures { text.new.items ≡ text.old.items ++ line (codes "Connection: close") ++ line [] }
{
    push_line(text, b"Connection: close");
    push_line(text, b"");
}

fn full(len: u64) -> Text
    ensures { result.items ≡ answer_head (Answer.Full len) }
{
    let mut text = Text::new();
    push_line(&mut text, b"HTTP/1.1 200 OK");
    push_line(&mut text, b"Content-Type: application/ogg");
    push_content_length(&mut text, len);
    push_line(&mut text, b"Accept-Ranges: bytes");
    push_end(&mut text);
    text
}

fn part(first: u64, last: u64, len: u64) -> Text
    requires { AnswerFits (Answer.Part first last len) }
    ensures { result.items ≡ answer_head (Answer.Part first last len) }
{
    let mut text = Text::new();
    push_line(&mut text, b"HTTP/1.1 206 Partial Content");
    push_line(&mut text, b"Content-Type: application/ogg");
    push_content_length(&mut text, last - first + 1);
    push_content_range(&mut text, first, last, len);
    push_line(&mut text, b"Accept-Ranges: bytes");
    push_end(&mut text);
    text
}

fn unsatisfiable(len: u64) -> Text
    ensures { result.items ≡ answer_head (Answer.Unsatisfiable len) }
{
    let mut text = Text::new();
    push_line(&mut text, b"HTTP/1.1 416 Range Not Satisfiable");
    push_line(&mut text, b"Content-Length: 0");
    push_no_range(&mut text, len);
    push_line(&mut text, b"Accept-Ranges: bytes");
    push_end(&mut text);
    text
}

fn listing(len: u64) -> Text
    ensures { result.items ≡ answer_head (Answer.Listing len) }
{
    let mut text = Text::new();
    push_line(&mut text, b"HTTP/1.1 200 OK");
    push_line(&mut text, b"Content-Type: text/plain");
    push_content_length(&mut text, len);
    push_end(&mut text);
    text
}

fn bad_request() -> Text
    ensures { result.items ≡ answer_head Answer.BadRequest }
{
    let mut text = Text::new();
    push_line(&mut text, b"HTTP/1.1 400 Bad Request");
    push_line(&mut text, b"Content-Length: 0");
    push_end(&mut text);
    text
}

fn not_found() -> Text
    ensures { result.items ≡ answer_head Answer.NotFound }
{
    let mut text = Text::new();
    push_line(&mut text, b"HTTP/1.1 404 Not Found");
    push_line(&mut text, b"Content-Length: 0");
    push_end(&mut text);
    text
}

fn not_allowed() -> Text
    ensures { result.items ≡ answer_head Answer.NotAllowed }
{
    let mut text = Text::new();
    push_line(&mut text, b"HTTP/1.1 405 Method Not Allowed");
    push_line(&mut text, b"Content-Length: 0");
    push_line(&mut text, b"Allow: GET, HEAD");
    push_end(&mut text);
    text
}

fn answer_head(answer: Answer) -> Text
    requires { AnswerFits answer }
    ensures { result.items ≡ answer_head answer }
{
    match answer {
        Answer::Full(len) => full(len),
        Answer::Part(first, last, len) => part(first, last, len),
        Answer::Unsatisfiable(len) => unsatisfiable(len),
        Answer::Listing(len) => listing(len),
        Answer::BadRequest => bad_request(),
        Answer::NotFound => not_found(),
        Answer::NotAllowed => not_allowed(),
    }
}

/// Appends the head of the answer. After `Memory` the vector is as before.
pub fn response_head(answer: &Answer, out: &mut Vec<u8>) -> Result<(), Memory>
    requires { AnswerFits answer.now }
    ensures ok { OnOk result (out.new.items ≡ out.old.items ++ answer_head answer.now) }
    ensures err { OnErr result (out.new.items ≡ out.old.items) }
    ensures full { OnErr result
        (vec_capacity out.old < vec_len out.old + length (answer_head answer.now)) }
{
    // The head is made on the stack, so that the one growth of the vector appends all of it or
    // nothing.
    out.extend_from_slice(answer_head(*answer).as_slice())
}
