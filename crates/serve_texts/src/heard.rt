//! What a line of the log has of a request's head.
ghost use Rattle.std.specs.Prelude.{◌≡◌, ◌≤◌, ◌<◌, ◌+◌, drop, length};
ghost use Rattle.serve_texts.specs.Heard.{after_line, is_field, is_request_line, line_end, request_line, trimmed, value_among, value_of};

/// The greatest number of fields that are looked at.
const MOST_FIELDS: u32 = 64;

fn line_end(text: &[u8]) -> Option<usize>
    ensures { result ≡ line_end text.now }
{
    text.iter().position(|b| *b == b'\n')
}

fn trimmed(text: &[u8]) -> &[u8]
    ensures { result.now ≡ trimmed text.now }
{
    text.trim_ascii_start().trim_ascii_end()
}

fn is_request_line(line: &[u8]) -> bool
    ensures { result ≡ is_request_line line.now }
{
    line.len() >= 9 && &line[line.len() - 9..][..6] == b" HTTP/".as_slice()
}

/// The request line, or nothing if the head doesn't begin with one.
pub fn request_line(head: &[u8]) -> &[u8]
    ensures { result.now ≡ request_line head.now }
{
    let Some(end) = line_end(head) else {
        return b"";
    };
    let line = trimmed(&head[..end]);
    if is_request_line(line) { line } else { b"" }
}

fn is_field(name: &[u8], line: &[u8]) -> bool
    ensures { result ≡ is_field name.now line.now }
{
    line.len() >= name.len() && line[..name.len()].eq_ignore_ascii_case(name)
}

fn rest_from(at: usize, text: &[u8]) -> &[u8]
    requires { at ≤ length text.now }
    ensures { result.now ≡ drop at text.now }
{
    &text[at..]
}

fn rest_after(end: usize, text: &[u8]) -> &[u8]
    requires { end < length text.now }
    ensures { result.now ≡ drop (end + 1) text.now }
{
    &text[end + 1..]
}

fn value_among<'a>(lines: u32, name: &[u8], text: &'a [u8]) -> &'a [u8]
    ensures { result.now ≡ value_among lines name.now text.now }
{
    let mut left = lines;
    let mut rest = text;
    while left > 0 {
        let Some(end) = line_end(rest) else {
            return b"";
        };
        let line = trimmed(&rest[..end]);
        if line.is_empty() {
            return b"";
        }
        if is_field(name, line) {
            return trimmed(rest_from(name.len(), line));
        }
        rest = rest_after(end, rest);
        left -= 1;
    }
    b""
}

fn after_line(head: &[u8]) -> &[u8]
    ensures { result.now ≡ after_line (line_end head.now) head.now }
{
    match line_end(head) {
        Some(end) => rest_after(end, head),
        None => b"",
    }
}

/// The value of the first field whose name, with its colon, is this one, or nothing.
pub fn value_of<'a>(name: &[u8], head: &'a [u8]) -> &'a [u8]
    ensures { result.now ≡ value_of name.now head.now }
{
    value_among(MOST_FIELDS, name, after_line(head))
}
