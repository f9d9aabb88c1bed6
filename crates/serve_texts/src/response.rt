//! Responses of constant fields and their content.
ghost use Rattle.std.specs.Prelude.{◌≡◌, ◌≤◌, ◌<◌, ◌+◌, ◌++◌, ◌∷◌, OnOk, OnErr, length, vec_len, vec_capacity};
ghost use Rattle.ogg_http.specs.Answer.{content_length};
ghost use Rattle.serve_texts.specs.Response.{response, shown};

use crate::Memory;
use crate::pieces::append_pieces;
use text_line::Line;

fn content_length(len: u64) -> Line
    ensures { result.text ≡ content_length len }
{
    let mut line = Line::new();
    line.put_text(b"\r");
    line.put_number(len);
    line.put_text(b"Content-Length: ");
    line
}

fn shown(content: &[u8], head: bool) -> &[u8]
    ensures { result.now ≡ shown head content.now }
{
    if head { b"" } else { content }
}

/// Appends a response: its first lines, the length of the content, and the content, which HEAD doesn't get. After
/// `Memory` the vector is unchanged.
pub fn append_response(
    out: &mut Vec<u8>,
    front: &[u8],
    content: &[u8],
    head: bool,
) -> Result<(), Memory>
    ensures ok { OnOk result (out.new.items ≡ out.old.items ++ response front.now content.now head) }
    ensures err { OnErr result (out.new.items ≡ out.old.items) }
    ensures full { OnErr result (vec_capacity out.old < vec_len out.old + length (response front.now content.now head)) }
{
    let len = out.len();
    let line = content_length(content.len() as u64);
    let pieces: [&[u8]; 4] = [front, line.as_slice(), b"\r\n", shown(content, head)];
    match append_pieces(out, &pieces) {
        Ok(()) => Ok(()),
        Err(Memory) => {
            out.truncate(len);
            Err(Memory)
        }
    }
}
