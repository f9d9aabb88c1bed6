//! What a line of the log has of a response.
ghost use Rattle.std.specs.Prelude.{◌≡◌};
ghost use Rattle.serve_texts.specs.Reply.{after_head, counted, fresh, is_interim, next, next_ending, next_status, reply_after};

/// How much of a response was sent.
#[derive(Clone, Copy, Debug, PartialEq, Eq)]
pub struct Reply {
    // how many bytes of its head came, counted up to 12
    pub(crate) seen: u8,
    pub(crate) status: u16,
    // how many bytes of CR LF CR LF came last
    pub(crate) ending: u8,
    pub(crate) in_content: bool,
    // in bytes
    pub(crate) content: u64,
}

/// Nothing was sent.
pub fn fresh() -> Reply
    ensures { result ≡ fresh }
{
    Reply {
        seen: 0,
        status: 0,
        ending: 0,
        in_content: false,
        content: 0,
    }
}

fn next_ending(ending: u8, byte: u8) -> u8
    ensures { result ≡ next_ending ending byte }
{
    if byte == 13 {
        if ending == 2 { 3 } else { 1 }
    } else if byte == 10 {
        if ending == 1 {
            2
        } else if ending == 3 {
            4
        } else {
            0
        }
    } else {
        0
    }
}

fn next_status(seen: u8, status: u16, byte: u8) -> u16
    ensures { result ≡ next_status seen status byte }
{
    if 9 <= seen && seen < 12 && byte.is_ascii_digit() {
        status % 100 * 10 + u16::from(byte - b'0')
    } else {
        status
    }
}

fn after_head(status: u16) -> Reply
    ensures { result ≡ after_head status }
{
    if status / 100 == 1 {
        fresh()
    } else {
        Reply {
            seen: 12,
            status,
            ending: 4,
            in_content: true,
            content: 0,
        }
    }
}

fn next(reply: Reply, byte: u8) -> Reply
    ensures { result ≡ next reply byte }
{
    let ending = next_ending(reply.ending, byte);
    let status = next_status(reply.seen, reply.status, byte);
    if ending == 4 {
        after_head(status)
    } else {
        Reply {
            seen: reply.seen.saturating_add(1).min(12),
            status,
            ending,
            in_content: false,
            content: 0,
        }
    }
}

fn counted(reply: Reply, more: usize) -> Reply
    ensures { result ≡ counted reply more }
{
    Reply {
        seen: reply.seen,
        status: reply.status,
        ending: reply.ending,
        in_content: reply.in_content,
        content: reply.content.saturating_add(more as u64),
    }
}

/// What was sent after these bytes too.
pub fn reply_after(reply: Reply, bytes: &[u8]) -> Reply
    ensures { result ≡ reply_after reply bytes.now }
{
    let mut reply = reply;
    let mut rest = bytes;
    while let Some((byte, others)) = rest.split_first() {
        if reply.in_content {
            return counted(reply, rest.len());
        }
        reply = next(reply, *byte);
        rest = others;
    }
    reply
}
