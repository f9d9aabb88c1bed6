//! The message fields of a fisbone.
ghost use Rattle.std.specs.Prelude.{◌≡◌, option_copied, option_map};
ghost use Rattle.std.specs.Str.Lines.{strip_carriage_return};
ghost use Rattle.skeleton3.specs.Fields.{first_colon, trimmed, field_of, is_content_type, media_in, shown};

/// The piece without the CR at its end, if it has one.
pub(crate) fn without_return(piece: &[u8]) -> &[u8]
    ensures { result.now ≡ strip_carriage_return piece.now }
{
    match piece {
        [line @ .., b'\r'] => line,
        _ => piece,
    }
}

/// The text without the spaces and tabs at its ends.
fn trimmed(text: &[u8]) -> &[u8]
    ensures { result.now ≡ trimmed text.now }
{
    let mut rest = text;
    while let [b' ' | b'\t', behind @ ..] = rest {
        rest = behind;
    }
    while let [before @ .., b' ' | b'\t'] = rest {
        rest = before;
    }
    rest
}

fn first_colon(line: &[u8]) -> Option<usize>
    ensures { result ≡ first_colon line.now }
{
    line.iter().position(|b| *b == b':')
}

/// The name before the line's first colon, and the value after it.
pub(crate) fn field_of(line: &[u8]) -> Option<(&[u8], &[u8])>
    ensures { option_map shown result ≡ field_of line.now }
{
    let colon = first_colon(line)?;
    Some((&line[..colon], trimmed(&line[colon + 1..])))
}

/// Whether a message field of this name has the media type: the name is `Content-Type`, in any case. No memory is
/// taken.
pub fn is_content_type(name: &[u8]) -> bool
    ensures { result ≡ is_content_type name.now }
{
    name.eq_ignore_ascii_case(b"content-type")
}

/// The value of the first field that is named `Content-Type`, if each line has a colon.
pub fn media_in(message: &[u8]) -> Option<&[u8]>
    ensures { option_copied result ≡ media_in message.now }
{
    let mut media = None;
    for piece in message.split(|b| *b == b'\n') {
        let line = without_return(piece);
        if line.is_empty() {
            continue;
        }
        let (name, value) = field_of(line)?;
        if media.is_none() && is_content_type(name) {
            media = Some(value);
        }
    }
    media
}
