//! Which texts name an origin.
ghost use Rattle.std.specs.Prelude.{◌≡◌};
ghost use Rattle.std.specs.List.{list_all};
ghost use Rattle.serve_origins.specs.Origins.{is_origin, is_place, is_place_byte, is_site};

fn is_place_byte(byte: u8) -> bool
    ensures { result ≡ is_place_byte byte }
{
    byte.is_ascii_lowercase()
        || byte.is_ascii_digit()
        || byte == b'-'
        || byte == b'.'
        || byte == b':'
        || byte == b'['
        || byte == b']'
        || byte == b'_'
}

fn has_place_bytes(text: &[u8]) -> bool
    ensures { result ≡ list_all is_place_byte text.now }
{
    text.iter().all(|b| is_place_byte(*b))
}

/// Whether this may be a host and a port.
fn is_place(text: &[u8]) -> bool
    ensures { result ≡ is_place text.now }
{
    !text.is_empty() && has_place_bytes(text)
}

fn is_site(text: &[u8]) -> bool
    ensures { result ≡ is_site text.now }
{
    if text.starts_with(b"http://") {
        is_place(&text[7..])
    } else if text.starts_with(b"https://") {
        is_place(&text[8..])
    } else {
        false
    }
}

/// Whether this text names an origin as browsers do, such as `https://radio.example:8443`, or all, `*`. There is no path in
/// it, no `/` at its end, and no upper case.
pub fn is_origin(text: &[u8]) -> bool
    ensures { result ≡ is_origin text.now }
{
    text == b"*".as_slice() || is_site(text)
}
