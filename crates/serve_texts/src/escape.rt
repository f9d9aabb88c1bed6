//! Parts of a line of the log that others wrote.
ghost use Rattle.std.specs.Prelude.{◌≡◌, ◌≤◌, ◌<◌, ◌+◌, ◌++◌, ℕ, List, OnOk, OnErr, length, vec_len, vec_capacity};
ghost use Rattle.serve_texts.specs.Escape.{escape, escaped, hex_digit, hex_text, shown_text};

use crate::Memory;

fn hex_digit(number: u8) -> u8
    requires { number < 16 }
    ensures { result ≡ hex_digit number }
{
    if number < 10 {
        b'0' + number
    } else {
        b'7' + number
    }
}

fn append_hex(out: &mut Vec<u8>, byte: u8) -> Result<(), Memory>
    ensures ok { OnOk result (out.new.items ≡ out.old.items ++ hex_text byte) }
    ensures err { OnErr result (out.new.items ≡ out.old.items) }
    ensures full { OnErr result (vec_capacity out.old < vec_len out.old + 4) }
    ensures capacity { vec_capacity out.old ≤ vec_capacity out.new }
{
    let text = [b'\\', b'x', hex_digit(byte / 16), hex_digit(byte % 16)];
    out.extend_from_slice(&text)
}

fn append_byte(out: &mut Vec<u8>, byte: u8) -> Result<(), Memory>
    ensures ok { OnOk result (out.new.items ≡ out.old.items ++ escape byte) }
    ensures err { OnErr result (out.new.items ≡ out.old.items) }
    ensures full { OnErr result (vec_capacity out.old < vec_len out.old + length (escape byte)) }
    ensures capacity { vec_capacity out.old ≤ vec_capacity out.new }
{
    if byte == b'"' {
        out.extend_from_slice(b"\\\"")
    } else if byte == b'\\' {
        out.extend_from_slice(b"\\\\")
    } else if byte < 32 || byte > 126 {
        append_hex(out, byte)
    } else {
        out.extend_from_slice(&[byte])
    }
}

/// Appends the text, escaped. After `Memory` a part of it stands in the vector.
pub fn append_escaped(out: &mut Vec<u8>, text: &[u8]) -> Result<(), Memory>
    ensures ok { OnOk result (out.new.items ≡ out.old.items ++ escaped text.now) }
    ensures kept { (added : List ℕ) × (out.new.items ≡ out.old.items ++ added) }
    ensures full { OnErr result (vec_capacity out.old < vec_len out.old + length (escaped text.now)) }
    ensures capacity { vec_capacity out.old ≤ vec_capacity out.new }
{
    for byte in text {
        match append_byte(out, *byte) {
            Ok(()) => {}
            Err(memory) => return Err(memory),
        }
    }
    Ok(())
}

/// Appends the text, escaped, or a hyphen if it is empty. After `Memory` a part of it stands in the vector.
pub fn append_shown(out: &mut Vec<u8>, text: &[u8]) -> Result<(), Memory>
    ensures ok { OnOk result (out.new.items ≡ out.old.items ++ shown_text text.now) }
    ensures kept { (added : List ℕ) × (out.new.items ≡ out.old.items ++ added) }
    ensures full { OnErr result (vec_capacity out.old < vec_len out.old + length (shown_text text.now)) }
    ensures capacity { vec_capacity out.old ≤ vec_capacity out.new }
{
    if text.is_empty() {
        append_escaped(out, b"-")
    } else {
        append_escaped(out, text)
    }
}
