//! Packets as text.
ghost use Rattle.std.specs.Prelude.{◌≡◌, ◌++◌, ◌∷◌, [], ◌<◌, ℕ, List, OnOk, Some, decimal};
ghost use Rattle.std.specs.Str.{is_utf8};
ghost use Rattle.line_packets.specs.Texts.{IsWhen, content_of, data_field, escape, escaped, file_text, hex_digit, json_text, numbers_text, text_field};

use crate::Memory;
use archive_clock::put_time;
use base64::engine::general_purpose::STANDARD;
use text_line::Line;

/// What is told of a packet beside its bytes.
#[derive(Clone, Copy, Debug, PartialEq, Eq)]
pub struct Told {
    /// When it was on the disk, in milliseconds since 1970, if that is known.
    pub time: Option<u64>,
    /// The number of its file, if that has one.
    pub file: Option<u64>,
    /// Its link's number in the file.
    pub link: u64,
    /// Its stream's serial.
    pub serial: u64,
    /// The position of the page in which it ends.
    pub position: u64,
}

/// Appends a packet as a line. After `Memory` a part of it may stand there.
pub fn put_plain(out: &mut Vec<u8>, packet: &[u8]) -> Result<(), Memory>
    ensures { OnOk result (out.new.items ≡ out.old.items ++ (packet.now ++ 10 ∷ [])) }
{
    out.extend_from_slice(packet)?;
    out.extend_from_slice(b"\n")
}

fn hex_digit(number: u8) -> u8
    requires { number < 16 }
    ensures { result ≡ hex_digit number }
{
    if number < 10 {
        b'0' + number
    } else {
        b'W' + number
    }
}

/// Appends a byte of a text as JSON has it in a string (RFC 8259, section 7).
fn put_byte(out: &mut Vec<u8>, byte: u8) -> Result<(), Memory>
    ensures { OnOk result (out.new.items ≡ out.old.items ++ escape byte) }
{
    if byte == b'"' {
        out.extend_from_slice(b"\\\"")
    } else if byte == b'\\' {
        out.extend_from_slice(b"\\\\")
    } else if byte < 32 {
        let text = [
            b'\\',
            b'u',
            b'0',
            b'0',
            hex_digit(byte / 16),
            hex_digit(byte % 16),
        ];
        out.extend_from_slice(&text)
    } else {
        out.push(byte)?;
        Ok(())
    }
}

/// Appends a text as JSON has it in a string.
fn put_escaped(out: &mut Vec<u8>, text: &[u8]) -> Result<(), Memory>
    ensures { OnOk result (out.new.items ≡ out.old.items ++ escaped text.now) }
{
    for byte in text {
        put_byte(out, *byte)?;
    }
    Ok(())
}

/// Appends a number with what stands in front of it.
fn put_number(out: &mut Vec<u8>, front: &[u8], number: u64) -> Result<(), Memory>
    ensures { OnOk result (out.new.items ≡ out.old.items ++ (front.now ++ decimal number)) }
{
    out.extend_from_slice(front)?;
    let number = number.to_string(*out.allocator())?;
    out.extend_from_slice(number.as_bytes())
}

/// Appends the time, if there is one, with what stands around it.
fn put_when(out: &mut Vec<u8>, time: Option<u64>) -> Result<(), Memory>
    ensures { OnOk result ((told : List ℕ) × IsWhen time told × (out.new.items ≡ out.old.items ++ told)) }
{
    match time {
        Some(time) => put_this_time(out, time),
        None => Ok(()),
    }
}

fn put_this_time(out: &mut Vec<u8>, time: u64) -> Result<(), Memory>
    ensures { OnOk result ((told : List ℕ) × IsWhen (Some time) told × (out.new.items ≡ out.old.items ++ told)) }
{
    let mut line = Line::new();
    line.put_text(b"\",");
    put_time(&mut line, time);
    line.put_text(b"\"time\":\"");
    match line.as_slice() {
        [text @ .., _] => out.extend_from_slice(text),
        [] => Ok(()),
    }
}

/// Appends the number of the file, if there is one, with what stands around it.
fn put_file(out: &mut Vec<u8>, file: Option<u64>) -> Result<(), Memory>
    ensures { OnOk result (out.new.items ≡ out.old.items ++ file_text file) }
{
    match file {
        Some(file) => {
            put_number(out, b"\"file\":", file)?;
            out.extend_from_slice(b",")
        }
        None => Ok(()),
    }
}

/// Whether the bytes are UTF-8.
fn is_text(packet: &[u8]) -> bool
    ensures { result ≡ is_utf8 packet.now }
{
    match str::from_utf8(packet) {
        Ok(_) => true,
        Err(_) => false,
    }
}

/// Appends a text, with what stands around it.
fn put_text(out: &mut Vec<u8>, packet: &[u8]) -> Result<(), Memory>
    ensures { OnOk result (out.new.items ≡ out.old.items ++ text_field packet.now) }
{
    out.extend_from_slice(b",\"text\":\"")?;
    put_escaped(out, packet)?;
    out.extend_from_slice(b"\"}\n")
}

/// Appends bytes in base64, with what stands around them.
fn put_data(out: &mut Vec<u8>, packet: &[u8]) -> Result<(), Memory>
    ensures { OnOk result (out.new.items ≡ out.old.items ++ data_field packet.now) }
{
    out.extend_from_slice(b",\"data\":\"")?;
    let text = STANDARD.encode(*out.allocator(), packet)?;
    out.extend_from_slice(text.as_bytes())?;
    out.extend_from_slice(b"\"}\n")
}

/// Appends a packet's bytes: as text, or in base64 if they aren't UTF-8.
fn put_content(out: &mut Vec<u8>, packet: &[u8]) -> Result<(), Memory>
    ensures { OnOk result (out.new.items ≡ out.old.items ++ content_of packet.now) }
{
    if is_text(packet) {
        put_text(out, packet)
    } else {
        put_data(out, packet)
    }
}

/// Appends the numbers of a packet.
fn put_numbers(out: &mut Vec<u8>, told: Told, bytes: u64) -> Result<(), Memory>
    ensures { OnOk result (out.new.items ≡ out.old.items ++ numbers_text told bytes) }
{
    put_number(out, b"\"link\":", told.link)?;
    put_number(out, b",\"serial\":", told.serial)?;
    put_number(out, b",\"position\":", told.position)?;
    put_number(out, b",\"bytes\":", bytes)
}

/// Appends a packet as an object of JSON in a line. After `Memory` a part of it may stand there.
pub fn put_json(out: &mut Vec<u8>, told: Told, packet: &[u8]) -> Result<(), Memory>
    ensures { OnOk result ((when : List ℕ) × IsWhen told.time when
        × (out.new.items ≡ out.old.items ++ json_text when told packet.now)) }
{
    out.extend_from_slice(b"{")?;
    put_when(out, told.time)?;
    put_file(out, told.file)?;
    put_numbers(out, told, packet.len() as u64)?;
    put_content(out, packet)
}
