//! Replies to commands, as lines of text.
ghost use Rattle.std.specs.Prelude.{◌≡◌, ◌≤◌, ◌+◌, ◌++◌, ◌∷◌, [], OnOk, OnErr, length, drop, decimal};
ghost use Rattle.std.specs.Io.KnownBytes.{Appends};
ghost use Rattle.ogg_page.specs.Output.{WritesPart};
ghost use Rattle.feed_replies.specs.Reply.{reply_line};

use itoa::write_digits;
use ogg_command::Refusal;
use ogg_page::{WriteFault, write_whole};
use std::io::Write;

/// The answer to a command.
#[derive(Clone, Copy, Debug, PartialEq, Eq)]
pub enum Reply {
    /// The command waits until its group is kept. This many commands are accepted so far.
    Held(u64),
    /// The command was kept, and with it all that waited.
    Kept(Kept),
    /// The command was refused.
    Refused(Refusal),
}

/// The result of keeping a command.
#[derive(Clone, Copy, Debug, PartialEq, Eq)]
pub struct Kept {
    /// How many commands were kept so far.
    pub count: u64,
    /// How long the file is.
    pub end: u64,
}

/// How many bytes a line has at most: those of a word, two numbers of 20 digits and two separators.
const LINE: usize = 48;

/// Writes the reply's line in one call of `write_whole`. No memory is taken. After a fault not all of
/// the line was written, but a part from its front.
#[inline(always)]
pub fn write_reply<W: Write>(reply: &Reply, writer: &mut W) -> Result<(), WriteFault>
    ensures ok { OnOk result (Appends (W.contents writer.old) (W.contents writer.new) (reply_line reply.now)) }
    ensures err { OnErr result (WritesPart (W.contents writer.old) (W.contents writer.new) (reply_line reply.now)) }
{
    let mut line = [0u8; LINE];
    let start = put_line(reply, &mut line);
    write_whole(writer, &line[start..])
}

/// Writes the reply's line so that it ends where the buffer ends, and returns where it starts.
#[inline(always)]
fn put_line(reply: &Reply, line: &mut [u8; LINE]) -> usize
    ensures bound { result ≤ 48 }
    ensures line { drop result line.new ≡ reply_line reply.now }
{
    let end = put_text(*b"\n", line, LINE);
    match *reply {
        Reply::Kept(kept) => {
            let end = put_number(kept.end, line, end);
            let end = put_text(*b" ", line, end);
            let end = put_number(kept.count, line, end);
            put_text(*b"kept ", line, end)
        }
        Reply::Refused(refusal) => {
            let end = put_name(refusal.name().as_bytes(), line, end);
            let end = put_text(*b" ", line, end);
            let end = put_number(u64::from(refusal.code()), line, end);
            put_text(*b"refused ", line, end)
        }
        Reply::Held(count) => {
            let end = put_number(count, line, end);
            put_text(*b"held ", line, end)
        }
    }
}

/// Writes the number's digits so that they end at `end`, and returns where they start.
fn put_number(number: u64, line: &mut [u8; LINE], end: usize) -> usize
    requires within { end ≤ 48 }
    requires room { 20 ≤ end }
    ensures start { result + length (decimal number) ≡ end }
    ensures short { end ≤ result + 20 }
    ensures text { drop result line.new ≡ decimal number ++ drop end line.old }
{
    write_digits(number, line, end)
}

/// Writes the text so that it ends at `end`, and returns where it starts. The compiler knows the length of an array, and
/// that it lies apart from the line, so a move or two write it.
fn put_text<const N: usize>(text: [u8; N], line: &mut [u8; LINE], end: usize) -> usize
    requires within { end ≤ 48 }
    requires room { N ≤ end }
    ensures start { result + N ≡ end }
    ensures text { drop result line.new ≡ text.entry ++ drop end line.old }
{
    let start = end - N;
    line[start..end].copy_from_slice(&text);
    start
}

/// The same, of a name, whose length the compiler doesn't know.
fn put_name(name: &[u8], line: &mut [u8; LINE], end: usize) -> usize
    requires within { end ≤ 48 }
    requires room { length name.now ≤ end }
    ensures start { result + length name.now ≡ end }
    ensures text { drop result line.new ≡ name.now ++ drop end line.old }
{
    let start = end - name.len();
    line[start..end].copy_from_slice(name);
    start
}
