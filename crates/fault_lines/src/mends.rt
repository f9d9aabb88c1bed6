//! The lines of what is mended.
ghost use Rattle.std.specs.Prelude.{◌≡◌, ◌≤◌, ◌+◌, ◌++◌, OnOk, OnErr, codes, length};
ghost use Rattle.std.specs.Io.KnownBytes.{Appends};
ghost use Rattle.ogg_page.specs.Output.{WritesPart};
ghost use Rattle.feed_replies.specs.Reply.{line_end};
ghost use Rattle.fault_lines.specs.Fault.{coded, numbered};
ghost use Rattle.fault_lines.specs.Mend.{mend_line, mend_rest};

use crate::fault::put_coded;
use import_mend::Mend;
use ogg_page::{WriteFault, write_whole};
use std::io::Write;
use text_line::Line;

/// Writes the line of a mend. After a fault of the writer a part of the line was written.
pub fn write_mend<W: Write>(mend: &Mend, writer: &mut W) -> Result<(), WriteFault>
    ensures ok { OnOk result (Appends (W.contents writer.old) (W.contents writer.new) (mend_line mend.now)) }
    ensures err { OnErr result (WritesPart (W.contents writer.old) (W.contents writer.new) (mend_line mend.now)) }
{
    write_whole(writer, line_of(*mend).as_slice())
}

/// The line of a mend, with its line feed.
fn line_of(mend: Mend) -> Line
    ensures { result.text ≡ mend_line mend }
{
    let mut line = mend_rest(mend);
    put_coded(&mut line, mend.code(), mend.name());
    line.put_text(b"mended ");
    line
}

/// What follows the name of a mend.
fn mend_rest(mend: Mend) -> Line
    ensures text { result.text ≡ mend_rest mend }
    ensures room { 41 ≤ result.room }
{
    match mend {
        Mend::Junk { offset, bytes } => two(offset, bytes),
        Mend::Gap {
            offset,
            serial,
            from,
            to,
        } => {
            let mut line = two(u64::from(from), u64::from(to));
            put_numbered(&mut line, u64::from(serial));
            put_numbered(&mut line, offset);
            line
        }
        Mend::Restart { offset } => {
            let mut line = Line::new();
            put_numbered(&mut line, offset);
            line
        }
        Mend::Stranger { offset, serial } => two(offset, u64::from(serial)),
        Mend::Repeated { offset, serial } => two(offset, u64::from(serial)),
        Mend::Unfinished { offset, serial } => two(offset, u64::from(serial)),
        Mend::TooLong { offset, serial } => two(offset, u64::from(serial)),
        Mend::Misshapen { offset, serial } => two(offset, u64::from(serial)),
        Mend::Full { offset, serial } => two(offset, u64::from(serial)),
    }
}

/// Two numbers at the end of a line.
fn two(first: u64, second: u64) -> Line
    ensures text { result.text ≡ numbered first (numbered second line_end) }
    ensures room { 85 ≤ result.room }
{
    let mut line = Line::new();
    put_numbered(&mut line, second);
    put_numbered(&mut line, first);
    line
}

/// Puts a number in front of a line, and a space in front of it.
fn put_numbered(line: &mut Line, value: u64)
    requires { 21 ≤ line.old.room }
    ensures text { line.new.text ≡ numbered value line.old.text }
    ensures room { line.old.room ≤ line.new.room + 21 }
{
    line.put_number(value);
    line.put_text(b" ");
}
