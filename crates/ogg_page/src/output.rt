//! Bytes to a writer.
ghost use Rattle.std.specs.Prelude.{◌<◌, OnOk, OnErr, IfErr, length, take};
ghost use Rattle.std.specs.Io.KnownBytes.{Appends};
ghost use Rattle.ogg_page.specs.Output.{WritesPart};

use crate::fault::WriteFault;
use std::io::Write;

/// Writes all of the text, in order. An error of any kind, and a write that takes no byte, is a
/// fault and isn't tried again; then not all of the text was written, but a part from its front.
pub fn write_whole<W: Write>(writer: &mut W, text: &[u8]) -> Result<(), WriteFault>
    ensures ok { OnOk result (Appends (W.contents writer.old) (W.contents writer.new) text.now) }
    ensures err { OnErr result (WritesPart (W.contents writer.old) (W.contents writer.new) text.now) }
{
    match write_counted(writer, text) {
        Ok(()) => Ok(()),
        Err(_) => Err(WriteFault),
    }
}

/// The same, and at a fault it tells how many bytes of the text were written.
pub fn write_counted<W: Write>(writer: &mut W, text: &[u8]) -> Result<(), usize>
    ensures ok { OnOk result (Appends (W.contents writer.old) (W.contents writer.new) text.now) }
    ensures within { IfErr result (λ count. count < length text.now) }
    ensures err { IfErr result (λ count. Appends (W.contents writer.old) (W.contents writer.new) (take count text.now)) }
{
    let mut done = 0usize;
    for _ in 0..text.len() {
        if done >= text.len() {
            break;
        }
        match writer.write(&text[done..]) {
            Ok(0) => return Err(done),
            Ok(count) => done += count,
            Err(_) => return Err(done),
        }
    }
    Ok(())
}
