//! Reads and writes that are tried.
ghost use Rattle.std.specs.Prelude.{◌≡◌, ◌≤◌, true, false, None, IfSome, OnOk, OnErr, IsSome, length, take};
ghost use Rattle.std.specs.Io.KnownBytes.{Appends, Consumes, IsAtEnd, Keeps};
ghost use Rattle.ogg_page.specs.Output.{WritesPrefix};

use ogg_page::{WriteFault, write_whole};
use std::io::{Read, Write};
use std::marker::Model;

/// Whether a call on a connection's reader or writer has failed. Only such calls change it.
#[derive(Drop)]
pub(crate) struct Tries {
    failed: bool,
}

impl Model for Tries {
    ghost use Rattle.std.specs.Prelude.{Bool};

    ghost Value = { Bool };

    ghost view = { λ t. t.failed };
}

impl Tries {
    /// No call has failed yet.
    pub(crate) fn new() -> Tries
        ensures { result ≡ false }
    {
        Tries { failed: false }
    }

    /// Reads the next bytes, as many as the buffer holds or as come, and returns how many these are. If it returns
    /// `None`, the reader has failed.
    pub(crate) fn read<R: Read>(&mut self, reader: &mut R, buffer: &mut [u8]) -> Option<usize>
        ensures within { IfSome result (λ count. count ≤ length buffer.new) }
        ensures bytes { IfSome result (λ count. Consumes (R.remaining reader.old) (R.remaining reader.new) (take count buffer.new)) }
        ensures end { IfSome result (λ count. count ≡ 0 → 1 ≤ length buffer.new → IsAtEnd (R.remaining reader.new)) }
        ensures none { result ≡ None → Keeps (R.remaining reader.old) (R.remaining reader.new) }
        ensures failed { result ≡ None → self.new ≡ true }
        ensures same { IsSome result → self.new ≡ self.old }
    {
        match reader.read(buffer) {
            Ok(count) => Some(count),
            Err(_) => {
                self.failed = true;
                None
            }
        }
    }

    /// Writes all of the bytes. After `WriteFault` the writer has failed, and has a front of them.
    pub(crate) fn write<W: Write>(&mut self, writer: &mut W, bytes: &[u8]) -> Result<(), WriteFault>
        ensures ok { OnOk result (Appends (W.contents writer.old) (W.contents writer.new) bytes.now) }
        ensures err { OnErr result (WritesPrefix (W.contents writer.old) (W.contents writer.new) bytes.now) }
        ensures failed { OnErr result (self.new ≡ true) }
        ensures same { OnOk result (self.new ≡ self.old) }
    {
        match write_whole(writer, bytes) {
            Ok(()) => Ok(()),
            Err(fault) => {
                self.failed = true;
                Err(fault)
            }
        }
    }
}
