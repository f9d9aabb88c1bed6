//! Bytes of a source written as they stand, piece by piece.
ghost use Rattle.std.specs.Prelude.{◌≡◌, ◌⊎◌, ◌≤◌, ◌<◌, ◌^◌, ◌+◌, ◌-◌, OnOk, OnErr, Err, length, take, drop};
ghost use Rattle.std.specs.Io.KnownBytes.{Appends};
ghost use Rattle.ogg_page.specs.Output.{WritesPrefix};
ghost use Rattle.ogg_page.specs.Window.{KeepsSource, HasFailed};
ghost use Rattle.ogg_split.specs.Copying.{IsCopy, IsThere};

use crate::fault::SplitFault;
use ogg_page::{PageSource, write_whole};
use std::io::Write;

/// How many bytes are read at once.
const PIECE: usize = 32768;

/// Writes `count` bytes of the source from `from` on.
pub fn copy_bytes_of<S: PageSource, W: Write>(
    source: &mut S,
    from: u64,
    count: u64,
    out: &mut W,
) -> Result<u64, SplitFault>
    requires inside { from + count ≤ S.size source.old }
    requires short { from + count < 2 ^ 64 }
    ensures copied { S.is_honest source.old
        → IsCopy (W.contents out.old) (W.contents out.new) (take count (drop from (S.bytes source.old))) result }
    ensures cause { result ≡ Err SplitFault.Source
        → HasFailed (S.failures source.old) (S.failures source.new) }
    ensures later { S.failures source.old ≤ S.failures source.new }
    ensures source { KeepsSource S.bytes S.is_honest S.size S.only_reads source.old source.new }
    ensures there { IsThere result }
{
    let mut piece = [0; PIECE];
    let mut done = 0;
    'pieces: while done < count {
        let size = (count - done).min(PIECE as u64) as usize;
        match copy_piece(source, from + done, piece.split_at_mut(size).0, out) {
            Ok(()) => done += size as u64,
            Err(fault) => return Err(fault),
        }
    }
    Ok(count)
}

/// Reads one piece, as long as the buffer, and writes it.
fn copy_piece<S: PageSource, W: Write>(
    source: &mut S,
    at: u64,
    piece: &mut [u8],
    out: &mut W,
) -> Result<(), SplitFault>
    requires { at + length piece.old ≤ S.size source.old }
    ensures ok { OnOk result (S.is_honest source.old
        → Appends (W.contents out.old) (W.contents out.new) (take (length piece.old) (drop at (S.bytes source.old)))) }
    ensures err { OnErr result (S.is_honest source.old
        → WritesPrefix (W.contents out.old) (W.contents out.new) (take (length piece.old) (drop at (S.bytes source.old)))) }
    ensures cause { result ≡ Err SplitFault.Source
        → HasFailed (S.failures source.old) (S.failures source.new) }
    ensures later { S.failures source.old ≤ S.failures source.new }
    ensures source { KeepsSource S.bytes S.is_honest S.size S.only_reads source.old source.new }
    ensures there { IsThere result }
{
    match source.read_at(at, piece) {
        Ok(()) => match write_whole(out, piece) {
            Ok(()) => Ok(()),
            Err(_) => Err(SplitFault::Write),
        },
        Err(_) => Err(SplitFault::Source),
    }
}
