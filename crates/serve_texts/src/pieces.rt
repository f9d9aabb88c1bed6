//! Texts that are appended piece by piece.
ghost use Rattle.std.specs.Prelude.{◌≡◌, ◌≤◌, ◌<◌, ◌+◌, ◌++◌, ℕ, List, OnOk, OnErr, length, vec_len, vec_capacity};
ghost use Rattle.serve_texts.specs.Response.{joined};

use crate::Memory;

/// Appends the pieces, one after another. After `Memory` a part of them stands in the vector.
pub fn append_pieces(out: &mut Vec<u8>, pieces: &[&[u8]]) -> Result<(), Memory>
    ensures ok { OnOk result (out.new.items ≡ out.old.items ++ joined pieces.now) }
    ensures kept { (added : List ℕ) × (out.new.items ≡ out.old.items ++ added) }
    ensures full { OnErr result (vec_capacity out.old < vec_len out.old + length (joined pieces.now)) }
    ensures capacity { vec_capacity out.old ≤ vec_capacity out.new }
{
    for piece in pieces {
        match out.extend_from_slice(piece) {
            Ok(()) => {}
            Err(memory) => return Err(memory),
        }
    }
    Ok(())
}
