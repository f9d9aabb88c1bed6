//! The response that is the player.
ghost use Rattle.std.specs.Prelude.{◌≡◌, ◌≤◌, ◌<◌, ◌+◌, ◌++◌, OnOk, OnErr, length, vec_len, vec_capacity};
ghost use Rattle.serve_texts.specs.Player.{player_response};

use crate::Memory;
use crate::page::PLAYER;
use crate::response::append_response;

/// The first lines of the response that is the player.
pub const PLAYER_FRONT: &[u8] = b"HTTP/1.1 200 OK\r\n\
    Content-Type: text/html; charset=utf-8\r\n\
    Cache-Control: no-store\r\n\
    X-Content-Type-Options: nosniff\r\n\
    Content-Security-Policy: default-src 'none'; media-src 'self'; connect-src 'self'; \
    script-src 'sha256-vD+OMKzJhF7c1gGJCtVBJLqD7/WjEVanQJNuDp2NlOQ='; \
    style-src 'sha256-fnmlMuz5poEZAwqPet9hkI9DrOW/FqUb+EOtTaI/iDc='; \
    base-uri 'none'; form-action 'self'; frame-ancestors 'none'\r\n\
    Connection: close\r\n";

/// Appends the whole response to `GET`, or to `HEAD`, which gets no page. After `Memory` the vector is unchanged.
pub fn append_player(out: &mut Vec<u8>, head: bool) -> Result<(), Memory>
    ensures ok { OnOk result (out.new.items ≡ out.old.items ++ player_response head) }
    ensures err { OnErr result (out.new.items ≡ out.old.items) }
    ensures full { OnErr result (vec_capacity out.old < vec_len out.old + length (player_response head)) }
{
    append_response(out, PLAYER_FRONT, PLAYER, head)
}
