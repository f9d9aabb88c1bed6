//! Heads and bodies of source clients: encoders that send an Ogg bitstream to a station over HTTP (RFC 9110, RFC 9112).
//!
//! `Asks::of` says what the first bytes of a connection ask for: a source's request, what the station answers itself, or
//! anything else, which is the file server's. `Offer::of` reads a source's head, and says whether its body is taken; no source is
//! taken without the `Password` (RFC 7617). `Body::next` takes the framing off the body: chunks, a length, or none.
//!
//! Nothing here has a handle, and only `Password::new` takes memory. The caller keeps the bytes that came, and passes
//! them again with those that follow. Whether another source is recorded, and what the body holds, is for it to know.
//!
//! The grammar of heads is `httparse`'s, that of chunks is `http1`'s, and Base64 is `base64`'s. A head has at most
//! 8,192 bytes and 64 fields, as for the file server.
//!
//! Start at `specs/Asking.antt`, then `Offer`, `Framing`, `Credentials` and `Body`. `src/laws.rt` has the laws.
#![tactic(auto)]

mod answers;
mod asking;
mod body;
mod credentials;
mod fields;
mod framing;
mod laws;
mod offer;
mod outcome;
mod own;
mod password;
mod places;
mod refused;
mod reply;

pub use answers::{FULL, LIVE};
pub use asking::{Asks, is_source, may_be_listener};
pub use body::{Body, BodyFault, Piece};
pub use laws::{
    answers_are_these, answers_stay, basic_credentials_are_taken, bodies_are_taken_whole,
    heads_stay, sources_are_refused,
};
pub use offer::Offer;
pub use outcome::Outcome;
pub use own::{OwnResource, may_have_scheme};
pub use password::{Password, PasswordFault};
pub use refused::Refused;
