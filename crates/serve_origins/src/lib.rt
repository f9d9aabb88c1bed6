//! Responses that pages of other sites may read (Fetch, section 3.2: the CORS protocol).
//!
//! `Allowed` is the field `Access-Control-Allow-Origin`, for the origin that `is_origin` takes. It comes after the first line
//! of a response, whoever makes that: `Allowed::put` is what is to be written in place of the response's next bytes, and
//! `Allowed::wrote` says how far these have come. `preflight_in` finds the request that a browser sends first, and
//! `PREFLIGHT` is its answer.
//!
//! Nothing here has a handle.
//!
//! Start at `specs/Added.antt`.
#![tactic(auto)]

mod added;
mod laws;
mod origins;
mod preflights;

pub use added::{Added, Allowed, Memory};
pub use laws::responses_have_their_field;
pub use origins::is_origin;
pub use preflights::{PREFLIGHT, Preflight, preflight_in};
