//! Times and spans as a person writes and reads them.
//!
//! A span is a number and a letter, as `90s` or `6w`; days have 24 hours. A time is asked for as RFC 3339 has it,
//! without an offset in the zone that is handed in, or counted back from now, as `-2h`. It is told as RFC 3339 in UTC,
//! with milliseconds, and as a Skeleton has it. What would overflow is refused. Nothing here asks a clock, and `SystemZone`
//! alone reads the system's files.
//!
//! Start at `specs/Span.antt`, `specs/Asked.antt` and `specs/Told.antt`, which say what the texts are.
#![tactic(auto)]

mod asked;
mod span;
mod told;
mod zones;

pub use asked::read_time;
pub use span::{read_back, read_span};
pub use told::{put_time, utc_of};
pub use zones::SystemZone;
