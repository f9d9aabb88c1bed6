//! The names of an archive's files, and what is done by them: which file is the newest, when the next one is begun,
//! and which are thrown away.
//!
//! A file is named `NUMBER-YYYYMMDDTHHMMSSZ.ogg`, or `NUMBER-YYYYMMDDTHHMMSSZ-on.ogg` if its first link goes on with
//! the last one of the file before. The number has six digits or more and gives the order; the time is the second at
//! which the file was begun, in UTC, of the years 1970 to 9999. Beside it stand its times, in `.times`, and
//! `.ogg.keep` if it is never to be thrown away. Exactly the texts that are written are read. Nothing here takes
//! memory, asks a clock or touches a folder.
//!
//! Start at `specs/Name.antt`, which says what a name is, then read `specs/Among.antt` and `specs/Plan.antt`.
#![tactic(auto)]

mod among;
mod name;
mod plan;
mod reading;

pub use among::{newest, next_number, stands_twice};
pub use name::{Kind, LAST_SECOND, Name, NameText};
pub use plan::{Going, Held, Keeping, Limits, is_over, next_for_room, next_to_go};
