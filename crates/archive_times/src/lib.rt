//! Lines of times: up to which offset a file was committed at a time, and where the link that was open then is joined.
//!
//! A file of an archive has its lines beside it, in `.times`. Offsets rise, and times never fall. They are advice:
//! whatever the bytes are, reading takes the lines at their front, and ends where one isn't a line, doesn't follow
//! the one before, or speaks of bytes that aren't committed. `line_at` finds the last line that isn't later than a
//! time; what was committed between two lines has the time of the second.
//!
//! A long text is read piece by piece: `next_line` and `last_line` go on after any line, and `after_line_feed` finds
//! where a line begins in the end of a text. Nothing here takes memory or asks a clock.
//!
//! Start at `specs/Times.antt`, which says what lines are, and at `specs/Asked.antt`, which says what is asked of
//! them.
#![tactic(auto)]

mod asking;
mod laws;
mod line;
mod reading;

pub use asking::{is_due, is_untold, line_at};
pub use laws::{lines_are_known_by_their_text, the_place_of_a_time};
pub use line::{Join, LONGEST_LINE, Line};
pub use reading::{after_line_feed, last_line, next_line, number_at_front};
