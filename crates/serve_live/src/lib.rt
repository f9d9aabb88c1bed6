//! A listener joins a link while it is recorded, and hears a sound Ogg bitstream from there on (RFC 3533, section 4).
//!
//! What is heard are the pages of the link's beginning, a page that ends each stream which had ended unheard, and then
//! each page that is committed after the boundary where the listener joined. A stream's numbers go on without a gap, so
//! that what is heard is a chain of links of its own. From the next link's first page on, pages are heard as they are.
//! Where the link goes on in the next file, a listener hears on under the same serials, and with the numbers that follow,
//! as one link (`Listener::go_on`).
//!
//! `Boundaries` is told of the commands that are kept, and says where to join. `Listener::join` makes a listener there,
//! and takes memory for the link's streams. `Listener::pull` fills a buffer as far as what is committed goes, out of any
//! source; it takes no memory. The caller says where the committed bytes end, and says it anew at each pull. What a
//! source reads is on the disk, so what was heard is safe there.
//!
//! Start at `specs/Heard.antt`, which says what is heard, and go on to `specs/Live.antt` and `specs/Hearing.antt`, which
//! say it of committed bytes and of a listener, and to `specs/Following.antt` for the next file. `src/laws.rt` has the laws.
#![tactic(auto)]

mod boundaries;
mod checksums;
mod fault;
mod heads;
mod joined;
mod laws;
mod listener;
mod names;
mod pages;
mod pieces;
mod zeros;

pub use boundaries::{AHEAD, Boundaries};
pub use checksums::names_change;
pub use fault::JoinFault;
pub use laws::{
    commands_are_heard, commands_make_places, listeners_hear_on, listeners_hear_what_they_should,
    more_is_heard_as_more_is_committed, nothing_is_left_once_all_is_heard, places_are_moments,
    renaming_is_exact, sessions_hear_what_is_committed, the_newest_boundary_is_kept,
    what_is_heard_is_a_chain, what_is_live_is_a_chain,
};
pub use link_chain::StreamState;
pub use listener::{JoinPlace, Listener};
pub use names::{StreamName, name_in, open_streams};
pub use ogg_page::{Memory, PageSource, SourceFault};
