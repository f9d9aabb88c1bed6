//! Pages of an Ogg bitstream: their bytes, written and read (RFC 3533, section 6).
//!
//! A page is a head of 27 bytes, a table of at most 255 lacing values, and a body whose length is their sum. Writing
//! appends to the caller's vector, and leaves it as it was if memory is refused. Reading lends the parts of the page
//! at the front of bytes, and takes no memory. The bytes of no page begin those of another, so bytes are joined pages
//! in one way at most. Their checksum is that of `page_checksum`, which is handed on.
//!
//! A file may be larger than memory: a `Window` over a `PageSource` lends its pages one at a time, out
//! of the room of one `PageBuffer`. `walk` shows them to a `PageVisitor`, which may end the walk.
//!
//! The formats of the crates above are numbers too, the lowest byte first: `specs/Numbers.antt` spells
//! them, and `take_u8` to `take_fraction` take them off the front of bytes.
//!
//! Start at `specs/Page.antt`, which says what a page is, and at `specs/LogicalStream.antt`, which
//! says what packets the pages of a stream hold.
#![tactic(auto)]

mod buffer;
mod fault;
mod finding;
mod head;
mod held;
mod lacing;
mod laws;
mod lent;
mod numbers;
mod output;
mod page;
mod pages;
mod placing;
mod reading;
mod sizes;
mod source;
mod visiting;
mod window;
mod writing;

pub use buffer::PageBuffer;
pub use fault::{PageFault, SourceFault, WindowFault, WriteFault};
pub use head::{CONTINUED, FIRST, LAST, PageHead, PageHeader};
pub use lacing::body_size;
pub use laws::{
    lent_pages_are_those_found, longest_prefix_of_pages_is_unique, page_bytes_are_prefix_free,
    page_shows_in_its_front, pages_are_found_in_turn, pages_are_the_longest_prefix,
};
pub use lent::LentPage;
pub use numbers::{take_fraction, take_i64, take_u8, take_u16, take_u32, take_u64};
pub use output::{write_counted, write_whole};
pub use page::Page;
pub use page_checksum::{checksum, checksum_on};
pub use pages::Pages;
pub use reading::{read_header, read_page, split_known_page, split_page};
pub use sizes::{FIXED_SIZE, FULL_VALUE, LONGEST_PAGE, MOST_VALUES, SEGMENT, SEQUENCE_END};
pub use source::{PageSource, Whole};
pub use std::alloc::AllocError as Memory;
pub use visiting::{PageVisitor, Visit, walk};
pub use window::Window;
pub use writing::{close_page, open_page, put_names, write_page};
