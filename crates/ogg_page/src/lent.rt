//! A page in a window's room.
ghost use Rattle.std.specs.Prelude.{◌≡◌, Ok, length};
ghost use Rattle.ogg_page.specs.Reading.{page_at, fields_at, size_at};

use crate::page::Page;
use crate::reading::known_page;

/// A page that a window lends, and its offset in the source.
#[derive(Debug, Drop)]
pub struct LentPage<'a> {
    pub(crate) offset: u64,
    pub(crate) bytes: &'a [u8],
    ghost is_page: { page_at bytes.now ≡ Ok (fields_at bytes.now) },
    ghost whole: { length bytes.now ≡ size_at bytes.now },
}

impl<'a> LentPage<'a> {
    /// Where the page begins in the source.
    pub fn offset(&self) -> u64
        ensures { result ≡ self.now.offset }
    {
        self.offset
    }

    /// The page.
    pub fn page(&self) -> Page<'a>
        ensures { result ≡ fields_at self.now.bytes.now }
    {
        known_page(self.bytes)
    }
}
