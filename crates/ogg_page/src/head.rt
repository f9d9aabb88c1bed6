//! The numbers of a page that its writer chooses.

/// The flag of a page that begins with a continued packet (RFC 3533, section 6, field 3).
pub const CONTINUED: u8 = 1;

/// The flag of a stream's first page.
pub const FIRST: u8 = 2;

/// The flag of a stream's last page.
pub const LAST: u8 = 4;

/// The numbers of a page that its writer chooses (RFC 3533, section 6, fields 3 to 6).
#[derive(Clone, Copy, Debug, PartialEq, Eq)]
pub struct PageHead {
    /// [`CONTINUED`], [`FIRST`] and [`LAST`], added up.
    pub flags: u8,
    /// The granule position of the last packet that ends in the page; all ones if none ends.
    pub position: u64,
    /// Which logical stream the page is of.
    pub serial: u32,
    /// The page's number within its stream.
    pub sequence: u32,
}

/// What a page's header says: its fixed part, and how long the parts behind that are (RFC 3533, section 6).
#[derive(Clone, Copy, Debug, PartialEq, Eq)]
pub struct PageHeader {
    /// The numbers that the page's writer chose.
    pub head: PageHead,
    /// The checksum that stands there. Whether it is the page's isn't known.
    pub checksum: u32,
    /// How many lacing values there are, each of a byte.
    pub values: usize,
    /// How many bytes the lacing values stand for: the length of the body.
    pub body: usize,
}
