//! Links and their streams as they are kept: a row for each link, and the streams of all links in one list.
ghost use Rattle.std.specs.Prelude.{◌≡◌, ◌≤◌, ◌<◌, ◌+◌, ◌++◌, ◌∷◌, ◌^◌, ℕ, [], length, map, vec_len, vec_capacity};
ghost use Rattle.ogg_page.specs.Page.{page_bytes};
ghost use Rattle.link_index.specs.Growth.{first_info, counted, opened_entry, joined_entry, continued_entry, change_last};
ghost use Rattle.link_index.specs.Rows.{ArePacked, AreWithin, entry_of, entries_of, last_count};
ghost use Rattle.link_chain.specs.Limits.{most_streams};

use crate::info::{LinkInfo, StreamInfo};
use ogg_page::Page;

/// A link, and the place of its streams.
#[derive(Clone, Copy, Debug)]
pub struct Row {
    /// The offset of the link's first byte.
    pub start: u64,
    /// How many bytes its pages have.
    pub length: u64,
    /// The place of its first stream among the streams of all links.
    pub first: usize,
    /// How many streams it has.
    pub count: u32,
}

impl Row {
    /// What it says of the link.
    pub fn info(&self) -> LinkInfo
        ensures { result ≡ (entry_of [] self.now).info }
    {
        LinkInfo {
            start: self.start,
            length: self.length,
            streams: self.count,
        }
    }
}

/// The streams of a link, among those of all links.
pub fn streams_of<'a>(row: &Row, streams: &'a [StreamInfo]) -> &'a [StreamInfo]
    requires { row.now.first + row.now.count ≤ length streams.now }
    ensures { result.now ≡ (entry_of streams.now row.now).streams }
{
    let (_, rest) = streams.split_at(row.first);
    let (own, _) = rest.split_at(row.count as usize);
    own
}

/// Adds a link that begins with this page, at this offset.
pub fn open_link(rows: &mut Vec<Row>, streams: &mut Vec<StreamInfo>, start: u64, page: &Page<'_>)
    requires packed { ArePacked 0 rows.old.items (length streams.old.items) }
    requires room { vec_len rows.old < vec_capacity rows.old }
    requires stream_room { vec_len streams.old < vec_capacity streams.old }
    ensures entries { entries_of streams.new.items rows.new.items
        ≡ entries_of streams.old.items rows.old.items ++ opened_entry start page.now ∷ [] }
    ensures packed { ArePacked 0 rows.new.items (length streams.new.items) }
    ensures within { (total : ℕ) → AreWithin total rows.old.items streams.old.items → AreWithin (total + length (page_bytes page.now)) rows.new.items streams.new.items }
    ensures rows { vec_len rows.new ≡ vec_len rows.old + 1 }
    ensures last { last_count rows.new.items ≡ 1 }
{
    rows.push_reserved(Row {
        start,
        length: page.whole().len() as u64,
        first: streams.len(),
        count: 1,
    });
    streams.push_reserved(first_info(page));
}

/// Adds a stream, which begins with this page, to the last link.
pub fn join_link(rows: &mut Vec<Row>, streams: &mut Vec<StreamInfo>, page: &Page<'_>)
    requires packed { ArePacked 0 rows.old.items (length streams.old.items) }
    requires some { 0 < vec_len rows.old }
    requires few { last_count rows.old.items < most_streams }
    requires within { (total : ℕ) × AreWithin total rows.old.items streams.old.items × (total + length (page_bytes page.now) < 2 ^ 63) }
    requires room { vec_len streams.old < vec_capacity streams.old }
    ensures entries { entries_of streams.new.items rows.new.items
        ≡ change_last (joined_entry page.now) (entries_of streams.old.items rows.old.items) }
    ensures packed { ArePacked 0 rows.new.items (length streams.new.items) }
    ensures within { (total : ℕ) → AreWithin total rows.old.items streams.old.items → AreWithin (total + length (page_bytes page.now)) rows.new.items streams.new.items }
    ensures rows { vec_len rows.new ≡ vec_len rows.old }
    ensures last { last_count rows.new.items ≡ last_count rows.old.items + 1 }
{
    let mut last = rows.take_last();
    last.length += page.whole().len() as u64;
    last.count += 1;
    rows.push_reserved(last);
    streams.push_reserved(first_info(page));
}

/// Counts in a page of a stream of the last link.
pub fn continue_link(rows: &mut Vec<Row>, streams: &mut [StreamInfo], page: &Page<'_>)
    requires packed { ArePacked 0 rows.old.items (length streams.old) }
    requires some { 0 < vec_len rows.old }
    requires within { (total : ℕ) × AreWithin total rows.old.items streams.old × (total + length (page_bytes page.now) < 2 ^ 63) }
    ensures entries { entries_of streams.new rows.new.items
        ≡ change_last (continued_entry page.now) (entries_of streams.old rows.old.items) }
    ensures packed { ArePacked 0 rows.new.items (length streams.new) }
    ensures within { (total : ℕ) → AreWithin total rows.old.items streams.old → AreWithin (total + length (page_bytes page.now)) rows.new.items streams.new }
    ensures rows { vec_len rows.new ≡ vec_len rows.old }
    ensures last { last_count rows.new.items ≡ last_count rows.old.items }
{
    let mut last = rows.take_last();
    last.length += page.whole().len() as u64;
    let (_, own) = streams.split_at_mut(last.first);
    count_page(own, page);
    rows.push_reserved(last);
}

/// Counts in a page of one of these streams.
fn count_page(streams: &mut [StreamInfo], page: &Page<'_>)
    requires { (total : ℕ) × AreWithin total [] streams.old × (total + length (page_bytes page.now) < 2 ^ 63) }
    ensures { streams.new ≡ map (counted page.now) streams.old }
{
    for stream in streams.iter_mut() {
        *stream = counted(*stream, page);
    }
}

/// A stream, with the page counted if it is one of its own.
fn counted(stream: StreamInfo, page: &Page<'_>) -> StreamInfo
    requires bytes { stream.bytes + length (page_bytes page.now) < 2 ^ 64 }
    requires pages { stream.pages + 1 < 2 ^ 64 }
    ensures { result ≡ counted page.now stream }
{
    if stream.serial != page.serial() {
        return stream;
    }
    StreamInfo {
        serial: stream.serial,
        bytes: stream.bytes + page.whole().len() as u64,
        pages: stream.pages + 1,
        ended: stream.ended || page.is_last(),
    }
}

/// A stream that begins with this page.
fn first_info(page: &Page<'_>) -> StreamInfo
    ensures { result ≡ first_info page.now }
{
    StreamInfo {
        serial: page.serial(),
        bytes: page.whole().len() as u64,
        pages: 1,
        ended: page.is_last(),
    }
}
