//! Pages from bytes.
ghost use Rattle.std.specs.Prelude.{◌≡◌, ◌≤◌, ◌+◌, ◌*◌, ◌++◌, length, take, drop, IfOk, IfErr, IsOk, MatchResult, Ok, Err, List, ℕ};
ghost use Rattle.byteorder.specs.Endian.{little_number};
ghost use Rattle.ogg_page.specs.Page.{Page as PageValue, IsPage, AreBytes, page_bytes, page_size};
ghost use Rattle.ogg_page.specs.Reading.{page_at, header_at, head_at, fields_at, size_at, blanked, IsPageOf};
ghost use Rattle.ogg_page.specs.Head.{Stands, head_size, header_of};
ghost use Rattle.ogg_page.specs.Room.{BeginsWithPage};
ghost use Rattle.page_checksum.specs.Checksum.{checksum_of};
ghost use Rattle.ogg_page.specs.Sizes.{fixed_size, full_value, most_values};

use crate::fault::PageFault;
use crate::head::{PageHead, PageHeader};
use crate::lacing::body_size;
use crate::page::Page;
use crate::sizes::FIXED_SIZE;
use byteorder::{ByteOrder, LittleEndian};
use page_checksum::{checksum, checksum_on, checksum_on_words};

/// Reads the page at the front of the bytes (RFC 3533, section 6), and lends its parts. Bytes after
/// it are not read. If no page stands there, the fault is the first one of [`PageFault`] in the
/// order `Short` (under 27 bytes), `Pattern`, `Version`, `Short` (the lacing values or the body run
/// past the end), `Checksum`. It takes no memory.
pub fn read_page(bytes: &[u8]) -> Result<Page<'_>, PageFault>
    // It accepts exactly the bytes that begin with a page's bytes, and returns that page.
    ensures found { IfOk result (λ page. IsPage page × (rest : List ℕ) × (bytes.now ≡ page_bytes page ++ rest)) }
    ensures each { (page : PageValue) (rest : List ℕ) → IsPage page → bytes.now ≡ page_bytes page ++ rest → result ≡ Ok page }
    // Of the others it returns the first fault.
    ensures exact { result ≡ page_at bytes.now }
{
    page_or_fault(bytes)
}

/// The page at the front, or the first fault.
fn page_or_fault(bytes: &[u8]) -> Result<Page<'_>, PageFault>
    ensures { result ≡ page_at bytes.now }
{
    let (values, size) = sizes_of_page(bytes)?;
    Ok(page_in_front(bytes, values, size))
}

/// Splits the page at the front from the bytes after it. The faults are those of [`read_page`].
pub fn split_page(bytes: &[u8]) -> Result<(Page<'_>, &[u8]), PageFault>
    ensures split { MatchResult result (λ (page, rest). IsPage page × (bytes.now ≡ page_bytes page ++ rest.now)) (λ fault. page_at bytes.now ≡ Err fault) }
    ensures size { IfOk result (λ (page, rest). length bytes.now ≡ page_size page + length rest.now) }
{
    let page = read_page(bytes)?;
    let rest = bytes.split_at(page.whole().len()).1;
    Ok((page, rest))
}

/// Splits a page that is known to stand at the front from the bytes after it. Its checksum isn't
/// checked again, so this takes no time for its body.
pub fn split_known_page(bytes: &[u8]) -> (Page<'_>, &[u8])
    requires { IsOk (page_at bytes.now) }
    ensures { IsPage result.0 × (bytes.now ≡ page_bytes result.0 ++ result.1.now) }
{
    let values = usize::from(bytes[26]);
    let size = body_size(bytes.split_at(FIXED_SIZE).1.split_at(values).0);
    let page = page_in_front(bytes, values, size);
    (page, bytes.split_at(FIXED_SIZE + values + size).1)
}

/// The size of the page that the bytes begin with.
pub(crate) fn size_in_front(bytes: &[u8]) -> Result<usize, PageFault>
    ensures bytes { AreBytes bytes.now }
    ensures found { MatchResult result (λ size. BeginsWithPage bytes.now size) (λ fault. page_at bytes.now ≡ Err fault) }
{
    let (values, size) = sizes_of_page(bytes)?;
    Ok(FIXED_SIZE + values + size)
}

/// The page that is known to be these bytes. It takes no time for its lacing values either.
pub(crate) fn known_page(bytes: &[u8]) -> Page<'_>
    requires page { page_at bytes.now ≡ Ok (fields_at bytes.now) }
    requires whole { length bytes.now ≡ size_at bytes.now }
    ensures { result ≡ fields_at bytes.now }
{
    let values = usize::from(bytes[26]);
    page_in_front(bytes, values, bytes.len() - FIXED_SIZE - values)
}

/// Reads the header of the page at the front: its fixed part and its lacing values (RFC 3533, section 6). The body needn't
/// be there, and no checksum is computed. The faults are those of [`read_page`] up to the lacing values, in its order:
/// `Short` (under 27 bytes), `Pattern`, `Version`, `Short` (the lacing values run past the end). It takes no memory.
pub fn read_header(bytes: &[u8]) -> Result<PageHeader, PageFault>
    ensures exact { result ≡ header_at bytes.now }
    // As many bytes as the header of a page has that stands there are enough.
    ensures each { (there : List ℕ) (page : PageValue) (n : ℕ) → Stands there page → head_size page ≤ n → bytes.now ≡ take n there
        → result ≡ Ok (header_of page) }
    // What refuses the header refuses the page.
    ensures refuses { IfErr result (λ fault. page_at bytes.now ≡ Err fault) }
    ensures sizes { IfOk result (λ header. (header.values ≤ most_values) × (header.body ≤ full_value * header.values)
        × (fixed_size + header.values ≤ length bytes.now)) }
{
    header_or_fault(bytes)
}

/// The header at the front, or the first fault.
#[tactic(auto, unfolding(crate::specs::Reading::header_at, crate::specs::Reading::page_at))]
fn header_or_fault(bytes: &[u8]) -> Result<PageHeader, PageFault>
    ensures exact { result ≡ header_at bytes.now }
    ensures refuses { IfErr result (λ fault. page_at bytes.now ≡ Err fault) }
    ensures sizes { IfOk result (λ header. (header.values ≤ most_values) × (header.body ≤ full_value * header.values)
        × (fixed_size + header.values ≤ length bytes.now)) }
{
    if bytes.len() < FIXED_SIZE {
        return Err(PageFault::Short);
    }
    if !bytes.starts_with(b"OggS") {
        return Err(PageFault::Pattern);
    }
    if bytes[4] != 0 {
        return Err(PageFault::Version);
    }
    let values = usize::from(bytes[26]);
    if bytes.len() < FIXED_SIZE + values {
        return Err(PageFault::Short);
    }
    Ok(PageHeader {
        head: head_in_front(bytes),
        checksum: u32_at(bytes, 22),
        values,
        body: body_size(bytes.split_at(FIXED_SIZE).1.split_at(values).0),
    })
}

/// The numbers that the writer of the page at the front chose.
fn head_in_front(bytes: &[u8]) -> PageHead
    requires { fixed_size ≤ length bytes.now }
    ensures { result ≡ head_at bytes.now }
{
    PageHead {
        flags: bytes[5],
        position: u64_at(bytes, 6),
        serial: u32_at(bytes, 14),
        sequence: u32_at(bytes, 18),
    }
}

/// How many lacing values and how many bytes of body the page at the front has.
fn sizes_of_page(bytes: &[u8]) -> Result<(usize, usize), PageFault>
    ensures { MatchResult result (λ (values, size). IsPageOf bytes.now values size) (λ fault. page_at bytes.now ≡ Err fault) }
{
    let header = read_header(bytes)?;
    let size = FIXED_SIZE + header.values + header.body;
    if bytes.len() < size {
        return Err(PageFault::Short);
    }
    if header.checksum != blanked_checksum(bytes.split_at(size).0) {
        return Err(PageFault::Checksum);
    }
    Ok((header.values, header.body))
}

/// The page at the front, which has this number of lacing values and this number of bytes of body.
fn page_in_front(bytes: &[u8], values: usize, size: usize) -> Page<'_>
    requires { IsPageOf bytes.now values size }
    ensures { page_at bytes.now ≡ Ok result }
{
    let (lacing, rest) = bytes.split_at(FIXED_SIZE).1.split_at(values);
    let body = rest.split_at(size).0;
    Page::new(
        head_in_front(bytes),
        lacing,
        body,
        bytes.split_at(FIXED_SIZE + values + size).0,
    )
}

/// The checksum of a page's bytes with zeros in the checksum's place. The first 32 bytes go as one
/// piece, so that the look-ups go on from there in whole pieces of sixteen bytes.
fn blanked_checksum(whole: &[u8]) -> u32
    requires { fixed_size ≤ length whole.now }
    ensures { result ≡ checksum_of (blanked whole.now) }
{
    match whole.split_first_chunk::<32>() {
        Some((front, rest)) => checksum_on(checksum_of_front(front), rest),
        None => checksum_on(checksum_on(checksum(&whole[..22]), &[0; 4]), &whole[26..]),
    }
}

/// The same of a page's first bytes. The bytes stay in registers: a copy that is blanked would be
/// written and read again.
fn checksum_of_front(front: &[u8; 32]) -> u32
    ensures sum { result ≡ checksum_of (blanked front.now) }
    ensures front { (rest : List ℕ) → blanked front.now ++ rest ≡ blanked (front.now ++ rest) }
{
    let sum = checksum_on_words(
        0,
        u32::from_be_bytes([front[0], front[1], front[2], front[3]]),
        u32::from_be_bytes([front[4], front[5], front[6], front[7]]),
        u32::from_be_bytes([front[8], front[9], front[10], front[11]]),
        u32::from_be_bytes([front[12], front[13], front[14], front[15]]),
    );
    checksum_on_words(
        sum,
        u32::from_be_bytes([front[16], front[17], front[18], front[19]]),
        u32::from_be_bytes([front[20], front[21], 0, 0]),
        u32::from_be_bytes([0, 0, front[26], front[27]]),
        u32::from_be_bytes([front[28], front[29], front[30], front[31]]),
    )
}

fn u32_at(bytes: &[u8], at: usize) -> u32
    requires { at + 4 ≤ length bytes.now }
    ensures { result ≡ little_number 4 (drop at bytes.now) }
{
    LittleEndian::read_u32(&bytes[at..])
}

fn u64_at(bytes: &[u8], at: usize) -> u64
    requires { at + 8 ≤ length bytes.now }
    ensures { result ≡ little_number 8 (drop at bytes.now) }
{
    LittleEndian::read_u64(&bytes[at..])
}
