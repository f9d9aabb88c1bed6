//! Pages as bytes.
ghost use Rattle.std.specs.Prelude.{◌≡◌, ◌+◌, ◌≤◌, ◌<◌, ◌++◌, length, sum, take, drop, OnOk, OnErr, List, ℕ, vec_len, vec_capacity};
ghost use Rattle.byteorder.specs.Endian.{little_bytes};
ghost use Rattle.ogg_page.specs.Page.{Page, page_of, page_bytes, bytes_with, fixed_part};
ghost use Rattle.ogg_page.specs.Sizes.{fixed_size, most_values, checksum_end};

use crate::Memory;
use crate::head::PageHead;
use crate::sizes::FIXED_SIZE;
use byteorder::{ByteOrder, LittleEndian};
use page_checksum::checksum;

/// Appends a page (RFC 3533, section 6). After `Memory` the vector is unchanged.
pub fn write_page(
    head: &PageHead,
    lacing: &[u8],
    body: &[u8],
    out: &mut Vec<u8>,
) -> Result<(), Memory>
    requires values { length lacing.now ≤ most_values }
    requires whole { sum lacing.now ≡ length body.now }
    ensures ok { OnOk result (out.new.items ≡ out.old.items ++ page_bytes (page_of head.now lacing.now body.now)) }
    ensures err { OnErr result (out.new.items ≡ out.old.items) }
    ensures full { OnErr result (vec_capacity out.old < vec_len out.old + (fixed_size + length lacing.now + length body.now)) }
    ensures capacity { vec_capacity out.old ≤ vec_capacity out.new }
{
    out.reserve(FIXED_SIZE + lacing.len() + body.len())?;
    let start = out.len();
    open_page(head, lacing, out);
    append(out, body);
    close_page(start, out);
    Ok(())
}

/// Appends what a page has before its body, with zero as the checksum. There must be room for it.
/// The body belongs after it, and then `close_page` makes them the page.
#[inline]
pub fn open_page(head: &PageHead, lacing: &[u8], out: &mut Vec<u8>)
    requires values { length lacing.now ≤ most_values }
    requires room { vec_len out.old + (fixed_size + length lacing.now) ≤ vec_capacity out.old }
    ensures items { (body : List ℕ) →
        out.new.items ≡ out.old.items ++ (fixed_part 0 (page_of head.now lacing.now body) ++ lacing.now) }
    ensures len { vec_len out.new ≡ vec_len out.old + (fixed_size + length lacing.now) }
    ensures capacity { vec_capacity out.old ≤ vec_capacity out.new }
{
    append(out, &blank_fixed_part(head, lacing.len() as u8));
    append(out, lacing);
}

/// Puts its checksum into the page that begins at `start` and ends with the vector.
pub fn close_page(start: usize, out: &mut Vec<u8>)
    requires { start + fixed_size ≤ vec_len out.old }
    ensures items { (front : List ℕ) (page : Page) → length front ≡ start →
        out.old.items ≡ front ++ bytes_with 0 page → out.new.items ≡ front ++ page_bytes page }
    ensures len { vec_len out.new ≡ vec_len out.old }
    ensures capacity { vec_capacity out.new ≡ vec_capacity out.old }
{
    let (_, page) = out.as_slice().split_at(start);
    let sum = checksum(page);
    put_number(sum, start + 22, out);
}

/// Puts a number over the four bytes at a place, the lowest byte first.
fn put_number(number: u32, at: usize, out: &mut Vec<u8>)
    requires { at + 4 ≤ vec_len out.old }
    ensures items { (front four rest : List ℕ) → length front ≡ at → length four ≡ 4 →
        out.old.items ≡ front ++ (four ++ rest) → out.new.items ≡ front ++ (little_bytes 4 number ++ rest) }
    ensures len { vec_len out.new ≡ vec_len out.old }
    ensures capacity { vec_capacity out.new ≡ vec_capacity out.old }
{
    let [b0, b1, b2, b3] = number.to_le_bytes();
    out[at] = b0;
    out[at + 1] = b1;
    out[at + 2] = b2;
    out[at + 3] = b3;
}

/// Puts another serial, sequence number and checksum into a page's header, which the bytes begin with (RFC 3533, section 6,
/// fields 5 to 7). Whether the checksum is that of the page then is the caller's to know.
pub fn put_names(header: &mut [u8], serial: u32, sequence: u32, checksum: u32)
    requires { checksum_end ≤ length header.old }
    ensures { header.new ≡ take 14 header.old
        ++ (((little_bytes 4 serial ++ little_bytes 4 sequence) ++ little_bytes 4 checksum) ++ drop checksum_end header.old) }
{
    let [s0, s1, s2, s3] = serial.to_le_bytes();
    let [n0, n1, n2, n3] = sequence.to_le_bytes();
    let [c0, c1, c2, c3] = checksum.to_le_bytes();
    let (_, behind) = header.split_at_mut(14);
    let (own, _) = behind.split_at_mut(12);
    own.copy_from_slice(&[s0, s1, s2, s3, n0, n1, n2, n3, c0, c1, c2, c3]);
}

/// Appends bytes. There must be room for them.
fn append(out: &mut Vec<u8>, bytes: &[u8])
    requires { vec_len out.old + length bytes.now ≤ vec_capacity out.old }
    ensures items { out.new.items ≡ out.old.items ++ bytes.now }
    ensures len { vec_len out.new ≡ vec_len out.old + length bytes.now }
    ensures capacity { vec_capacity out.old ≤ vec_capacity out.new }
{
    out.extend_from_slice(bytes).unwrap();
}

/// The bytes of a page before its lacing values, with zero as the checksum.
#[tactic(auto, unfolding(crate::specs::Page::fixed_part))]
pub(crate) fn blank_fixed_part(head: &PageHead, values: u8) -> [u8; FIXED_SIZE]
    ensures { (lacing body : List ℕ) → length lacing ≡ values → result ≡ fixed_part 0 (page_of head.now lacing body) }
{
    let mut bytes = [0u8; FIXED_SIZE];
    bytes[..4].copy_from_slice(b"OggS");
    bytes[5] = head.flags;
    LittleEndian::write_u64(&mut bytes[6..], head.position);
    LittleEndian::write_u32(&mut bytes[14..], head.serial);
    LittleEndian::write_u32(&mut bytes[18..], head.sequence);
    bytes[26] = values;
    bytes
}
