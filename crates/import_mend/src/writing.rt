//! Pages that are made: a mended one, and the last page of a stream that has none.
ghost use Rattle.std.specs.Prelude.{◌≡◌, ◌≤◌, ◌<◌, ◌+◌, ◌++◌, OnErr, OnOk, length, sum, take, drop, vec_capacity, vec_len};
ghost use Rattle.ogg_page.specs.Page.{Page as PageValue, IsPage, page_bytes};
ghost use Rattle.ogg_page.specs.Sizes.{longest_page, most_values};
ghost use Rattle.import_mend.specs.Mended.{behind_rest, last_page, mended};

use crate::cutting::{front_values, whole_values};
use ogg_page::{CONTINUED, LAST, Memory, Page, PageHead, body_size, split_known_page, write_page};

/// Lacing values, and the bytes that they stand for.
#[derive(Clone, Copy)]
struct Part<'a> {
    lacing: &'a [u8],
    body: &'a [u8],
}

/// The page without the rest of a packet whose beginning isn't there.
fn behind_rest<'a>(page: &Page<'a>, joined: bool) -> Part<'a>
    ensures lacing { result.lacing.now ≡ (behind_rest joined page.now).lacing }
    ensures body { result.body.now ≡ (behind_rest joined page.now).body }
    ensures whole { sum result.lacing.now ≡ length result.body.now }
    ensures few { length result.lacing.now ≤ most_values }
{
    // For the proof alone.
    let _bytes = page.whole();
    if page.is_continued() && !joined {
        behind_values(page.lacing(), page.body(), front_values(page.lacing()))
    } else {
        Part {
            lacing: page.lacing(),
            body: page.body(),
        }
    }
}

/// What comes after the first lacing values and their bytes.
fn behind_values<'a>(lacing: &'a [u8], body: &'a [u8], count: usize) -> Part<'a>
    requires whole { sum lacing.now ≡ length body.now }
    requires few { length lacing.now ≤ most_values }
    requires within { count ≤ length lacing.now }
    ensures lacing { result.lacing.now ≡ drop count lacing.now }
    ensures body { result.body.now ≡ drop (sum (take count lacing.now)) body.now }
    ensures whole { sum result.lacing.now ≡ length result.body.now }
    ensures few { length result.lacing.now ≤ most_values }
{
    let (front, others) = lacing.split_at(count);
    Part {
        lacing: others,
        body: body.split_at(body_size(front)).1,
    }
}

/// The first lacing values and their bytes.
fn first_values<'a>(lacing: &'a [u8], body: &'a [u8], count: usize) -> Part<'a>
    requires whole { sum lacing.now ≡ length body.now }
    requires few { length lacing.now ≤ most_values }
    requires within { count ≤ length lacing.now }
    ensures lacing { result.lacing.now ≡ take count lacing.now }
    ensures body { result.body.now ≡ take (sum (take count lacing.now)) body.now }
    ensures whole { sum result.lacing.now ≡ length result.body.now }
    ensures few { length result.lacing.now ≤ most_values }
{
    let (front, _) = lacing.split_at(count);
    Part {
        lacing: front,
        body: body.split_at(body_size(front)).0,
    }
}

/// What is left of the page.
fn left_of<'a>(page: &Page<'a>, joined: bool) -> Part<'a>
    ensures lacing { result.lacing.now ≡ (mended joined page.now.sequence page.now).lacing }
    ensures body { result.body.now ≡ (mended joined page.now.sequence page.now).body }
    ensures whole { sum result.lacing.now ≡ length result.body.now }
    ensures few { length result.lacing.now ≤ most_values }
{
    let part = behind_rest(page, joined);
    if page.is_last() {
        first_values(part.lacing, part.body, whole_values(part.lacing))
    } else {
        part
    }
}

/// The page's flags: it begins with no continued packet, unless it is joined with the page before.
fn flags_of(page: &Page<'_>, joined: bool) -> u8
    ensures { result ≡ (mended joined page.now.sequence page.now).flags }
{
    if page.is_continued() && !joined {
        page.flags() - CONTINUED
    } else {
        page.flags()
    }
}

/// Appends what is left of the page, with this number. After `Memory` the vector is unchanged.
pub fn write_mended(
    page: &Page<'_>,
    joined: bool,
    number: u32,
    out: &mut Vec<u8>,
) -> Result<(), Memory>
    ensures ok { OnOk result (out.new.items ≡ out.old.items ++ page_bytes (mended joined number page.now)) }
    ensures full { OnErr result (vec_capacity out.old < vec_len out.old + longest_page) }
    ensures capacity { vec_capacity out.old ≤ vec_capacity out.new }
    ensures is_page { IsPage (mended joined number page.now) }
{
    // For the proof alone.
    let _bytes = page.whole();
    let part = left_of(page, joined);
    let head = PageHead {
        flags: flags_of(page, joined),
        position: page.position(),
        serial: page.serial(),
        sequence: number,
    };
    write_page(&head, part.lacing, part.body, out)
}

/// Appends the last page of a stream, with this position and this number. It holds no packet. After `Memory` the
/// vector is unchanged.
pub fn write_last(serial: u32, position: u64, number: u32, out: &mut Vec<u8>) -> Result<(), Memory>
    ensures ok { OnOk result (out.new.items ≡ out.old.items ++ page_bytes (last_page serial position number)) }
    ensures full { OnErr result (vec_capacity out.old < vec_len out.old + longest_page) }
    ensures capacity { vec_capacity out.old ≤ vec_capacity out.new }
    ensures is_page { IsPage (last_page serial position number) }
{
    let head = PageHead {
        flags: LAST,
        position,
        serial,
        sequence: number,
    };
    write_page(&head, &[], &[], out)
}

/// The page that was written there, and nothing else.
pub fn written_page(bytes: &[u8]) -> Page<'_>
    requires { (page : PageValue) × IsPage page × (bytes.now ≡ page_bytes page) }
    ensures { (page : PageValue) → IsPage page → bytes.now ≡ page_bytes page → result ≡ page }
{
    let (page, _) = split_known_page(bytes);
    page
}
