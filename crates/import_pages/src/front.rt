//! The page at the front of bytes.
ghost use Rattle.std.specs.Prelude.{◌≡◌, ◌≢◌, MatchResult, Ok, Err, true, false};
ghost use Rattle.ogg_page.specs.Page.{AreBytes};
ghost use Rattle.ogg_page.specs.Reading.{page_at, fields_at};
ghost use Rattle.ogg_page.specs.Room.{BeginsWithPage};

use ogg_page::{FIXED_SIZE, Page, PageFault, read_header, read_page, split_known_page};

/// The size of the page at the front. The checksum is computed only if the whole page is there.
pub(crate) fn size_in_front(bytes: &[u8]) -> Result<usize, PageFault>
    ensures bytes { AreBytes bytes.now }
    ensures found { MatchResult result (λ size. BeginsWithPage bytes.now size) (λ fault. page_at bytes.now ≡ Err fault) }
{
    let page = read_page(bytes)?;
    Ok(page.whole().len())
}

/// The page that is known to be at the front. Its checksum isn't computed again.
pub(crate) fn known_page(bytes: &[u8]) -> Page<'_>
    requires { page_at bytes.now ≡ Ok (fields_at bytes.now) }
    ensures { result ≡ fields_at bytes.now }
{
    split_known_page(bytes).0
}

/// Whether no page is there for want of bytes.
pub(crate) fn is_short(fault: PageFault) -> bool
    ensures short { result ≡ true → fault ≡ PageFault.Short }
    ensures other { result ≡ false → fault ≢ PageFault.Short }
{
    match fault {
        PageFault::Short => true,
        PageFault::Pattern => false,
        PageFault::Version => false,
        PageFault::Checksum => false,
    }
}

/// Whether the bytes could be the beginning of a page, and end before it does. No checksum is computed.
pub(crate) fn wants_more(bytes: &[u8]) -> bool
    ensures yes { result ≡ true → page_at bytes.now ≡ Err PageFault.Short }
    ensures no { result ≡ false → page_at bytes.now ≢ Err PageFault.Short }
{
    match read_header(bytes) {
        Ok(header) => bytes.len() < FIXED_SIZE + header.values + header.body,
        Err(fault) => is_short(fault),
    }
}
