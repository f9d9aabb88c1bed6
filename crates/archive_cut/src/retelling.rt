//! A page under another serial, with another number.
ghost use Rattle.std.specs.Prelude.{◌≡◌, true};
ghost use Rattle.ogg_page.specs.Head.{header_of};
ghost use Rattle.ogg_page.specs.Page.{Page, IsPage, page_bytes};
ghost use Rattle.serve_live.specs.Renaming.{retold};

use ogg_page::{PageHeader, put_names, read_header};
use serve_live::names_change;

/// Whether the page has this serial and this number already.
fn is_named(header: &PageHeader, serial: u32, number: u32) -> bool
    ensures { (page : Page) → header.now ≡ header_of page → result ≡ true → retold serial number page ≡ page }
{
    header.head.serial == serial && header.head.sequence == number
}

/// Puts a serial and a number into the bytes of a page, with the checksum that the page has then. No byte of its lacing
/// values or its body is read for it.
pub fn retell(page: &mut [u8], serial: u32, number: u32)
    ensures { (whole : Page) → IsPage whole → page.old ≡ page_bytes whole → page.new ≡ page_bytes (retold serial number whole) }
{
    let size = page.len() as u64;
    if let Ok(header) = read_header(page) {
        if is_named(&header, serial, number) {
            return;
        }
        let change = names_change(
            header.head.serial,
            header.head.sequence,
            serial,
            number,
            size,
        );
        put_names(page, serial, number, header.checksum ^ change);
    }
}
