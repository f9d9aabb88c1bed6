//! What always holds of pages.
ghost use Rattle.std.specs.Prelude.{◌≡◌, ◌≤◌, ◌++◌, List, ℕ, take};
ghost use Rattle.std.specs.Prelude.{Result};
ghost use Rattle.std.specs.Iterator.{Drains};
ghost use Rattle.ogg_page.specs.Page.{Page, IsPage, AreBytes, page_bytes};
ghost use Rattle.ogg_page.specs.Pages.{AreFoundIn, BeginsWithPages, FoundPage, NextPage, PagesLeft, found_in};
ghost use Rattle.ogg_page.specs.Window.{AreAll, IsRun, LentAt};
ghost use Rattle.ogg_page.specs.declared.fault.WindowFault.{WindowFault};
ghost use Rattle.ogg_page.specs.Reading.{page_at};
ghost use Rattle.ogg_page.specs.Sizes.{longest_page};

/// If two pages begin the same bytes, they are one page, and the same bytes follow. So the bytes of
/// no page are a proper prefix of another's.
pub fn page_bytes_are_prefix_free()
    ensures { (p q : Page) (x y : List ℕ) → IsPage p → IsPage q → page_bytes p ++ x ≡ page_bytes q ++ y → (p ≡ q) × (x ≡ y) }
{}

/// Bytes have one longest prefix that is joined pages, and it is joined from one list of pages.
pub fn longest_prefix_of_pages_is_unique()
    ensures { (bytes : List ℕ) (p q : List Page) (x y : List ℕ) → BeginsWithPages bytes p x → BeginsWithPages bytes q y → (p ≡ q) × (x ≡ y) }
{}

/// What [`Pages`](crate::Pages) returns for bytes, call by call up to the first `None`, are the
/// pages of their longest prefix, each with its offset, and then one fault if bytes remain.
pub fn pages_are_the_longest_prefix()
    ensures { (bytes : List ℕ) (found : List FoundPage) → Drains NextPage (record { offset = 0; bytes = bytes }) found → AreFoundIn bytes found }
{}

/// What is found from page to page in bytes is their longest prefix of pages, each with its offset,
/// and then one fault if bytes remain.
pub fn pages_are_found_in_turn()
    ensures { (bytes : List ℕ) → AreBytes bytes → AreFoundIn bytes (found_in 0 bytes) }
{}

/// No page is longer than 65,307 bytes, so the first 65,307 bytes, or all of them, show what stands
/// in front: the page, or the first fault.
pub fn page_shows_in_its_front()
    ensures { (n : ℕ) (bytes : List ℕ) → AreBytes (take n bytes) → longest_page ≤ n → page_at (take n bytes) ≡ page_at bytes }
{}

/// What a window lends, call by call up to its end or its first fault, is what is found in the
/// bytes of its range, with offsets in the source. If the source fails, it is what is found first.
pub fn lent_pages_are_those_found()
    ensures { (left : PagesLeft) (lent : List LentAt) (end : Result (Unit {0}) WindowFault) → IsRun left lent end → AreAll (found_in left.offset left.bytes) lent end }
{}
