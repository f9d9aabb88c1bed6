//! What always holds of pages that are read.
ghost use Rattle.std.specs.Prelude.{◌≡◌, ◌≢◌, ◌+◌, ◌<◌, ◌++◌, ◌^◌, List, None, Some, Err, Result, length, ℕ};
ghost use Rattle.ogg_page.specs.Pages.{found_in};
ghost use Rattle.ogg_page.specs.Window.{LentAt};
ghost use Rattle.ogg_page.specs.Reading.{page_at};
ghost use Rattle.ogg_page.specs.declared.fault.PageFault.{PageFault as Fault};
ghost use Rattle.import_pages.specs.Reader.{AreAll, IsRun, ReaderState};
ghost use Rattle.import_pages.specs.declared.fault.PageReaderFault.{PageReaderFault};

use ogg_page::PageFault;

/// What is wrong with bytes that are long enough to show it stays wrong, whatever follows them.
pub fn definite_faults_stay()
    ensures { (bytes more : List ℕ) (fault : Fault) → fault ≢ PageFault.Short → page_at bytes ≡ Err fault
        → page_at (bytes ++ more) ≡ Err fault }
{}

/// What a page reader lends, call by call up to its end or its first fault, is what is found in the bytes that it
/// holds and then in the reader's, however the reads cut them. If the reader fails, it is what is found first.
pub fn pages_of_any_reads_are_those_found()
    ensures { (state : ReaderState) (bytes : List ℕ) (lent : List LentAt) (end : Result (Unit {0}) PageReaderFault) (last : ReaderState) →
        state.offset + length (state.unread ++ bytes) < 2 ^ 64 → IsRun state (Some bytes) lent end last
        → AreAll (found_in state.offset (state.unread ++ bytes)) lent end last.offset }
{}
