//! Where pages end, found by their heads.
ghost use Rattle.std.specs.Prelude.{◌≡◌, ◌↔◌, ◌+◌, ◌-◌, ◌^◌, ◌<◌, ◌≤◌, ℕ, List, Ok, length, take, drop, IfOk, IsErr};
ghost use Rattle.ogg_page.specs.Head.{Stands};
ghost use Rattle.ogg_page.specs.Page.{Page as PageOf, page_size};
ghost use Rattle.ogg_page.specs.Window.{KeepsSource, HasFailed};
ghost use Rattle.gate_file.specs.Commit.{IsTail};
ghost use Rattle.archive_reading.specs.Ends.{EndsFrom};

use ogg_page::{PageSource, SourceFault};
use page_heads::read_front;

/// The byte with which a page begins, and a closed byte is any other.
const CAPTURE: u8 = 0x4F;

/// What stands at a place.
#[derive(Clone, Copy, Debug, PartialEq, Eq)]
enum At {
    /// A page, which ends here.
    Page(u64),
    /// What may follow the committed bytes.
    Tail,
}

/// What stands at a place, by the head of the page that begins there.
fn at_place<S: PageSource>(source: &mut S, place: u64) -> Result<At, SourceFault>
    requires { place < S.size source.old }
    ensures page { (page : PageOf) → S.is_honest source.old → Stands (drop place (S.bytes source.old)) page
        → IfOk result (λ at. at ≡ At.Page (place + page_size page)) }
    ensures tail { S.is_honest source.old → IsTail (drop place (S.bytes source.old)) → IfOk result (λ at. at ≡ At.Tail) }
    ensures page_cause { (page : PageOf) → S.is_honest source.old → Stands (drop place (S.bytes source.old)) page → IsErr result
        → HasFailed (S.failures source.old) (S.failures source.new) }
    ensures tail_cause { S.is_honest source.old → IsTail (drop place (S.bytes source.old)) → IsErr result
        → HasFailed (S.failures source.old) (S.failures source.new) }
    ensures inside { (behind : ℕ) → result ≡ Ok (At.Page behind) → (place < behind) × (behind ≤ S.size source.old) }
    ensures later { S.failures source.old ≤ S.failures source.new }
    ensures source { KeepsSource S.bytes S.is_honest S.size S.only_reads source.old source.new }
{
    let mut byte = [0];
    source.read_at(place, &mut byte)?;
    // A stop may leave exactly one byte after the committed ones, whatever it is.
    if byte[0] != CAPTURE || source.end() - place == 1 {
        return Ok(At::Tail);
    }
    match read_front(source, place) {
        Ok(front) => Ok(At::Page(place + front.facts.size)),
        Err(fault) => Err(fault),
    }
}

/// Where the pages end that stand from this place on, found by their heads. Their bodies aren't read.
///
/// It is `SourceFault` if a read fails, and where neither a page stands nor what may follow the committed bytes.
pub fn end_from<S: PageSource>(source: &mut S, from: u64) -> Result<u64, SourceFault>
    ensures ends { (end : ℕ) → S.is_honest source.old → EndsFrom (S.bytes source.old) from end → IfOk result (λ found. found ≡ end) }
    ensures cause { (end : ℕ) → S.is_honest source.old → EndsFrom (S.bytes source.old) from end → IsErr result
        → HasFailed (S.failures source.old) (S.failures source.new) }
    ensures inside { IfOk result (λ end. (from ≤ end) × (end ≤ S.size source.old)) }
    ensures later { S.failures source.old ≤ S.failures source.new }
    ensures source { KeepsSource S.bytes S.is_honest S.size S.only_reads source.old source.new }
{
    let size = source.end();
    if from > size {
        return Err(SourceFault);
    }
    let mut place = from;
    while place < size {
        match at_place(source, place) {
            Ok(At::Page(behind)) => place = behind,
            Ok(At::Tail) => return Ok(place),
            Err(fault) => return Err(fault),
        }
    }
    Ok(place)
}
