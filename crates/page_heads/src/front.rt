//! The head of a page in a source, read without the rest of the page.
ghost use Rattle.std.specs.Prelude.{◌≡◌, ◌+◌, ◌^◌, ◌<◌, ◌≤◌, ℕ, List, Some, length, take, drop, IfOk, IsErr};
ghost use Rattle.ogg_page.specs.Page.{Page};
ghost use Rattle.ogg_page.specs.Window.{KeepsSource, HasFailed};
ghost use Rattle.ogg_page.specs.Head.{Stands, head_size};
ghost use Rattle.page_heads.specs.Fronts.{IsFrontOf, facts_of};
ghost use Rattle.page_heads.specs.declared.front.PageFacts.{PageFacts as FactsOf};

use ogg_page::{FIXED_SIZE, MOST_VALUES, PageSource, SourceFault, read_header};

/// The length of the longest head, with its lacing values.
pub const LONGEST_HEAD: usize = FIXED_SIZE + MOST_VALUES;

/// What a page's head says of the page.
#[derive(Clone, Copy, Debug, PartialEq, Eq)]
pub struct PageFacts {
    /// Whether it is a stream's first page.
    pub begins: bool,
    /// Whether it is a stream's last page.
    pub ends: bool,
    pub serial: u32,
    pub number: u32,
    pub checksum: u32,
    /// The length of the head, with the lacing values.
    pub len: usize,
    /// The length of the page.
    pub size: u64,
}

/// What a page's head says of the page. The bytes begin with the head, and what follows it isn't read.
pub fn facts_of(head: &[u8]) -> Option<PageFacts>
    ensures told { (bytes : List ℕ) (page : Page) (n : ℕ) → Stands bytes page → head_size page ≤ n → head.now ≡ take n bytes
        → result ≡ Some (facts_of page) }
    ensures bounds { (facts : FactsOf) → result ≡ Some facts → (27 ≤ facts.len) × (facts.len ≤ length head.now) × (facts.len ≤ facts.size) }
{
    let header = read_header(head).ok()?;
    let len = FIXED_SIZE + header.values;
    Some(PageFacts {
        begins: header.head.flags / 2 % 2 == 1,
        ends: header.head.flags / 4 % 2 == 1,
        serial: header.head.serial,
        number: header.head.sequence,
        checksum: header.checksum,
        len,
        size: (len + header.body) as u64,
    })
}

/// The first bytes of a page with its whole head, and what the head says.
#[derive(Clone, Copy, Debug)]
pub struct PageFront {
    pub bytes: [u8; LONGEST_HEAD],
    pub facts: PageFacts,
}

/// Reads the head of the page at the place.
pub fn read_front<S: PageSource>(source: &mut S, place: u64) -> Result<PageFront, SourceFault>
    ensures read { (page : Page) → S.is_honest source.old → Stands (drop place (S.bytes source.old)) page
        → IfOk result (λ front. IsFrontOf page front) }
    ensures cause { (page : Page) → S.is_honest source.old → Stands (drop place (S.bytes source.old)) page → IsErr result
        → HasFailed (S.failures source.old) (S.failures source.new) }
    ensures inside { IfOk result (λ front. (place + front.facts.size ≤ S.size source.old) × (place + front.facts.size < 2 ^ 64)) }
    ensures some { IfOk result (λ front. (27 ≤ front.facts.len) × (front.facts.len ≤ front.facts.size) × (front.facts.len ≤ 282)) }
    ensures later { S.failures source.old ≤ S.failures source.new }
    ensures source { KeepsSource S.bytes S.is_honest S.size S.only_reads source.old source.new }
{
    let end = source.end();
    if place >= end {
        return Err(SourceFault);
    }
    let mut bytes = [0; LONGEST_HEAD];
    let count = (end - place).min(LONGEST_HEAD as u64) as usize;
    let (front, _) = bytes.split_at_mut(count);
    match source.read_at(place, front) {
        Ok(()) => match facts_of(front) {
            Some(facts) => {
                if facts.size > end - place {
                    return Err(SourceFault);
                }
                Ok(PageFront { bytes, facts })
            }
            None => Err(SourceFault),
        },
        Err(fault) => Err(fault),
    }
}
