//! The head of a page, as it is heard.
ghost use Rattle.std.specs.Prelude.{◌≡◌, ◌+◌, ◌^◌, ◌<◌, ◌≤◌, ℕ, drop, length, take, IfOk, IsErr};
ghost use Rattle.ogg_page.specs.Page.{IsPage, Page, page_bytes};
ghost use Rattle.ogg_page.specs.Window.{KeepsSource};
ghost use Rattle.serve_live.specs.Names.{name_in};
ghost use Rattle.serve_live.specs.Listening.{HasFailed};
ghost use Rattle.ogg_page.specs.Head.{Stands};
ghost use Rattle.page_heads.specs.Fronts.{IsFrontOf, facts_of};
ghost use Rattle.serve_live.specs.Heads.{IsHeadOf, next_heard};

use crate::checksums::names_change;
use crate::names::{StreamName, name_in, number_heard};
use ogg_page::{PageSource, SourceFault, put_names};
use page_heads::{LONGEST_HEAD, PageFacts, PageFront, read_front};

/// The head of a page as it is heard, with the lacing values.
#[derive(Clone, Copy, Debug)]
pub struct HeardHead {
    pub bytes: [u8; LONGEST_HEAD],
    pub begins: bool,
    pub len: usize,
    pub size: u64,
}

/// Puts the serial, the number and the checksum that are heard into the first bytes of a page, of which this is said.
pub fn put_heard(facts: PageFacts, names: &[StreamName], bytes: &mut [u8])
    requires { (26 ≤ facts.size) × (26 ≤ length bytes.old) }
    ensures heard { (page : Page) (n : ℕ) → IsPage page → facts ≡ facts_of page → 26 ≤ n
        → take n bytes.old ≡ take n (page_bytes page) → take n bytes.new ≡ take n (page_bytes (next_heard (name_in names.now) page)) }
    ensures behind { drop 26 bytes.new ≡ drop 26 bytes.old }
{
    if facts.begins {
        return;
    }
    let stream = name_in(names, facts.serial);
    let number = number_heard(stream, u64::from(facts.number));
    if stream.name != facts.serial || number != facts.number {
        let change = names_change(facts.serial, facts.number, stream.name, number, facts.size);
        put_names(bytes, stream.name, number, facts.checksum ^ change);
    }
}

/// The head with the serial, the number and the checksum that are heard.
fn heard_head(front: PageFront, names: &[StreamName]) -> HeardHead
    requires { (27 ≤ front.facts.len) × (front.facts.len ≤ front.facts.size) × (front.facts.len ≤ 282) }
    ensures told { (page : Page) → IsFrontOf page front → IsHeadOf (name_in names.now) page result }
    ensures same { (result.len ≡ front.facts.len) × (result.size ≡ front.facts.size) }
{
    let facts = front.facts;
    let mut bytes = front.bytes;
    put_heard(facts, names, &mut bytes);
    HeardHead {
        bytes,
        begins: facts.begins,
        len: facts.len,
        size: facts.size,
    }
}

/// Reads the head of the page at the place, as it is heard.
pub fn read_head<S: PageSource>(
    source: &mut S,
    place: u64,
    names: &[StreamName],
) -> Result<HeardHead, SourceFault>
    ensures read { (page : Page) → S.is_honest source.old → Stands (drop place (S.bytes source.old)) page
        → IfOk result (λ head. IsHeadOf (name_in names.now) page head) }
    ensures cause { (page : Page) → S.is_honest source.old → Stands (drop place (S.bytes source.old)) page → IsErr result
        → HasFailed (S.failures source.old) (S.failures source.new) }
    ensures inside { IfOk result (λ head. (place + head.size ≤ S.size source.old) × (place + head.size < 2 ^ 64)) }
    ensures some { IfOk result (λ head. (27 ≤ head.len) × (head.len ≤ head.size) × (head.len ≤ 282)) }
    ensures later { S.failures source.old ≤ S.failures source.new }
    ensures source { KeepsSource S.bytes S.is_honest S.size S.only_reads source.old source.new }
{
    match read_front(source, place) {
        Ok(front) => Ok(heard_head(front, names)),
        Err(fault) => Err(fault),
    }
}
