//! What is known of a stream's end while its pages are read.
ghost use Rattle.std.specs.Prelude.{◌≡◌, map};
ghost use Rattle.ogg_finish.specs.Ends.{after_page, mark_for};
ghost use Rattle.ogg_finish.specs.Finishing.{is_full, mark_after, mark_on, repeats};

use ogg_page::Page;

/// The page that is to be marked as its stream's last.
#[derive(Clone, Copy, Debug, PartialEq, Eq)]
pub struct Mark {
    /// The page's number within its stream.
    pub sequence: u32,
    /// The page's position.
    pub position: u64,
}

/// What is known of a stream by some of its pages.
#[derive(Clone, Copy, Debug, Default, PartialEq, Eq)]
pub struct StreamEnd {
    /// The serial number that its pages have.
    pub serial: u32,
    /// Whether it has a page that is marked as its last.
    pub ended: bool,
    /// Where the mark is to stand, if the stream has ended.
    pub mark: Option<Mark>,
}

/// Notes one page more.
pub fn note_page(ends: &mut [StreamEnd], page: &Page<'_>)
    ensures { ends.new ≡ map (after_page page.now) ends.old }
{
    for end in ends.iter_mut() {
        *end = after_page(*end, page);
    }
}

/// What is known of the stream after the page, if it is one of its own.
fn after_page(end: StreamEnd, page: &Page<'_>) -> StreamEnd
    ensures { result ≡ after_page page.now end }
{
    if page.serial() != end.serial {
        return end;
    }
    StreamEnd {
        serial: end.serial,
        ended: end.ended || page.is_last(),
        mark: mark_after(end.mark, page),
    }
}

/// Where the mark is to stand after the page.
fn mark_after(found: Option<Mark>, page: &Page<'_>) -> Option<Mark>
    ensures { result ≡ mark_after found page.now }
{
    if is_full(page) {
        return Some(mark_on(page));
    }
    match found {
        Some(mark) => {
            if repeats(mark, page) {
                Some(mark)
            } else {
                None
            }
        }
        None => None,
    }
}

/// Whether the page can carry the mark.
fn is_full(page: &Page<'_>) -> bool
    ensures { result ≡ is_full page.now }
{
    !page.lacing().is_empty() && !page.is_first()
}

fn mark_on(page: &Page<'_>) -> Mark
    ensures { result ≡ mark_on page.now }
{
    Mark {
        sequence: page.sequence(),
        position: page.position(),
    }
}

/// Whether the page has no other position than the marked one.
fn repeats(mark: Mark, page: &Page<'_>) -> bool
    ensures { result ≡ repeats mark page.now }
{
    page.position() == mark.position || page.position() == u64::MAX
}

/// Where the mark of the stream with this serial is to stand.
pub fn mark_for(ends: &[StreamEnd], serial: u32) -> Option<Mark>
    ensures { result ≡ mark_for ends.now serial }
{
    let mut rest = ends;
    while let Some((end, others)) = rest.split_first() {
        if end.serial == serial {
            return if end.ended { end.mark } else { None };
        }
        rest = others;
    }
    None
}
