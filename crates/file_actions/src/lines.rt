//! The lines of `list` and `verify`.
ghost use Rattle.std.specs.Prelude.{◌≡◌, ◌≤◌, ◌++◌, [], ℕ, List, OnOk, ◌-◌, length, take};
ghost use Rattle.file_actions.specs.Lines.{IsFileLine, IsGapLine, damaged_line, line_end, line_what, number_then, page_what, progress_line, tail_what, twice_line, verified_line, without_what};

use archive_clock::put_time;
use archive_reading::Span;
use ogg_page::Memory;
use text_line::Line;

/// A line of a word and one number.
fn one(word: &[u8], number: u64) -> Line
    requires { length word.now ≤ 60 }
    ensures { result.text ≡ word.now ++ number_then number line_end }
{
    let mut line = Line::new();
    line.put_number(number);
    line.put_text(b" ");
    line.put_text(word);
    line
}

/// A file's number, its times and its bytes, with a space after them.
fn file_front(number: u64, span: Span, bytes: u64) -> Line
    ensures { IsFileLine number span bytes [] result.text }
{
    let mut line = Line::new();
    line.put_text(b" ");
    line.put_number(bytes);
    line.put_text(b" ");
    put_time(&mut line, span.end);
    line.put_text(b" ");
    put_time(&mut line, span.begin);
    line.put_text(b" ");
    line.put_number(number);
    line.put_text(b"file ");
    line
}

/// All but the last byte.
pub(crate) fn without_last(text: &[u8]) -> &[u8]
    ensures { result.now ≡ take (length text.now - 1) text.now }
{
    match text {
        [front @ .., _] => front,
        [] => &[],
    }
}

/// Two texts and a line feed.
fn put_two(out: &mut Vec<u8>, front: &[u8], rest: &[u8]) -> Result<(), Memory>
    ensures { OnOk result (out.new.items ≡ out.old.items ++ (front.now ++ (rest.now ++ line_end))) }
{
    out.extend_from_slice(front)?;
    out.extend_from_slice(rest)?;
    out.extend_from_slice(b"\n")
}

/// Appends the line of a file. After `Memory` a part of it may stand there.
pub(crate) fn put_file(
    out: &mut Vec<u8>,
    number: u64,
    span: Span,
    bytes: u64,
    name: &[u8],
) -> Result<(), Memory>
    ensures { OnOk result ((line : List ℕ) × IsFileLine number span bytes name.now line
        × (out.new.items ≡ out.old.items ++ line)) }
{
    let front = file_front(number, span, bytes);
    match put_two(out, without_last(front.as_slice()), name) {
        Ok(()) => Ok(()),
        Err(memory) => Err(memory),
    }
}

/// The line of a time in which nothing was recorded.
pub(crate) fn gap_line(from: u64, to: u64) -> Line
    ensures { IsGapLine from to result.text }
{
    let mut line = Line::new();
    put_time(&mut line, to);
    line.put_text(b" ");
    put_time(&mut line, from);
    line.put_text(b"gap ");
    line
}

/// Appends the line that says what is wrong with a file. After `Memory` a part of it may stand there.
pub(crate) fn put_damaged(out: &mut Vec<u8>, name: &[u8], what: &[u8]) -> Result<(), Memory>
    ensures { OnOk result (out.new.items ≡ out.old.items ++ damaged_line name.now what.now) }
{
    out.extend_from_slice(b"damaged ")?;
    out.extend_from_slice(name)?;
    out.extend_from_slice(b" ")?;
    out.extend_from_slice(what)
}

/// Bytes follow the last page.
pub(crate) fn tail_what(end: u64, tail: u64) -> Line
    ensures { result.text ≡ tail_what end tail }
{
    let mut line = Line::new();
    line.put_number(tail);
    line.put_text(b" ");
    line.put_number(end);
    line.put_text(b"tail ");
    line
}

/// The file before isn't there.
pub(crate) fn without_what(number: u64) -> Line
    ensures { result.text ≡ without_what number }
{
    one(b"without", number)
}

/// At this byte of the times no line stands that may follow.
pub(crate) fn line_what(at: u64) -> Line
    ensures { result.text ≡ line_what at }
{
    one(b"line", at)
}

/// At this byte of the times stands a line whose offset is none between two pages.
pub(crate) fn page_what(at: u64) -> Line
    ensures { result.text ≡ page_what at }
{
    one(b"page", at)
}

/// Two files have the number.
pub(crate) fn twice_line(number: u64) -> Line
    ensures { result.text ≡ twice_line number }
{
    one(b"twice", number)
}

/// What `verify` came to.
#[derive(Clone, Copy, Debug, PartialEq, Eq)]
pub(crate) struct Counts {
    pub(crate) files: u64,
    pub(crate) links: u64,
    pub(crate) bytes: u64,
    pub(crate) faults: u64,
}

/// The closing line of `verify`.
pub(crate) fn verified_line(counts: Counts) -> Line
    ensures { result.text ≡ verified_line counts.files counts.links counts.bytes counts.faults }
{
    let mut line = Line::new();
    line.put_number(counts.faults);
    line.put_text(b" ");
    line.put_number(counts.bytes);
    line.put_text(b" ");
    line.put_number(counts.links);
    line.put_text(b" ");
    line.put_number(counts.files);
    line.put_text(b"verified ");
    line
}

/// How far `verify` has come.
pub(crate) fn progress_line(done: u64, total: u64, seconds: u64) -> Line
    ensures { result.text ≡ progress_line done total seconds }
{
    let mut line = Line::new();
    line.put_text(b" s left");
    line.put_number(seconds);
    line.put_text(b" bytes, ");
    line.put_number(total);
    line.put_text(b" of ");
    line.put_number(done);
    line
}
