//! The lines of `cut`.
ghost use Rattle.std.specs.Prelude.{◌≡◌, ◌++◌, List, ℕ, OnOk};
ghost use Rattle.file_actions.specs.CutLines.{IsCutLine, IsNothingLine, counts_text};
ghost use Rattle.file_actions.specs.Lines.{line_end};

use crate::lines::without_last;
use archive_clock::put_time;
use ogg_page::Memory;
use text_line::Line;

/// What is told of a cut: its times in milliseconds since 1970, and what is in it.
#[derive(Clone, Copy, Debug, PartialEq, Eq)]
pub(crate) struct Told {
    pub(crate) from: u64,
    pub(crate) to: u64,
    pub(crate) files: u64,
    pub(crate) links: u64,
    pub(crate) bytes: u64,
}

/// The times of a cut, with a space after them.
fn times_line(told: Told) -> Line
    ensures { IsCutLine told line_end result.text }
{
    let mut line = Line::new();
    line.put_text(b" ");
    put_time(&mut line, told.to);
    line.put_text(b" ");
    put_time(&mut line, told.from);
    line.put_text(b"cut ");
    line
}

/// What is in a cut.
fn counts_line(told: Told) -> Line
    ensures { result.text ≡ counts_text told }
{
    let mut line = Line::new();
    line.put_text(b" bytes");
    line.put_number(told.bytes);
    line.put_text(b" links ");
    line.put_number(told.links);
    line.put_text(b" files ");
    line.put_number(told.files);
    line
}

/// Appends two texts.
fn put_both(out: &mut Vec<u8>, front: &[u8], rest: &[u8]) -> Result<(), Memory>
    ensures { OnOk result (out.new.items ≡ out.old.items ++ (front.now ++ rest.now)) }
{
    out.extend_from_slice(front)?;
    out.extend_from_slice(rest)
}

/// Appends the line that says what is in a cut. After `Memory` a part of it may stand there.
pub(crate) fn put_cut(told: Told, out: &mut Vec<u8>) -> Result<(), Memory>
    ensures { OnOk result ((line : List ℕ) × IsCutLine told (counts_text told) line
        × (out.new.items ≡ out.old.items ++ line)) }
{
    let front = times_line(told);
    let counts = counts_line(told);
    match put_both(out, without_last(front.as_slice()), counts.as_slice()) {
        Ok(()) => Ok(()),
        Err(refused) => Err(refused),
    }
}

/// The line of a time in which nothing was recorded.
pub(crate) fn nothing_line(from: u64, to: u64) -> Line
    ensures { IsNothingLine from to result.text }
{
    let mut line = Line::new();
    put_time(&mut line, to);
    line.put_text(b" to ");
    put_time(&mut line, from);
    line.put_text(b"nothing from ");
    line
}
