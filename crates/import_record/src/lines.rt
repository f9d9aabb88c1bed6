//! The lines of a recording.
ghost use Rattle.std.specs.Prelude.{◌≡◌};
ghost use Rattle.import_record.specs.Lines.{archived_line, progress_line, refused_line};

use ogg_command::Refusal;
use text_line::Line;

/// How far a recording has come. No count goes above the greatest `u64`.
#[derive(Clone, Copy, Debug, PartialEq, Eq)]
pub struct Totals {
    /// How many links were begun.
    pub links: u64,
    /// How many packets were put.
    pub packets: u64,
    /// How many bytes the pages of the file have that are on the disk.
    pub bytes: u64,
    /// How often something was mended.
    pub mends: u64,
}

/// The line that says that packets of the page at this offset are refused, with its line feed.
pub fn refused_line(refusal: Refusal, offset: u64) -> Line
    ensures { result.text ≡ refused_line refusal offset }
{
    let mut line = Line::new();
    line.put_number(offset);
    line.put_text(b" ");
    line.put_text(refusal.name().as_bytes());
    line.put_text(b" ");
    line.put_number(u64::from(refusal.code()));
    line.put_text(b"refused ");
    line
}

/// The line that says what a recording came to, with its line feed.
pub fn archived_line(totals: Totals) -> Line
    ensures { result.text ≡ archived_line totals }
{
    let mut line = Line::new();
    line.put_number(totals.mends);
    line.put_text(b" ");
    line.put_number(totals.bytes);
    line.put_text(b" ");
    line.put_number(totals.packets);
    line.put_text(b" ");
    line.put_number(totals.links);
    line.put_text(b"archived ");
    line
}

/// The line that tells how far a recording has come, with its line feed.
pub fn progress_line(totals: Totals) -> Line
    ensures { result.text ≡ progress_line totals }
{
    let mut line = Line::new();
    line.put_text(b" mends");
    line.put_number(totals.mends);
    line.put_text(b" bytes, ");
    line.put_number(totals.bytes);
    line.put_text(b" packets, ");
    line.put_number(totals.packets);
    line.put_text(b" links, ");
    line.put_number(totals.links);
    line
}
