//! The lines of a station: where it can be reached, and those of its log that tell of its sources.
ghost use Rattle.std.specs.Prelude.{◌≡◌, ◌≤◌, length};
ghost use Rattle.serve_actions.specs.Lines.{begin_line, end_line, foreign_line, serving_line};

use text_line::Line;

/// What a source came to.
#[derive(Clone, Copy)]
pub(crate) struct SourceCounts {
    /// Which source of this run it was.
    pub(crate) number: u64,
    /// How many links of it were begun.
    pub(crate) links: u64,
    /// How many packets of it were taken.
    pub(crate) packets: u64,
    /// How often something of it was mended.
    pub(crate) mends: u64,
}

/// The line that tells that the station can be reached at this address.
pub(crate) fn serving_line(address: &[u8]) -> Line
    requires { length address.now ≤ 64 }
    ensures { result.text ≡ serving_line address.now }
{
    let mut line = Line::new();
    line.put_text(b"/");
    line.put_text(address);
    line.put_text(b"serving http://");
    line
}

/// The line that tells that the source with this number has begun, which comes from this address.
pub(crate) fn begin_line(number: u64, address: &[u8]) -> Line
    requires { length address.now ≤ 64 }
    ensures { result.text ≡ begin_line number address.now }
{
    let mut line = Line::new();
    line.put_text(b" begins");
    line.put_text(address);
    line.put_text(b" ");
    line.put_number(number);
    line.put_text(b"source ");
    line
}

/// The line that tells that what comes from this address isn't Ogg.
pub(crate) fn foreign_line(address: &[u8]) -> Line
    requires { length address.now ≤ 64 }
    ensures { result.text ≡ foreign_line address.now }
{
    let mut line = Line::new();
    line.put_text(b" sends no Ogg");
    line.put_text(address);
    line.put_text(b"fault archive 4 NoPage: ");
    line
}

/// The line that tells that this source has ended.
pub(crate) fn end_line(source: SourceCounts) -> Line
    ensures { result.text ≡ end_line source }
{
    let mut line = Line::new();
    line.put_number(source.mends);
    line.put_text(b" ");
    line.put_number(source.packets);
    line.put_text(b" ");
    line.put_number(source.links);
    line.put_text(b" ends ");
    line.put_number(source.number);
    line.put_text(b"source ");
    line
}
