//! The line that tells how a station does.
ghost use Rattle.std.specs.Prelude.{◌≡◌};
ghost use Rattle.station_sources.specs.Lines.{air_text, station_line};

use text_line::Line;

/// How a station does.
#[derive(Clone, Copy, Debug, PartialEq, Eq)]
pub struct Shown {
    /// A source has the air.
    pub on_air: bool,
    /// How many connections hear what is recorded.
    pub listeners: u64,
    /// How many packets of sources were taken.
    pub packets: u64,
    /// How many bytes are committed.
    pub bytes: u64,
    /// How many steps have committed more in the last second.
    pub commits: u64,
}

fn air_text(on_air: bool) -> &'static [u8]
    ensures { result.now ≡ air_text on_air }
{
    if on_air { b"on air, " } else { b"off air, " }
}

/// The line that tells how a station does, with its line feed.
pub fn station_line(shown: Shown) -> Line
    ensures { result.text ≡ station_line shown }
{
    let mut line = Line::new();
    line.put_text(b" commits/s");
    line.put_number(shown.commits);
    line.put_text(b" bytes, ");
    line.put_number(shown.bytes);
    line.put_text(b" packets, ");
    line.put_number(shown.packets);
    line.put_text(b" listen, ");
    line.put_number(shown.listeners);
    line.put_text(air_text(shown.on_air));
    line
}
