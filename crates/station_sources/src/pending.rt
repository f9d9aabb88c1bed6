//! What has come of a source, and isn't recorded yet.
ghost use Rattle.std.specs.Prelude.{◌≡◌, ◌↔◌, true};
ghost use Rattle.station_sources.specs.Pending.{HasCome};

use crate::air::OnAir;

impl OnAir {
    /// Whether bytes of the source have come that aren't recorded yet, and may be now.
    pub fn has_come(&self) -> bool
        ensures { (result ≡ true) ↔ HasCome self.now }
    {
        !self.import.waits() || self.decoded > 0 || (!self.starved && self.at < self.pending.len())
    }
}
