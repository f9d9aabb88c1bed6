//! How times are told.
ghost use Rattle.std.specs.Prelude.{◌≡◌};
ghost use Rattle.station_hub.specs.Telling.{in_seconds};

/// Whole seconds.
pub fn in_seconds(milliseconds: u64) -> u64
    ensures { result ≡ in_seconds milliseconds }
{
    milliseconds / 1000
}
