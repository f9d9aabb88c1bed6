//! Where a byte first stands in a text.
ghost use Rattle.std.specs.Prelude.{◌≡◌, ◌==◌, not, position};

/// The first place of this byte.
pub fn place_of(byte: u8, text: &[u8]) -> Option<usize>
    ensures { result ≡ position (λ b. b == byte) text.now }
{
    text.iter().position(|b| *b == byte)
}

/// The first place of another byte than this one.
pub fn place_of_other(byte: u8, text: &[u8]) -> Option<usize>
    ensures { result ≡ position (λ b. not (b == byte)) text.now }
{
    text.iter().position(|b| *b != byte)
}
