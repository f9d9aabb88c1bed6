//! Where a window's bytes come from.
ghost use Rattle.std.specs.Prelude.{◌≡◌, ◌↔◌, ◌+◌, ◌≤◌, ℕ, List, length, take, drop, OnOk, IsOk};
ghost use Rattle.ogg_page.specs.Source.{HasCause};

use crate::fault::SourceFault;

/// Bytes that can be read piece by piece. What it says of the bytes holds if it is honest; that a
/// fault has a cause, and that a read only reads, holds always.
pub trait PageSource {
    /// The bytes that stand there.
    ghost bytes: { Self → List ℕ };

    /// How many bytes may be asked for.
    ghost size: { Self → ℕ };

    /// Its reads can be trusted.
    ghost is_honest: { Self → Type 0 };

    /// How often it has failed.
    ghost failures: { Self → ℕ };

    /// How a source may stand after reads, whether they failed or not.
    ghost only_reads: { Self → Self → Type 0 };

    /// How many bytes may be asked for.
    fn end(&self) -> u64
        ensures { result ≡ size self.now };

    /// Fills the buffer with what stands at `at`. After a fault the buffer may hold anything.
    fn read_at(&mut self, at: u64, buffer: &mut [u8]) -> Result<(), SourceFault>
        requires { at + length buffer.old ≤ size self.old }
        ensures read { OnOk result (is_honest self.old → buffer.new ≡ take (length buffer.old) (drop at (bytes self.old))) }
        ensures same { is_honest self.old → bytes self.new ≡ bytes self.old }
        ensures size { size self.new ≡ size self.old }
        ensures honest { is_honest self.old ↔ is_honest self.new }
        ensures only { only_reads self.old self.new }
        ensures cause { HasCause (failures self.old) (failures self.new) result };

    /// An honest source has as many bytes as may be asked for.
    ghost fits: { (source : Self) → is_honest source → length (bytes source) ≡ size source };

    /// A source that wasn't read at all counts as only read.
    ghost reads_nothing: { (source : Self) → only_reads source source };

    /// A source that was only read, and then only read again, was only read.
    ghost reads_on: { (first second third : Self) → only_reads first second → only_reads second third → only_reads first third };
}

/// Bytes that lie in memory as a whole. It never fails.
#[derive(Debug, Drop)]
pub struct Whole<'a> {
    bytes: &'a [u8],
}

impl<'a> Whole<'a> {
    /// A source of these bytes.
    pub fn of(bytes: &'a [u8]) -> Whole<'a>
        ensures { result.bytes.now ≡ bytes.now }
    {
        Whole { bytes }
    }
}

impl<'a> PageSource for Whole<'a> {
    ghost use Rattle.std.specs.Prelude.{◌≡◌, ◌↔◌, ◌+◌, ◌≤◌, ℕ, List, length, refl, take, drop, OnOk, IsOk};
    ghost use Rattle.std.proofs.Common.{◌∙◌};
    ghost use Rattle.ogg_page.specs.Source.{HasCause};

    ghost bytes = { λ w. w.bytes.now };

    ghost size = { λ w. length w.bytes.now };

    ghost is_honest = { λ w. Unit {0} };

    ghost failures = { λ w. 0 };

    ghost only_reads = { λ v w. v.bytes.now ≡ w.bytes.now };

    fn end(&self) -> u64 {
        self.bytes.len() as u64
    }

    fn read_at(&mut self, at: u64, buffer: &mut [u8]) -> Result<(), SourceFault>
        requires { at + length buffer.old ≤ length self.old.bytes.now }
        ensures ok { IsOk result }
        ensures read { OnOk result (Unit {0} → buffer.new ≡ take (length buffer.old) (drop at self.old.bytes.now)) }
        ensures same { self.new.bytes.now ≡ self.old.bytes.now }
        ensures honest { Unit {0} ↔ Unit {0} }
        ensures cause { HasCause 0 0 result }
    {
        let (_, rest) = self.bytes.split_at(at as usize);
        buffer.copy_from_slice(rest.split_at(buffer.len()).0);
        Ok(())
    }

    ghost fits = { λ w h. refl };

    ghost reads_nothing = { λ w. refl };

    ghost reads_on = { λ u v w first second. first ∙ second };
}
