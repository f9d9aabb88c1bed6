//! What is mended, told line by line.
ghost use Rattle.std.specs.Prelude.{⊤, ◌≡◌, ◌↔◌, ◌<◌, ◌≤◌, ◌+◌, ◌++◌, ◌∷◌, [], ◌⊎◌, length, true, false, vec_capacity};
ghost use Rattle.std.specs.List.{Contains};

use fault_lines::write_mend;
use import_feed::{Mend, Mends};
use std::alloc::Global;
use std::io::Write;

/// How many strangers are remembered.
const MOST_STRANGERS: usize = 1024;

/// Writes a line for each mend. A stream that the link hasn't is told by its first page alone.
#[derive(Drop)]
pub struct MendLines<W> {
    out: W,
    // the serials of the strangers that were told since the link began
    strangers: Vec<u32>,
}

impl<W: Write> MendLines<W> {
    /// No stream was told yet. It takes no memory.
    pub fn new(alloc: Global, out: W) -> MendLines<W>
        ensures { result.strangers.items ≡ [] }
    {
        MendLines {
            out,
            strangers: Vec::new(alloc),
        }
    }

    /// Whether the stream with this serial wasn't told yet. Where there is no room to remember it, it is told again.
    fn is_new(&mut self, serial: u32) -> bool
        ensures known { (result ≡ false) ↔ Contains self.old.strangers.items serial }
        ensures same { result ≡ false → self.new ≡ self.old }
        ensures noted { result ≡ true
            → (self.new.strangers.items ≡ self.old.strangers.items ++ (serial ∷ []))
            ⊎ ((self.new.strangers.items ≡ self.old.strangers.items)
            × ((1024 ≤ length self.old.strangers.items)
            ⊎ (vec_capacity self.old.strangers < length self.old.strangers.items + 1))) }
        ensures few { length self.old.strangers.items ≤ 1024 → length self.new.strangers.items ≤ 1024 }
    {
        if self.strangers.as_slice().contains(&serial) {
            return false;
        }
        if self.strangers.len() < MOST_STRANGERS {
            let _ = self.strangers.push(serial);
        }
        true
    }
}

impl<W: Write> Mends for MendLines<W> {
    ghost tells = { λ _ _ _. ⊤ };

    fn mended(&mut self, mend: &Mend) {
        if let Mend::Stranger { serial, .. } = mend {
            if !self.is_new(*serial) {
                return;
            }
        }
        // Nobody is told through a stream that is gone; the feed goes on.
        let _ = write_mend(mend, &mut self.out);
    }

    fn link_begun(&mut self) {
        self.strangers.clear();
    }
}
