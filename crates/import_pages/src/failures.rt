//! How often a reader has failed.
ghost use Rattle.std.specs.Prelude.{◌≡◌, Err, OnErr};
ghost use Rattle.std.specs.Io.{ReadsAtMost};
ghost use Rattle.std.specs.Io.KnownBytes.{ReadConsumes};
ghost use Rattle.import_pages.specs.Failures.{failures_after};

use crate::fault::PageReaderFault;
use std::io::Read;
use std::marker::Model;

/// How often reads have failed. No other module can raise the count, and it is raised only by a read that fails.
#[derive(Debug, Drop)]
pub(crate) struct Failures {
    count: u64,
}

impl Model for Failures {
    ghost use Rattle.std.specs.Prelude.{ℕ};

    ghost Value = { ℕ };

    ghost view = { λ f. f.count };
}

impl Failures {
    /// No read has failed.
    pub(crate) fn none() -> Failures
        ensures { result ≡ 0 }
    {
        Failures { count: 0 }
    }

    /// Reads once, as many bytes as come. An error of any kind is `Read`, is counted, and isn't tried again.
    pub(crate) fn read<R: Read>(
        &mut self,
        reader: &mut R,
        free: &mut [u8],
    ) -> Result<usize, PageReaderFault>
        ensures bound { ReadsAtMost result free.new }
        ensures bytes { ReadConsumes (R.remaining reader.old) (R.remaining reader.new) result free.new }
        ensures err { OnErr result (result ≡ Err PageReaderFault.Read) }
        ensures counted { self.new ≡ failures_after result self.old }
    {
        match reader.read(free) {
            Ok(count) => Ok(count),
            Err(_) => {
                self.count = self.count.saturating_add(1);
                Err(PageReaderFault::Read)
            }
        }
    }
}
