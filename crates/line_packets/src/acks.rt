//! Which lines are safe.
ghost use Rattle.std.specs.Prelude.{◌≡◌, ◌+◌, ◌-◌, ◌^◌, Some, None, true, false, min, if◌then◌else◌};
ghost use Rattle.line_packets.specs.Acks.{is_due, kept_line};

use text_line::Line;

/// How many lines of a run have come, and how many of them are told to be safe.
#[derive(Clone, Copy, Debug, PartialEq, Eq)]
pub struct Acks {
    /// How many have come.
    pub taken: u64,
    /// How many were told.
    pub told: u64,
    /// Something was lost: no more is told.
    pub lost: bool,
}

impl Acks {
    /// No line has come.
    pub fn new() -> Acks
        ensures { result ≡ record { taken = 0; told = 0; lost = false } }
    {
        Acks {
            taken: 0,
            told: 0,
            lost: false,
        }
    }

    /// So many more lines were taken, and are recorded or left out.
    pub fn take(&mut self, lines: u64)
        ensures { self.new ≡ record self.old { taken = min (self.old.taken + lines) (2 ^ 64 - 1) } }
    {
        self.taken = self.taken.saturating_add(lines);
    }

    /// Something that was taken is lost.
    pub fn lose(&mut self)
        ensures { self.new ≡ record self.old { lost = true } }
    {
        self.lost = true;
    }

    /// So many commands wait for a commit, and the disk has failed or it hasn't: how many lines from the first on are to be
    /// told to be on the disk, if that is more than was told.
    pub fn due(&mut self, waiting: u64, failed: bool) -> Option<u64>
        ensures result { result ≡ (if is_due self.old waiting failed then Some self.old.taken else None) }
        ensures told { self.new ≡ (if is_due self.old waiting failed then record self.old { told = self.old.taken } else self.old) }
    {
        if waiting > 0 || failed || self.lost || self.taken == self.told {
            return None;
        }
        self.told = self.taken;
        Some(self.taken)
    }
}

/// The line that tells of it.
pub fn kept_line(lines: u64) -> Line
    ensures { result.text ≡ kept_line lines }
{
    let mut line = Line::new();
    line.put_number(lines);
    line.put_text(b"kept ");
    line
}
