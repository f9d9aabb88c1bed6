//! What a program does beside recording.

use crate::damage::Damage;
use archive_folder::FileName;
use archive_times::Line;
use ogg_command::Refusal;

/// What a program does beside recording: it tells what becomes of files, and keeps their times. No fault of it stops the
/// recording.
pub trait Beside {
    /// The newest file was opened, of which this many bytes are committed: the last line of its times that is sound. What
    /// follows that line is cut off.
    fn opened(&mut self, file: FileName, committed: u64) -> Option<Line>;

    /// The file was begun. It has no times yet.
    fn begun(&mut self, file: FileName);

    /// This line is appended to the times of the file that was opened or begun last.
    fn timed(&mut self, line: Line);

    /// The file has ended, with so many bytes: nothing writes it again. Its times are synced, but nothing waits for that.
    fn ended(&mut self, file: FileName, bytes: u64);

    /// What waited in the newest file is lost, as its disk has failed when the input was read up to this offset, and this
    /// many bytes are committed.
    fn lost(&mut self, offset: u64, committed: u64);

    /// The end of a stream was refused for this when the input was read up to this offset: its file ends without it.
    fn refused(&mut self, offset: u64, refusal: Refusal);

    /// The file was thrown away, with its times.
    fn removed(&mut self, file: FileName);

    /// The file was to be thrown away, and that failed: it is there still, or will be after a stop. It isn't tried again
    /// until the archive is opened again.
    fn stays(&mut self, file: FileName);

    /// Two files have this number. Both are left exactly as they are.
    fn stands_twice(&mut self, number: u64);

    /// The file is left exactly as it is.
    fn damaged(&mut self, file: FileName, why: Damage);
}
