//! The feed of any input, which is mended.
ghost use Rattle.std.specs.Prelude.{◌≡◌, [], ℕ, List, Option, IfOk, IfErr};
ghost use Rattle.std.specs.Io.KnownBytes.{Appends};
ghost use Rattle.feed_records.specs.Record.{announcement};
ghost use Rattle.import_mend.specs.declared.import.Import.{Import as ImportOf};
ghost use Rattle.import_changes.specs.declared.options.ChangeOptions.{ChangeOptions as OptionsOf};
ghost use Rattle.import_feed.specs.Mending.{FinishesMended, IsMendingStart, MendsFeed, StillMends, StopsMended, TakesAllMended};

use crate::fault::MakingFault;
use crate::giving::announce;
use crate::made::Made;
use crate::making::is_of_input;
use crate::mending::Mending;
use crate::telling::Mends;
use import_changes::ChangeOptions;
use std::alloc::Global;
use std::io::{Read, Take, Write};

/// Writes a feed of any input: pages that have no place in a sound chain are mended or left out, and each mend is told
/// to `mends` before the next page is read. The feed is the announcement of version 2, and then the records of the
/// commands that an `Import` gives, changed as the options ask. What a page completes is written, and the writer
/// flushed, before the next read. At the end of the input, or if the reader fails, the open streams are ended, and the
/// commands that still wait are written first. The faults are `Read`, after so many bytes of the input, `Limit`,
/// `Write` and `Memory`; after the last three nothing more is written. An input that needs no mending gets the feed that
/// `make_feed` makes of it.
pub fn make_mended_feed<R: Read, W: Write, M: Mends>(
    alloc: Global,
    reader: &mut R,
    writer: &mut W,
    mends: &mut M,
    options: ChangeOptions,
) -> Result<Made, MakingFault>
    // The input has ended. All mends of the steps are told, and all commands that the steps gave are written.
    ensures made { IfOk result (λ made. MendsFeed M.tells options (W.contents writer.old) (W.contents writer.new) mends.old mends.new made) }
    // The reader has failed, and the same holds; or the feed was written in part.
    ensures stopped { IfErr result (λ fault. StopsMended M.tells options fault (W.contents writer.old) (W.contents writer.new) mends.old mends.new) }
{
    match Mending::new(alloc, options) {
        Ok(mut mending) => mend_input(&mut mending, reader, writer, mends),
        Err(_) => Err(MakingFault::Memory),
    }
}

/// Mends the whole input, of which nothing was read.
fn mend_input<R: Read, W: Write, M: Mends>(
    mending: &mut Mending,
    reader: &mut R,
    writer: &mut W,
    mends: &mut M,
) -> Result<Made, MakingFault>
    ensures { (options : OptionsOf) → IsMendingStart options mending.old
        → FinishesMended M.tells options result (W.contents writer.old) (W.contents writer.new) mends.old mends.new }
{
    match announce(&mut mending.bytes, writer) {
        Ok(()) => {}
        Err(fault) => return Err(fault),
    }
    let mut counted = reader.by_ref().take(u64::MAX);
    let outcome = mend_all(mending, &mut counted, writer, mends);
    finish_mended(mending, outcome, writer, mends)
}

/// Takes all steps.
fn mend_all<R: Read, W: Write, M: Mends>(
    mending: &mut Mending,
    reader: &mut Take<R>,
    writer: &mut W,
    mends: &mut M,
) -> Result<(), MakingFault>
    ensures { (options : OptionsOf) (before : Option (List ℕ)) (unaware : M)
        → StillMends M.tells options before (W.contents writer.old) unaware mends.old mending.old.import mending.old
        → TakesAllMended M.tells options result before (W.contents writer.new) unaware mends.new mending.new }
{
    for _ in 0..u64::MAX {
        match mending.turn(reader, writer, mends) {
            Ok(true) => {}
            Ok(false) => return Ok(()),
            Err(fault) => return Err(fault),
        }
    }
    // No reader has so many pages.
    Err(MakingFault::TooLong(u64::MAX))
}

/// Finishes the import, unless nothing may be written any more.
fn finish_mended<W: Write, M: Mends>(
    mending: &mut Mending,
    outcome: Result<(), MakingFault>,
    writer: &mut W,
    mends: &mut M,
) -> Result<Made, MakingFault>
    ensures { (options : OptionsOf) (before : Option (List ℕ)) (unaware : M)
        → TakesAllMended M.tells options outcome before (W.contents writer.old) unaware mends.old mending.old
        → FinishesMended M.tells options result before (W.contents writer.new) unaware mends.new }
{
    match outcome {
        Ok(()) => match mending.close(writer, mends) {
            Ok(()) => Ok(mending.made),
            Err(fault) => Err(fault),
        },
        Err(fault) => {
            if is_of_input(fault) {
                match mending.close(writer, mends) {
                    Ok(()) => Err(fault),
                    Err(other) => Err(other),
                }
            } else {
                Err(fault)
            }
        }
    }
}
