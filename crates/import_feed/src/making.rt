//! The feed of an input.
ghost use Rattle.std.specs.Prelude.{◌≡◌, ℕ, Bool, List, Option, IfOk, IfErr, true, false};
ghost use Rattle.std.specs.Io.KnownBytes.{Appends};
ghost use Rattle.feed_records.specs.Record.{announcement};
ghost use Rattle.import_changes.specs.declared.options.ChangeOptions.{ChangeOptions as OptionsOf};
ghost use Rattle.import_feed.specs.Making.{MakesFeed, Stops};
ghost use Rattle.import_feed.specs.Turn.{EndsWell, Finishes, GoesOn, IsStarted, TakesAll, of_input};

use crate::fault::MakingFault;
use crate::giving::announce;
use crate::made::Made;
use crate::maker::Maker;
use import_changes::ChangeOptions;
use import_gather::gathered_commands_hold_the_recording;
use std::alloc::Global;
use std::io::{Read, Write};

/// Writes the feed of an Ogg bitstream: the announcement of version 2, and then the records of the commands that add
/// up to what the input holds, changed as the options ask. What a page completes is written, and the writer flushed,
/// before the next read. At the end of the input or at its fault the commands that still wait are written first.
/// `Limit`, `Write` and `Memory` are the exceptions: after these nothing more is written.
pub fn make_feed<R: Read, W: Write>(
    alloc: Global,
    reader: &mut R,
    writer: &mut W,
    options: ChangeOptions,
) -> Result<Made, MakingFault>
    // The input is links with no packet unfinished, and the commands add up to what they hold, changed as asked.
    ensures made { IfOk result (λ made. MakesFeed options (R.remaining reader.old) (R.remaining reader.new)
        (W.contents writer.old) (W.contents writer.new) made) }
    // The input has this fault after the links that it begins with, and all whole packets of these links are written.
    ensures stopped { IfErr result (λ fault. Stops options fault (R.remaining reader.old) (R.remaining reader.new)
        (W.contents writer.old) (W.contents writer.new)) }
{
    match Maker::new(alloc, options) {
        Ok(mut maker) => make_of(&mut maker, reader, writer),
        Err(_) => Err(MakingFault::Memory),
    }
}

/// Takes the whole input, of which nothing was read.
fn make_of<R: Read, W: Write>(
    maker: &mut Maker,
    reader: &mut R,
    writer: &mut W,
) -> Result<Made, MakingFault>
    requires { GoesOn maker.old }
    ensures { (options : OptionsOf) → IsStarted options maker.old
        → Finishes options result (R.remaining reader.old) (R.remaining reader.new) (W.contents writer.old) (W.contents writer.new) }
{
    match announce(&mut maker.bytes, writer) {
        Ok(()) => {}
        Err(fault) => return Err(fault),
    }
    let outcome = take_all(maker, reader, writer);
    finish(maker, outcome, writer)
}

/// Takes all pages.
fn take_all<R: Read, W: Write>(
    maker: &mut Maker,
    reader: &mut R,
    writer: &mut W,
) -> Result<(), MakingFault>
    requires { GoesOn maker.old }
    ensures { (options : OptionsOf) (before : Option (List ℕ)) → IsStarted options maker.old
        → Appends before (W.contents writer.old) announcement → TakesAll options result (R.remaining reader.old) (R.remaining reader.new) before (W.contents writer.new) maker.new }
{
    for _ in 0..u64::MAX {
        match maker.turn(reader, writer) {
            Ok(true) => {}
            Ok(false) => return Ok(()),
            Err(fault) => return Err(fault),
        }
    }
    // This many pages aren't taken: each has bytes, and together they have fewer than 2^63.
    unreachable!()
}

/// Writes the commands that still wait, unless none may be written any more.
fn finish<W: Write>(
    maker: &mut Maker,
    outcome: Result<(), MakingFault>,
    writer: &mut W,
) -> Result<Made, MakingFault>
    ensures { (options : OptionsOf) (from left before : Option (List ℕ))
        → TakesAll options outcome from left before (W.contents writer.old) maker.old → Finishes options result from left before (W.contents writer.new) }
{
    match outcome {
        Ok(()) => finish_well(maker, writer),
        Err(fault) => {
            if is_of_input(fault) {
                match maker.close(writer) {
                    Ok(()) => Err(fault),
                    Err(other) => Err(other),
                }
            } else {
                Err(fault)
            }
        }
    }
}

/// Writes the commands that still wait at the end of the input.
fn finish_well<W: Write>(maker: &mut Maker, writer: &mut W) -> Result<Made, MakingFault>
    ensures { (options : OptionsOf) (from left before : Option (List ℕ))
        → EndsWell options from left before (W.contents writer.old) maker.old → Finishes options result from left before (W.contents writer.new) }
{
    // For the proof alone.
    gathered_commands_hold_the_recording();
    match maker.close(writer) {
        Ok(()) => {}
        Err(fault) => return Err(fault),
    }
    match maker.gatherer.unfinished() {
        Some(serial) => Err(MakingFault::Unfinished(maker.pages.offset(), serial)),
        None => Ok(maker.made),
    }
}

/// Whether it is the input that has the fault.
pub(crate) fn is_of_input(fault: MakingFault) -> bool
    ensures { result ≡ of_input fault }
{
    match fault {
        MakingFault::Page(_, _) => true,
        MakingFault::Chain(_, _) => true,
        MakingFault::PacketTooLong(_) => true,
        MakingFault::Unfinished(_, _) => true,
        MakingFault::TooLong(_) => true,
        MakingFault::Read(_) => true,
        MakingFault::Limit => false,
        MakingFault::Write => false,
        MakingFault::Memory => false,
    }
}
