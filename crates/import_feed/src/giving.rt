//! Commands written as records.
ghost use Rattle.std.specs.Prelude.{◌≡◌, [], ◌++◌, IfErr, OnOk, OnErr};
ghost use Rattle.std.specs.List.{AllByRecursion};
ghost use Rattle.std.specs.Io.KnownBytes.{Appends, Keeps};
ghost use Rattle.ogg_page.specs.Output.{WritesPrefix};
ghost use Rattle.feed_records.specs.Record.{announcement};
ghost use Rattle.import_feed.specs.Feed.{Fits, GivesNot, IsOwnFault, records_of};

use crate::fault::MakingFault;
use feed_records::{fits_record_2, write_command_2, write_version};
use ogg_command::Command;
use ogg_page::write_whole;
use std::io::Write;

/// Appends the record of each command. After a fault the records of some may stand there.
fn put_records(commands: &[Command], bytes: &mut Vec<u8>) -> Result<(), MakingFault>
    ensures ok { OnOk result ((bytes.new.items ≡ bytes.old.items ++ records_of commands.now) × AllByRecursion Fits commands.now) }
    ensures err { IfErr result (IsOwnFault commands.now) }
{
    for command in commands {
        if !fits_record_2(command) {
            return Err(MakingFault::Limit);
        }
        match write_command_2(command, bytes) {
            Ok(()) => {}
            Err(_) => return Err(MakingFault::Memory),
        }
    }
    Ok(())
}

/// Writes bytes, and has the writer pass them on.
fn write_out<W: Write>(bytes: &[u8], writer: &mut W) -> Result<(), MakingFault>
    ensures ok { OnOk result (Appends (W.contents writer.old) (W.contents writer.new) bytes.now) }
    ensures err { OnErr result ((result ≡ Err MakingFault.Write) × WritesPrefix (W.contents writer.old) (W.contents writer.new) bytes.now) }
{
    match write_whole(writer, bytes) {
        Ok(()) => {}
        Err(_) => return Err(MakingFault::Write),
    }
    match writer.flush() {
        Ok(()) => Ok(()),
        Err(_) => Err(MakingFault::Write),
    }
}

/// Writes the announcement of version 2.
pub(crate) fn announce<W: Write>(bytes: &mut Vec<u8>, writer: &mut W) -> Result<(), MakingFault>
    ensures ok { OnOk result (Appends (W.contents writer.old) (W.contents writer.new) announcement) }
    ensures err { IfErr result (GivesNot (W.contents writer.old) (W.contents writer.new) announcement []) }
{
    bytes.clear();
    match write_version(bytes) {
        Ok(()) => write_out(bytes, writer),
        Err(_) => Err(MakingFault::Memory),
    }
}

/// Writes the records of the commands. If there are none, the writer isn't used. `Memory` and `Limit`, which says that
/// a command is too long for a record, come before anything is written.
pub(crate) fn give<W: Write>(
    commands: &[Command],
    bytes: &mut Vec<u8>,
    writer: &mut W,
) -> Result<(), MakingFault>
    ensures ok { OnOk result (AllByRecursion Fits commands.now
        × Appends (W.contents writer.old) (W.contents writer.new) (records_of commands.now)) }
    ensures err { IfErr result (GivesNot (W.contents writer.old) (W.contents writer.new) (records_of commands.now) commands.now) }
{
    if commands.is_empty() {
        return Ok(());
    }
    bytes.clear();
    match put_records(commands, bytes) {
        Ok(()) => write_out(bytes, writer),
        Err(fault) => Err(fault),
    }
}
