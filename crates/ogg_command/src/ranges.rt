//! That a command's numbers are in their fields' ranges, as its types have it. A call goes over each part of the
//! command, and over none of its bytes.
ghost use Rattle.std.specs.Prelude.{◌<◌, ◌^◌, FitsSigned};
ghost use Rattle.std.specs.List.{AllByRecursion};
ghost use Rattle.std.specs.Int.{w64};
ghost use Rattle.ogg_page.specs.Numbers.{IsFraction};
ghost use Rattle.ogg_page.specs.Page.{IsByte};
ghost use Rattle.ogg_command.specs.Command.{IsCommand, IsSkeletonHead, IsNewStream, IsEntry, AreFieldBytes};

use crate::command::{Command, Entry, NewStream, SkeletonHead};
use crate::listed::Listed;
use skeleton3::Field;

/// Each number of a command is in its field's range.
pub fn command_is_in_range(command: &Command)
    ensures { IsCommand command.now }
{
    match command {
        Command::Begin(begin) => {
            if let Some(head) = begin.skeleton {
                head_is_in_range(head);
            }
            streams_are_in_range(begin.streams.as_slice());
        }
        Command::Put(put) => entries_are_in_range(put.entries.as_slice()),
        Command::End(serial) => serial_is_in_range(*serial),
    }
}

fn serial_is_in_range(serial: u32)
    ensures { serial < 2 ^ 32 }
{}

fn position_is_in_range(position: u64)
    ensures { position < 2 ^ 64 }
{}

fn granule_is_in_range(granule: i64)
    ensures { FitsSigned w64 granule }
{}

fn fraction_is_in_range(fraction: (i64, i64))
    ensures { IsFraction fraction }
{
    granule_is_in_range(fraction.0);
    granule_is_in_range(fraction.1);
}

fn byte_is_in_range(byte: u8)
    ensures { IsByte byte }
{}

fn bytes_are_in_range(bytes: &[u8])
    ensures { AllByRecursion IsByte bytes.now }
{}

fn list_is_in_range(list: &Listed<u8>)
    ensures { AllByRecursion IsByte list.now }
{
    bytes_are_in_range(list.as_slice());
}

fn head_is_in_range(head: SkeletonHead)
    ensures { IsSkeletonHead head }
{
    serial_is_in_range(head.serial);
    fraction_is_in_range(head.presentation);
    fraction_is_in_range(head.base);
    bytes_are_in_range(&head.utc);
}

fn entry_is_in_range(entry: &Entry)
    ensures { IsEntry entry.now }
{
    serial_is_in_range(entry.serial);
    position_is_in_range(entry.position);
    list_is_in_range(&entry.packet);
}

fn entries_are_in_range(entries: &[Entry])
    ensures { AllByRecursion IsEntry entries.now }
{
    for entry in entries {
        entry_is_in_range(entry);
    }
}

fn headers_are_in_range(headers: &[Listed<u8>])
    ensures { AllByRecursion (AllByRecursion IsByte) headers.now }
{
    for header in headers {
        list_is_in_range(header);
    }
}

fn field_is_in_range(field: &Field)
    ensures { AreFieldBytes field.now }
{
    bytes_are_in_range(field.name());
    bytes_are_in_range(field.value());
}

fn fields_are_in_range(fields: &[Field])
    ensures { AllByRecursion AreFieldBytes fields.now }
{
    for field in fields {
        field_is_in_range(field);
    }
}

fn stream_is_in_range(stream: &NewStream)
    ensures { IsNewStream stream.now }
{
    serial_is_in_range(stream.serial);
    headers_are_in_range(stream.headers.as_slice());
    list_is_in_range(&stream.media);
    fields_are_in_range(stream.fields.as_slice());
    fraction_is_in_range(stream.rate);
    granule_is_in_range(stream.base_granule);
    serial_is_in_range(stream.preroll);
    byte_is_in_range(stream.shift);
}

fn streams_are_in_range(streams: &[NewStream])
    ensures { AllByRecursion IsNewStream streams.now }
{
    for stream in streams {
        stream_is_in_range(stream);
    }
}
