//! Where the index has what is asked for.
ghost use Rattle.std.specs.Prelude.{◌≡◌, ◌≤◌, List, true, Some, IfOk, IfErr, OnErr, IsOk, Err, length, slice_get};
ghost use Rattle.ogg_page.specs.Page.{Page as PageValue, bytes_of_pages};
ghost use Rattle.link_index.specs.Index.{LinkEntry};
ghost use Rattle.ogg_split.specs.Asked.{IsMissing, StandsIn, has_serial};

use crate::fault::SplitFault;
use link_index::{Index, LinkInfo, StreamInfo};

/// The link with this number.
pub fn find_link(index: &Index, link: u32) -> Result<LinkInfo, SplitFault>
    ensures ok { IfOk result (λ info. (entry : LinkEntry) × (slice_get index.now.entries link ≡ Some entry) × (info ≡ entry.info)) }
    ensures err { OnErr result ((result ≡ Err SplitFault.NoLink) × (length index.now.entries ≤ link)) }
{
    match index.link(link) {
        Some(info) => Ok(info),
        None => Err(SplitFault::NoLink),
    }
}

/// The link with this number, if it has a stream with this serial.
pub fn find_stream(index: &Index, link: u32, serial: u32) -> Result<LinkInfo, SplitFault>
    ensures ok { IfOk result (λ info. (entry : LinkEntry) × (slice_get index.now.entries link ≡ Some entry) × (info ≡ entry.info)
        × (has_serial entry.streams serial ≡ true)) }
    ensures err { IfErr result (λ fault. IsMissing index.now.entries link serial fault) }
{
    match (index.link(link), index.streams(link)) {
        (Some(info), Some(streams)) => {
            if has_serial(streams, serial) {
                Ok(info)
            } else {
                Err(SplitFault::NoStream)
            }
        }
        _ => Err(SplitFault::NoLink),
    }
}

/// Whether one of the streams has this serial.
fn has_serial(streams: &[StreamInfo], serial: u32) -> bool
    ensures { result ≡ has_serial streams.now serial }
{
    let mut rest = streams;
    while let Some((stream, others)) = rest.split_first() {
        if stream.serial == serial {
            return true;
        }
        rest = others;
    }
    false
}

/// The link's bytes, if the file's bytes go so far.
pub fn bytes_of_link(bytes: &[u8], link: LinkInfo) -> Result<&[u8], SplitFault>
    ensures own { (pages : List PageValue) → StandsIn bytes.now link pages → IfOk result (λ own. own.now ≡ bytes_of_pages pages) }
    ensures there { (pages : List PageValue) → StandsIn bytes.now link pages → IsOk result }
    ensures err { IfErr result (λ fault. fault ≡ SplitFault.Source) }
{
    if link.start > bytes.len() as u64 {
        return Err(SplitFault::Source);
    }
    let (_, rest) = bytes.split_at(link.start as usize);
    if link.length > rest.len() as u64 {
        return Err(SplitFault::Source);
    }
    let (own, _) = rest.split_at(link.length as usize);
    Ok(own)
}
