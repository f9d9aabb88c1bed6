//! The index of a file's committed bytes, made in the pass that finds where they end.
ghost use Rattle.std.specs.Prelude.{◌≡◌, ℕ, take, IfOk, IfErr};
ghost use Rattle.gate_file.specs.Found.{HasEnd, found_bytes};
ghost use Rattle.gate_file.specs.Gate.{EndsAt};
ghost use Rattle.link_chain.specs.declared.chain_fault.ChainFault.{ChainFault as ChainFaultOf};
ghost use Rattle.link_index.specs.declared.fault.IndexFault.TheVariants.{Chain};
ghost use Rattle.file_actions.specs.Indexed.{IsBrokenAt, IsIndexed};

use disk_model::Disk;
use fault_lines::Fault;
use gate_file::{Found, GateFile, OpenFault};
use link_index::{Index, PageTaker, fault_at};
use ogg_page::PageBuffer;
use std::alloc::Global;

/// A file that was found, its index, and the room for a page that was used.
#[derive(Drop)]
pub(crate) struct Indexed<D: Disk> {
    pub(crate) found: Found<D>,
    pub(crate) index: Index,
    pub(crate) buffer: PageBuffer,
}

/// Finds the committed bytes of a file and indexes them, in one pass that writes nothing. A fault of finding comes
/// before one of indexing.
pub(crate) fn find_index<D: Disk + Drop>(alloc: Global, disk: D) -> Result<Indexed<D>, Fault>
    ensures same { IfOk result (λ o. D.is_honest disk
        → (D.state o.found.disk).contents ≡ (D.state disk).contents) }
    ensures ends { IfOk result (λ o. D.is_honest disk
        → HasEnd o.found.end o.found.tail o.found.closed (D.state o.found.disk)) }
    ensures indexed { IfOk result (λ o. D.is_honest disk → IsIndexed (found_bytes D.state o.found) o.index) }
    ensures broken { IfErr result (λ e. (offset : ℕ) (fault : ChainFaultOf) → e ≡ Fault.Index (Chain offset fault)
        → D.is_honest disk → (end : ℕ) × EndsAt (D.state disk).contents end
        × IsBrokenAt (take end (D.state disk).contents) offset fault) }
{
    let Ok(buffer) = PageBuffer::new(alloc) else {
        return Err(Fault::Memory);
    };
    let mut index = Index::new(alloc);
    let mut taker = PageTaker::of(&mut index);
    let (found, buffer) = match GateFile::find_with(disk, buffer, &mut taker) {
        Ok(found) => found,
        Err((fault, _)) => return Err(Fault::Open(OpenFault::from(fault))),
    };
    // For the proof alone.
    let _end = found.end();
    match taker.broken() {
        None => Ok(Indexed {
            found,
            index,
            buffer,
        }),
        Some((offset, fault)) => Err(Fault::Index(fault_at(offset, fault))),
    }
}
