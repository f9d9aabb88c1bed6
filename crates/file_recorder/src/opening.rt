//! A file is opened: one pass finds the end of its committed bytes and takes their pages into a chain.
ghost use Rattle.std.specs.Prelude.{◌≡◌, ◌≢◌, [], false, ◌↔◌, ◌⊎◌, ◌+◌, ◌-◌, ◌^◌, ◌<◌, ◌≤◌, ℕ, List, Some, None, length, take, IfOk, IfErr};
ghost use Rattle.disk_model.specs.Image.{IsImage, settled};
ghost use Rattle.link_chain.specs.ChainState.{chain_state_of};
ghost use Rattle.link_chain.specs.Links.{AreLinks};
ghost use Rattle.link_chain.specs.Taking.{unfinished_stream};
ghost use Rattle.link_chain.specs.declared.chain_fault.ChainFault.{ChainFault as ChainFaultOf};
ghost use Rattle.gate_file.specs.Found.{HasEnd, found_bytes, found_state};
ghost use Rattle.gate_file.specs.Gate.{EndsAt};
ghost use Rattle.gate_file.specs.Opening.{Opens, GivesBack};
ghost use Rattle.file_recorder.specs.Recovery.{Links};
ghost use Rattle.file_recorder.specs.Taking.{HoldsChain, IsWholeChain, IsBrokenAt, IsUnfinished, open_fault};

use crate::staging::SmallPage;
use chain_rules::Shape;
use disk_model::Disk;
use gate_file::{Found, GateFile, Memory, OpenFault};
use link_chain::{Chain, ChainFault, PageTaker, links_left_whole_hold_a_recording};
use ogg_page::PageBuffer;
use std::alloc::Global;

/// What a file was found to hold.
pub(crate) struct FoundChain<D: Disk> {
    pub(crate) found: Found<D>,
    pub(crate) shape: Shape,
    pub(crate) buffer: PageBuffer,
    pub(crate) small: SmallPage,
}

/// A chain of no links, and the room for a page and for a small one.
pub(crate) fn rooms(alloc: Global) -> Result<(Shape, PageBuffer, SmallPage), Memory>
    ensures none { IfOk result (λ made. made.0.chain ≡ chain_state_of []) }
    ensures whole { IfOk result (λ made. IsWholeChain made.0.chain) }
{
    let buffer = PageBuffer::new(alloc)?;
    let small = SmallPage::new(alloc)?;
    Ok((Shape::new(alloc), buffer, small))
}

/// Finds the committed bytes and the chain of their pages. It writes nothing.
pub(crate) fn find_chain<D: Disk>(alloc: Global, disk: D) -> Result<FoundChain<D>, (OpenFault, D)>
    ensures same { IfOk result (λ o. D.is_honest disk
        → (D.state o.found.disk).contents ≡ (D.state disk).contents) }
    ensures ends { IfOk result (λ o. D.is_honest disk
        → HasEnd o.found.end o.found.tail o.found.closed (D.state o.found.disk)) }
    ensures chain { IfOk result (λ o. D.is_honest disk → HoldsChain (found_bytes D.state o.found) o.shape.chain) }
    ensures whole { IfOk result (λ o. IsWholeChain o.shape.chain) }
    ensures broken { IfErr result (λ e. (offset : ℕ) (fault : ChainFaultOf) → e.0 ≡ OpenFault.Chain offset fault
        → D.is_honest disk → (end : ℕ) × EndsAt (D.state disk).contents end
        × IsBrokenAt (take end (D.state disk).contents) offset fault) }
    ensures unfinished { IfErr result (λ e. (serial : ℕ) → e.0 ≡ OpenFault.Unfinished serial
        → D.is_honest disk → (end : ℕ) × EndsAt (D.state disk).contents end
        × IsUnfinished (take end (D.state disk).contents) serial) }
    ensures opens { IfOk result (λ o. Opens D.Disk (IsImage (D.state disk)) disk o.found.disk) }
    ensures gives_back { IfErr result (λ e. GivesBack D.Disk (IsImage (D.state disk)) OpenFault.Disk OpenFault.Page
        disk e.0 e.1) }
{
    let buffer = match PageBuffer::new(alloc) {
        Ok(buffer) => buffer,
        Err(Memory) => return Err((OpenFault::Memory, disk)),
    };
    let small = match SmallPage::new(alloc) {
        Ok(small) => small,
        Err(Memory) => return Err((OpenFault::Memory, disk)),
    };
    let mut chain = Chain::new(alloc);
    let mut taker = PageTaker::of(&mut chain);
    let (found, buffer) = match GateFile::find_with(disk, buffer, &mut taker) {
        Ok(found) => found,
        Err((fault, disk)) => return Err((OpenFault::from(fault), disk)),
    };
    // For the proof alone.
    let _end = found.end();
    let broken = taker.broken();
    match shape_of(chain, broken) {
        Ok(shape) => Ok(FoundChain {
            found,
            shape,
            buffer,
            small,
        }),
        Err(fault) => Err((fault, found.give_back())),
    }
}

/// What is found of an empty disk: no page. No call of it is made. If memory is refused the disk is given back.
pub(crate) fn find_empty<D: Disk>(alloc: Global, disk: D) -> Result<FoundChain<D>, D>
    requires { D.is_honest disk → D.state disk ≡ settled [] }
    ensures found { IfOk result (λ o. o.found ≡ found_state disk 0 0 false) }
    ensures chain { IfOk result (λ o. HoldsChain [] o.shape.chain) }
    ensures same { IfErr result (λ back. back ≡ disk) }
{
    let buffer = match PageBuffer::new(alloc) {
        Ok(buffer) => buffer,
        Err(Memory) => return Err(disk),
    };
    let small = match SmallPage::new(alloc) {
        Ok(small) => small,
        Err(Memory) => return Err(disk),
    };
    Ok(FoundChain {
        found: Found::empty(disk),
        shape: Shape::new(alloc),
        buffer,
        small,
    })
}

/// The chain of all pages; or why a page wasn't taken; or which stream's last packet is unfinished.
fn shape_of(chain: Chain, broken: Option<(u64, ChainFault)>) -> Result<Shape, OpenFault>
    ensures whole { IfOk result (λ shape. broken ≡ None) }
    ensures each { IfOk result (λ shape. (bytes : List ℕ) (links : Links) → AreLinks bytes links
        → chain.chain ≡ chain_state_of links → HoldsChain bytes shape.chain) }
    ensures faults { IfErr result (λ fault. ((place : ℕ × _) × (broken ≡ Some place) × (fault ≡ open_fault place))
        ⊎ ((serial : ℕ) × (broken ≡ None) × (unfinished_stream chain.chain ≡ Some serial) × (fault ≡ OpenFault.Unfinished serial))) }
{
    // For the proof alone.
    links_left_whole_hold_a_recording();
    if let Some(place) = broken {
        return Err(fault_at(place));
    }
    if let Some(serial) = chain.unfinished() {
        return Err(OpenFault::Unfinished(serial));
    }
    Ok(Shape::of(chain))
}

/// How an opening reports that a page wasn't taken.
fn fault_at(place: (u64, ChainFault)) -> OpenFault
    ensures { result ≡ open_fault place }
{
    match place {
        (_, ChainFault::Memory) => OpenFault::Memory,
        (offset, fault) => OpenFault::Chain(offset, fault),
    }
}
