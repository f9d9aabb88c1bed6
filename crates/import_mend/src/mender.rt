//! Pages of any input, mended one after the other.
ghost use Rattle.std.specs.Prelude.{◌≡◌, ◌<◌, ◌++◌, ℕ, List, IfOk, OnErr, OnOk, true, false, None, Some, length, vec_capacity};
ghost use Rattle.ogg_page.specs.LogicalStream.{is_first};
ghost use Rattle.link_chain.specs.ChainState.{is_open};
ghost use Rattle.link_chain.specs.Followed.{after_page};
ghost use Rattle.link_chain.specs.Limits.{most_streams};
ghost use Rattle.link_chain.specs.Taking.{fault_of_page};
ghost use Rattle.import_gather.specs.Kept.{waits};
ghost use Rattle.import_mend.specs.Gives.{Gives, GivesEnd, GathersFirst, GathersLater, GathersRestart, mend_at_end, mending};
ghost use Rattle.import_mend.specs.Losses.{lost_in};
ghost use Rattle.import_mend.specs.Room.{HasRoom, LacksMemory, LacksPlace, LacksRoomFor};
ghost use Rattle.import_mend.specs.Steps.{Mends, MendsLater, Restarts};
ghost use Rattle.import_mend.specs.Ways.{most_bytes, way_of};
ghost use Rattle.import_mend.specs.Whole.{LostNone};
ghost use Rattle.import_mend.specs.declared.mend.Mend.{Mend as MendOf};
ghost use Rattle.import_mend.specs.declared.ways.Way.{Way as WayOf};
ghost use Rattle.ogg_command.specs.declared.command.Command.{Command as CommandOf};

use crate::Memory;
use crate::ending::end_streams;
use crate::losses::{lost_in, set_lost, set_lost_of};
use crate::mend::Mend;
use crate::taking::{follow, take};
use crate::telling::mend_of;
use crate::ways::{MOST_BYTES, Way, way_of};
use import_gather::Gatherer;
use link_chain::{Chain, MOST_STREAMS, is_open, stream_in};
use ogg_command::Command;
use ogg_page::Page;
use std::alloc::{AllocError, Global};

/// What mending the next page depends on, beside the chain of those before: how many pages of each stream were lost.
/// It has the room in which a page is made.
#[derive(Drop)]
pub struct Mender {
    losses: [u32; MOST_STREAMS],
    room: Vec<u8>,
}

impl Mender {
    /// No page was lost. It takes no memory.
    pub fn new(alloc: Global) -> Mender
        ensures none_lost { LostNone result.losses }
        ensures count { length result.losses ≡ most_streams }
    {
        Mender {
            losses: [0; MOST_STREAMS],
            room: Vec::new(alloc),
        }
    }

    /// Takes a page that begins at `offset` in the input, mended if it has to be, and appends the commands that it
    /// completes. It returns what was mended, if anything was. `Memory` is the one fault. After it some of the commands
    /// may have been appended; take no further page.
    pub fn take_page(
        &mut self,
        gatherer: &mut Gatherer,
        offset: u64,
        page: &Page<'_>,
        commands: &mut Vec<Command>,
    ) -> Result<Option<Mend>, Memory>
        ensures mends { IfOk result (λ mend. (lost : ℕ) → lost ≡ lost_in self.old.losses gatherer.old.chain.streams page.now.serial →
            Mends (way_of gatherer.old.chain lost page.now) offset lost page.now gatherer.old gatherer.new mend) }
        ensures gives { IfOk result (λ mend. (lost : ℕ) → lost ≡ lost_in self.old.losses gatherer.old.chain.streams page.now.serial →
            (more : List CommandOf) × (commands.new.items ≡ commands.old.items ++ more)
            × Gives (way_of gatherer.old.chain lost page.now) offset lost page.now (mending self.old.losses gatherer.old)
            (mending self.new.losses gatherer.new) mend more) }
        // A link that can't begin again is full.
        ensures full { IfOk result (λ mend. (lost : ℕ) → lost ≡ lost_in self.old.losses gatherer.old.chain.streams page.now.serial
            → way_of gatherer.old.chain lost page.now ≡ WayOf.Restart → mend ≡ Some (MendOf.Full offset page.now.serial)
            → LacksRoomFor page.now gatherer.new.chain) }
        // If there was room to end its open streams they have ended, and there is no place for the page.
        ensures room { HasRoom gatherer.old.chain → IfOk result (λ mend. (lost : ℕ) → lost ≡ lost_in self.old.losses gatherer.old.chain.streams page.now.serial
            → way_of gatherer.old.chain lost page.now ≡ WayOf.Restart → mend ≡ Some (MendOf.Full offset page.now.serial)
            → (is_open gatherer.new.chain ≡ false) × LacksPlace page.now gatherer.new.chain) }
        ensures cause { OnErr result (LacksMemory gatherer.new (vec_capacity self.old.room)) }
        ensures noted { OnOk result (gatherer.new.refused ≡ gatherer.old.refused) }
    {
        let serial = page.serial();
        let lost = lost_in(&self.losses, gatherer.chain().streams(), serial);
        match way_of(gatherer.chain(), lost, page) {
            Way::Take if page.is_first() => self.enter(gatherer, page, commands),
            Way::Take => self.follow(gatherer, offset, lost, page, commands),
            Way::Restart => self.restart(gatherer, offset, page, commands),
            Way::Stranger => Ok(Some(Mend::Stranger { offset, serial })),
            Way::Repeated => Ok(Some(Mend::Repeated { offset, serial })),
            Way::Misshapen => Ok(Some(Mend::Misshapen { offset, serial })),
            Way::Full => Ok(Some(Mend::Full { offset, serial })),
        }
    }

    /// Ends the open streams, and appends the commands that still wait: at the end of the input, which is at `offset`.
    /// It returns what was mended. After `Memory` some of the commands may have been appended. Take no further page.
    pub fn end(
        &mut self,
        gatherer: &mut Gatherer,
        offset: u64,
        commands: &mut Vec<Command>,
    ) -> Result<Option<Mend>, Memory>
        ensures waits { IfOk result (λ mend. waits gatherer.new.link ≡ false) }
        ensures gives { IfOk result (λ mend. (more : List CommandOf) × (commands.new.items ≡ commands.old.items ++ more)
            × GivesEnd gatherer.old gatherer.new more) }
        ensures told { IfOk result (λ mend. mend ≡ mend_at_end offset gatherer.old.chain) }
        ensures ended { HasRoom gatherer.old.chain → IfOk result (λ mend. is_open gatherer.new.chain ≡ false) }
        ensures cause { OnErr result (LacksMemory gatherer.new (vec_capacity self.old.room)) }
        ensures noted { OnOk result (gatherer.new.refused ≡ gatherer.old.refused) }
    {
        let unfinished = gatherer.unfinished();
        end_streams(&mut self.room, gatherer, commands)?;
        if let Err(_) = gatherer.end(commands) {
            return Err(AllocError);
        }
        Ok(unfinished.map(|serial| Mend::Unfinished { offset, serial }))
    }

    /// Takes a stream's first page that may follow.
    fn enter(
        &mut self,
        gatherer: &mut Gatherer,
        page: &Page<'_>,
        commands: &mut Vec<Command>,
    ) -> Result<Option<Mend>, Memory>
        requires first { is_first page.now ≡ true }
        requires fits { fault_of_page gatherer.old.chain page.now ≡ None }
        requires small { gatherer.old.chain.length_of < most_bytes }
        ensures after { IfOk result (λ mend. (gatherer.new.chain ≡ after_page gatherer.old.chain page.now) × (mend ≡ None)) }
        ensures gives { IfOk result (λ mend. (more : List CommandOf) × (commands.new.items ≡ commands.old.items ++ more)
            × GathersFirst page.now (mending self.old.losses gatherer.old) (mending self.new.losses gatherer.new) more) }
        ensures cause { OnErr result (LacksMemory gatherer.new (vec_capacity self.old.room)) }
        ensures noted { OnOk result (gatherer.new.refused ≡ gatherer.old.refused) }
    {
        // For the proof alone.
        let _bytes = page.whole();
        let streams = gatherer.chain().streams();
        let place = if is_open(streams) { streams.len() } else { 0 };
        set_lost(&mut self.losses, place, 0);
        take(gatherer, page, commands)?;
        Ok(None)
    }

    /// Ends the open streams, and takes the first page of a new link, if there is room for all that.
    fn restart(
        &mut self,
        gatherer: &mut Gatherer,
        offset: u64,
        page: &Page<'_>,
        commands: &mut Vec<Command>,
    ) -> Result<Option<Mend>, Memory>
        requires { is_first page.now ≡ true }
        ensures restarts { IfOk result (λ mend. Restarts offset page.now gatherer.new mend) }
        ensures full { IfOk result (λ mend. mend ≡ Some (MendOf.Full offset page.now.serial) → LacksRoomFor page.now gatherer.new.chain) }
        ensures room { HasRoom gatherer.old.chain → IfOk result (λ mend. mend ≡ Some (MendOf.Full offset page.now.serial)
            → (is_open gatherer.new.chain ≡ false) × LacksPlace page.now gatherer.new.chain) }
        ensures gives { IfOk result (λ mend. (more : List CommandOf) × (commands.new.items ≡ commands.old.items ++ more)
            × GathersRestart offset page.now (mending self.old.losses gatherer.old) (mending self.new.losses gatherer.new) mend more) }
        ensures cause { OnErr result (LacksMemory gatherer.new (vec_capacity self.old.room)) }
        ensures noted { OnOk result (gatherer.new.refused ≡ gatherer.old.refused) }
    {
        let closed = end_streams(&mut self.room, gatherer, commands)?;
        if !closed || !fits(gatherer.chain(), page) {
            let serial = page.serial();
            return Ok(Some(Mend::Full { offset, serial }));
        }
        self.enter(gatherer, page, commands)?;
        Ok(Some(Mend::Restart { offset }))
    }

    /// Takes a page of an open stream that isn't its first, as it is left.
    fn follow(
        &mut self,
        gatherer: &mut Gatherer,
        offset: u64,
        lost: u32,
        page: &Page<'_>,
        commands: &mut Vec<Command>,
    ) -> Result<Option<Mend>, Memory>
        requires later { is_first page.now ≡ false }
        requires way { way_of gatherer.old.chain lost page.now ≡ WayOf.Take }
        ensures mends { IfOk result (λ mend. MendsLater offset lost page.now gatherer.old gatherer.new mend) }
        ensures gives { IfOk result (λ mend. (more : List CommandOf) × (commands.new.items ≡ commands.old.items ++ more)
            × GathersLater lost page.now (mending self.old.losses gatherer.old) (mending self.new.losses gatherer.new) more) }
        ensures cause { OnErr result (LacksMemory gatherer.new (vec_capacity self.old.room)) }
        ensures noted { OnOk result (gatherer.new.refused ≡ gatherer.old.refused) }
    {
        let streams = gatherer.chain().streams();
        let Some(stream) = stream_in(streams, page.serial()) else {
            return Ok(None);
        };
        let mend = mend_of(offset, lost, stream, gatherer.is_too_long(page), page);
        // By the pages that were lost the numbers that come are ahead of those that are given.
        let count = u64::from(page.sequence()).saturating_sub(stream.next_sequence);
        set_lost_of(&mut self.losses, streams, page.serial(), count as u32);
        follow(&mut self.room, gatherer, lost, stream, page, commands)?;
        Ok(mend)
    }
}

/// Whether a first page may follow, and there is room for it.
fn fits(chain: &Chain, page: &Page<'_>) -> bool
    ensures fits { result ≡ true → (fault_of_page chain.now.chain page.now ≡ None) × (chain.now.chain.length_of < most_bytes) }
    ensures full { result ≡ false → LacksPlace page.now chain.now.chain }
{
    chain.fault_of(page).is_none() && chain.len() < MOST_BYTES
}
