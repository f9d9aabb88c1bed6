//! Pages become commands, one page after the other.
ghost use Rattle.std.specs.Prelude.{◌≡◌, ◌≢◌, ◌+◌, ◌<◌, ◌^◌, ◌++◌, [], ℕ, true, false, List, Some, None, OnOk, OnErr, Err};
ghost use Rattle.ogg_page.specs.Page.{Page as PageValue, page_size};
ghost use Rattle.link_chain.specs.Followed.{after_page};
ghost use Rattle.link_chain.specs.Taking.{fault_of_page, unfinished_stream};
ghost use Rattle.link_chain.specs.declared.chain_fault.ChainFault.{ChainFault as ChainFaultOf};
ghost use Rattle.ogg_command.specs.declared.command.Command.{Command as CommandOf};

use crate::fault::GatherFault;
use crate::grower::Grower;
use crate::link::LastLink;
use link_chain::{Chain, is_open};
use ogg_command::{Command, Memory};
use ogg_page::{Page, SEGMENT};
use std::alloc::Global;
use std::marker::Model;

/// The pages so far, as far as the commands of the next ones depend on them.
#[derive(Debug, Drop)]
pub struct Gatherer {
    chain: Chain,
    link: LastLink,
    grower: Grower,
}

impl Model for Gatherer {
    ghost use Rattle.import_gather.specs.Gathered.{Gathered};

    ghost Value = { Gathered };

    ghost view = { λ g. record { chain = g.chain.chain; link = g.link; refused = g.grower } };
}

impl Gatherer {
    ghost use Rattle.import_gather.specs.Kept.{is_too_long, waits};
    ghost use Rattle.import_gather.specs.Giving.{begin_if};
    ghost use Rattle.import_gather.specs.Gathered.{HasGathered, GathersPage, CanGoOn, without_packet};
    ghost use Rattle.import_gather.specs.Refusals.{IsNoted};

    /// No pages, and no growth was refused. It takes no memory.
    pub fn new(alloc: Global) -> Gatherer
        ensures gathered { HasGathered [] result [] }
        ensures goes_on { CanGoOn result }
        ensures refused { result.refused ≡ false }
    {
        Gatherer {
            chain: Chain::new(alloc),
            link: LastLink::new(alloc),
            grower: Grower::new(alloc),
        }
    }

    /// Takes the next page, and appends the commands that it completes. `Chain` says that the page may not follow,
    /// `PacketTooLong` that a packet is too long with it; after these nothing has changed. `Memory` comes only if a
    /// growth of a vector was refused, which is noted. Then the commands and the chain are as they were, but what is
    /// kept of the streams may be lost: take no further page.
    pub fn take_page(
        &mut self,
        page: &Page<'_>,
        commands: &mut Vec<Command>,
    ) -> Result<(), GatherFault>
        requires { self.old.chain.length_of + page_size page.now < 2 ^ 63 }
        ensures gathered { OnOk result ((more : List CommandOf) × (commands.new.items ≡ commands.old.items ++ more)
            × GathersPage page.now self.old self.new more) }
        ensures chain { (fault : ChainFaultOf) → fault_of_page self.old.chain page.now ≡ Some fault
            → result ≡ Err (GatherFault.Chain fault) }
        ensures long { fault_of_page self.old.chain page.now ≡ None → is_too_long self.old.link page.now ≡ true
            → result ≡ Err GatherFault.PacketTooLong }
        ensures memory { fault_of_page self.old.chain page.now ≡ None → is_too_long self.old.link page.now ≡ false
            → OnErr result (result ≡ Err GatherFault.Memory) }
        ensures cause { result ≡ Err GatherFault.Memory → self.new.refused ≡ true }
        ensures refused { OnOk result (self.new.refused ≡ self.old.refused) }
        ensures after { OnOk result (self.new.chain ≡ after_page self.old.chain page.now) }
        ensures grows { OnOk result (self.new.chain.length_of ≡ self.old.chain.length_of + page_size page.now) }
        ensures same { OnErr result (result ≢ Err GatherFault.Memory → self.new ≡ self.old) }
        ensures commands { OnErr result (commands.new.items ≡ commands.old.items) }
        ensures pages { OnErr result (self.new.chain ≡ self.old.chain) }
    {
        if let Some(fault) = self.chain.fault_of(page) {
            return Err(GatherFault::Chain(fault));
        }
        if self.link.is_too_long(page) {
            return Err(GatherFault::PacketTooLong);
        }
        let len = commands.len();
        if let Err(_) = self.gather(page, commands) {
            commands.truncate(len);
            return Err(GatherFault::Memory);
        }
        Ok(())
    }

    /// Takes a page that may follow. After `Memory` some of its commands may have been appended, and what is kept may
    /// be lost.
    fn gather(&mut self, page: &Page<'_>, commands: &mut Vec<Command>) -> Result<(), Memory>
        requires fits { fault_of_page self.old.chain page.now ≡ None }
        requires long { self.old.chain.length_of + page_size page.now < 2 ^ 63 }
        ensures gathered { OnOk result ((more : List CommandOf) × (commands.new.items ≡ commands.old.items ++ more)
            × GathersPage page.now self.old self.new more) }
        ensures after { OnOk result (self.new.chain ≡ after_page self.old.chain page.now) }
        ensures grows { OnOk result (self.new.chain.length_of ≡ self.old.chain.length_of + page_size page.now) }
        ensures more { (given : List CommandOf) × (commands.new.items ≡ commands.old.items ++ given) }
        ensures pages { OnErr result (self.new.chain ≡ self.old.chain) }
        ensures noted { IsNoted result self.old.refused self.new.refused }
    {
        // For the proof alone.
        let _bytes = page.whole();
        let open = is_open(self.chain.streams());
        self.link.take_page(&mut self.grower, page, open, commands)?;
        self.grower.take_page(&mut self.chain, page)?;
        Ok(())
    }

    /// Drops the unfinished packet of the stream with this serial. The pages so far count without it.
    pub fn drop_packet(&mut self, serial: u32)
        ensures { self.new ≡ without_packet serial self.old }
    {
        let rest = self.link.rest_len(serial);
        // A page has a lacing value for each whole segment.
        let bytes = (rest + rest / SEGMENT) as u64;
        self.chain.drop_packet(serial, bytes);
        self.link.drop_rest(serial);
    }

    /// Appends the commands that still wait: at the end of the input, or at its fault. Take no further page. Its one
    /// fault is `Memory`, which comes only if a growth of a vector was refused. Then the commands are as they were, but
    /// what waited may be lost.
    pub fn end(&mut self, commands: &mut Vec<Command>) -> Result<(), GatherFault>
        ensures commands { OnOk result (commands.new.items ≡ commands.old.items ++ begin_if (waits self.old.link) self.old.link) }
        ensures gathered { OnOk result ((links : List (List PageValue)) (given : List CommandOf) → HasGathered links self.old given →
            HasGathered links self.new (given ++ begin_if (waits self.old.link) self.old.link)) }
        ensures pages { OnOk result (self.new.chain ≡ self.old.chain) }
        ensures waits { OnOk result (waits self.new.link ≡ false) }
        ensures memory { OnErr result ((result ≡ Err GatherFault.Memory) × (waits self.old.link ≡ true)) }
        ensures cause { OnErr result (self.new.refused ≡ true) }
        ensures refused { OnOk result (self.new.refused ≡ self.old.refused) }
        ensures same { OnErr result (commands.new.items ≡ commands.old.items) }
    {
        let len = commands.len();
        if let Err(_) = self.link.give_waiting(&mut self.grower, commands) {
            commands.truncate(len);
            return Err(GatherFault::Memory);
        }
        Ok(())
    }

    /// The chain of the pages so far.
    pub fn chain(&self) -> &Chain
        ensures { result.now.chain ≡ self.now.chain }
    {
        &self.chain
    }

    /// Whether a packet is too long with the page.
    pub fn is_too_long(&self, page: &Page<'_>) -> bool
        ensures { result ≡ is_too_long self.now.link page.now }
    {
        self.link.is_too_long(page)
    }

    /// The serial of the first stream of the last link whose last packet is unfinished.
    pub fn unfinished(&self) -> Option<u32>
        ensures { result ≡ unfinished_stream self.now.chain }
    {
        self.chain.unfinished()
    }
}
