//! The pages of a file, as the lines of their packets.
ghost use Rattle.std.specs.Prelude.{◌≡◌, ◌++◌, ◌+◌, [], List, ℕ, OnOk};
ghost use Rattle.ogg_page.specs.Page.{Page as PageOf};
ghost use Rattle.link_chain.specs.Links.{AreLinks};
ghost use Rattle.link_chain.specs.Taking.{links_with};
ghost use Rattle.chain_rules.specs.Recording.{HoldsLinks, Recording};
ghost use Rattle.packet_actions.specs.Written.{HasWritten, HasWrittenAll};

use import_gather::{GatherFault, Gatherer, gathered_commands_hold_the_recording};
use line_packets::{Choosing, Wanted, When};
use ogg_command::Command;
use ogg_page::Page;
use std::alloc::{AllocError, Global};

/// More bytes than a file of links has (2^62).
const MOST_BYTES: u64 = 1 << 62;

/// The pages of a file, and what is written of them.
#[derive(Drop)]
pub(crate) struct PageLines {
    alloc: Global,
    pub(crate) gatherer: Gatherer,
    pub(crate) choosing: Choosing,
}

impl PageLines {
    /// No page was read yet.
    pub(crate) fn new(alloc: Global, wanted: Wanted) -> PageLines
        ensures wanted { result.choosing.wanted ≡ wanted }
        ensures stands { HasWritten [] result [] }
    {
        PageLines {
            alloc,
            gatherer: Gatherer::new(alloc),
            choosing: Choosing::new(alloc, wanted),
        }
    }

    /// Another file begins: nothing was read of it yet.
    pub(crate) fn begin_file(&mut self)
        ensures stands { HasWritten [] self.new [] }
        ensures wanted { self.new.choosing.wanted ≡ self.old.choosing.wanted }
    {
        self.gatherer = Gatherer::new(self.alloc);
        self.choosing.begin_file();
    }

    /// Appends the lines of the packets that are asked for and known with this page. After a fault take no further page.
    pub(crate) fn take_page(
        &mut self,
        page: &Page<'_>,
        when: When,
        lines: &mut Vec<u8>,
    ) -> Result<(), GatherFault>
        ensures writes { OnOk result ((links : List (List PageOf)) (before : List ℕ) → HasWritten links self.old before
            → (text : List ℕ) × (lines.new.items ≡ lines.old.items ++ text) × HasWritten (links_with links page.now) self.new (before ++ text)) }
        ensures wanted { self.new.choosing.wanted ≡ self.old.choosing.wanted }
    {
        // For the proof alone.
        let _bytes = page.whole();
        let mut commands = Vec::new(self.alloc);
        if self.gatherer.chain().len() >= MOST_BYTES {
            return Err(GatherFault::Memory);
        }
        self.gatherer.take_page(page, &mut commands)?;
        match self.choosing.take_all(commands.as_slice(), when, lines) {
            Ok(()) => Ok(()),
            Err(AllocError) => Err(GatherFault::Memory),
        }
    }

    /// The file has ended: appends the lines of what waited. Take no further page of it.
    pub(crate) fn end_file(&mut self, when: When, lines: &mut Vec<u8>) -> Result<(), GatherFault>
        ensures writes { OnOk result ((bytes : List ℕ) (links : List (List PageOf)) (recording : Recording) (before : List ℕ)
            → AreLinks bytes links → HoldsLinks links recording → HasWritten links self.old before
            → (text : List ℕ) × (lines.new.items ≡ lines.old.items ++ text) × HasWrittenAll recording self.old (before ++ text)) }
        ensures wanted { self.new.choosing.wanted ≡ self.old.choosing.wanted }
    {
        gathered_commands_hold_the_recording();
        let mut commands: Vec<Command> = Vec::new(self.alloc);
        self.gatherer.end(&mut commands)?;
        match self.choosing.take_all(commands.as_slice(), when, lines) {
            Ok(()) => Ok(()),
            Err(AllocError) => Err(GatherFault::Memory),
        }
    }
}
