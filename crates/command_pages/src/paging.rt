//! The pages of a command, one at a time.
ghost use Rattle.std.specs.Prelude.{◌≡◌, length};
ghost use Rattle.packetiser.specs.RunPages.{NextPage};
ghost use Rattle.command_pages.specs.CommandPages.{WorkGoesOn, bare_pages, pages_to_make};

use crate::beginning::{BeginPages, begin_pages, count_begin};
use crate::laying::end_head;
use crate::putting::{PutPages, count_put, put_pages};
use link_chain::Chain;
use ogg_command::Command;
use ogg_page::{PageBuffer, PageHead};
use std::marker::Model;

/// The pages of a command that are still to come. `next` makes one at a time, in the caller's buffer. It takes no
/// memory but its own size.
#[derive(Drop)]
pub struct CommandPages<'a> {
    work: Work<'a>,
    left: u64,
}

/// What is still to be made, by the command's kind.
#[derive(Drop)]
pub enum Work<'a> {
    Begin(BeginPages<'a>),
    Put(PutPages<'a>),
    /// A page without packets, until it is made.
    End(Option<PageHead>),
}

impl<'a> Model for CommandPages<'a> {
    ghost use Rattle.std.specs.Prelude.{◌≡◌, List, length};
    ghost use Rattle.ogg_page.specs.Page.{Page};
    ghost use Rattle.command_pages.specs.CommandPages.{WorkGoesOn, pages_to_make};

    ghost Value = { List Page };

    ghost view = { λ p. pages_to_make p.work };

    ghost invariant = { λ p. (p.left ≡ length (pages_to_make p.work)) × WorkGoesOn p.work };
}

impl<'a> CommandPages<'a> {
    ghost use Rattle.command_pages.specs.Encoding.{pages_of_command};
    ghost use Rattle.command_pages.specs.Fits.{CommandFits};

    /// The pages of a command, as [`lay_command`](crate::lay_command) appends them.
    pub fn of(chain: &Chain, command: &'a Command) -> CommandPages<'a>
        requires { CommandFits chain.now.chain command.now }
        ensures { result ≡ pages_of_command chain.now.chain command.entry.now }
    {
        match command {
            Command::Begin(begin) => CommandPages {
                work: Work::Begin(begin_pages(begin.skeleton, begin.streams.as_slice())),
                left: count_begin(begin.skeleton, begin.streams.as_slice()),
            },
            Command::Put(put) => CommandPages {
                work: Work::Put(put_pages(chain.streams(), put.entries.as_slice())),
                left: count_put(put.entries.as_slice()),
            },
            Command::End(serial) => CommandPages {
                work: Work::End(Some(end_head(chain.streams(), *serial))),
                left: 1,
            },
        }
    }

    /// How many pages are still to come.
    pub fn left(&self) -> u64
        ensures { result ≡ length self.now }
    {
        self.left
    }

    /// Makes the next page in the buffer, if one is still to come. It takes no memory.
    pub fn next(&mut self, buffer: &mut PageBuffer) -> bool
        ensures { NextPage self.old result self.new buffer.new.finished }
    {
        let made = self.work.next(buffer);
        if made {
            self.left -= 1;
        }
        made
    }
}

impl Work<'_> {
    /// Makes the next page in the buffer, if one is still to come.
    fn next(&mut self, buffer: &mut PageBuffer) -> bool
        requires on { WorkGoesOn self.old }
        ensures page { NextPage (pages_to_make self.old) result (pages_to_make self.new) buffer.new.finished }
        ensures on { WorkGoesOn self.new }
    {
        match self {
            Work::Begin(pages) => pages.next(buffer),
            Work::Put(pages) => pages.next(buffer),
            Work::End(head) => next_bare(head, buffer),
        }
    }
}

/// Makes the page with this head and no packets, if it is still to come.
fn next_bare(head: &mut Option<PageHead>, buffer: &mut PageBuffer) -> bool
    ensures { NextPage (bare_pages head.old) result (bare_pages head.new) buffer.new.finished }
{
    let Some(next) = head.take() else {
        return false;
    };
    buffer.start(&[]);
    buffer.finish(&next);
    true
}
