//! What is told while a feed is mended.
ghost use Rattle.std.specs.Prelude.{◌≡◌, ◌++◌, Option, Some, None};
ghost use Rattle.std.specs.List.{list_any};
ghost use Rattle.import_mend.specs.declared.mend.Mend.{Mend as MendOf};
ghost use Rattle.import_feed.specs.Mending.{AreTold, begins, begun_in, mended_by};

use import_mend::{Mend, Step};
use ogg_command::Command;

/// Who is told what is mended, before the next page is read.
pub trait Mends {
    /// What it is after it was told of a mend, or by `None` that a link has begun.
    ghost tells: { Self → Option MendOf → Self → Type 0 };

    /// Something was mended.
    fn mended(&mut self, mend: &Mend)
        ensures { tells self.old (Some mend.now) self.new };

    /// A link has begun: the streams of the one before it are past.
    fn link_begun(&mut self)
        ensures { tells self.old None self.new };
}

/// Tells what was mended, if anything was.
fn tell<M: Mends>(mends: &mut M, mend: Option<Mend>)
    ensures { AreTold M.tells mends.old (mended_by mend) mends.new }
{
    match mend {
        Some(mend) => mends.mended(&mend),
        None => {}
    }
}

/// Whether one of the commands begins a link.
fn any_begins(commands: &[Command]) -> bool
    ensures { result ≡ list_any begins commands.now }
{
    for command in commands {
        if is_begin(command) {
            return true;
        }
    }
    false
}

/// Whether the command begins a link.
fn is_begin(command: &Command) -> bool
    ensures { result ≡ begins command.now }
{
    match command {
        Command::Begin(_) => true,
        Command::Put(_) => false,
        Command::End(_) => false,
    }
}

/// Tells that a link has begun, if one of the commands begins one.
fn tell_begun<M: Mends>(mends: &mut M, commands: &[Command])
    ensures { AreTold M.tells mends.old (begun_in commands.now) mends.new }
{
    if any_begins(commands) {
        mends.link_begun();
    }
}

/// Tells what was done at a step of an import that gave these commands.
pub(crate) fn tell_step<M: Mends>(mends: &mut M, step: Step, commands: &[Command])
    ensures { AreTold M.tells mends.old (mended_by step.junk ++ (mended_by step.mend ++ begun_in commands.now)) mends.new }
{
    tell(mends, step.junk);
    tell_end(mends, step.mend, commands);
}

/// Tells what was mended, and whether a link has begun with these commands.
pub(crate) fn tell_end<M: Mends>(mends: &mut M, mend: Option<Mend>, commands: &[Command])
    ensures { AreTold M.tells mends.old (mended_by mend ++ begun_in commands.now) mends.new }
{
    tell(mends, mend);
    tell_begun(mends, commands);
}
