//! The committed bytes of files, and the pages that commands add to them.

use history::Recordings;

/// The committed bytes of a file, as links, and the commands that they grow by.
pub struct CommittedLinks;

impl Recordings for CommittedLinks {
    ghost use Rattle.std.specs.Prelude.{◌≡◌};
    ghost use Rattle.chain_rules.specs.Encoding.{links_after};
    ghost use Rattle.ogg_command.specs.declared.command.Command.{Command as CommandOf};
    ghost use Rattle.file_recorder.specs.Recovery.{Links};
    ghost use Rattle.archive_laws.specs.Committing.{ShowsLinks, AcceptsAfter};
    ghost use Rattle.archive_laws.specs.CommittingLaws.{shows_one, adds as adds_command};

    ghost Command = { CommandOf };

    ghost State = { Links };

    ghost Recording = { Links };

    ghost shows = { ShowsLinks };

    ghost accepts = { AcceptsAfter };

    ghost next = { links_after };

    ghost holds = { λ state recording. state ≡ recording };

    ghost add = { links_after };

    ghost one = { shows_one };

    ghost adds = { adds_command };
}
