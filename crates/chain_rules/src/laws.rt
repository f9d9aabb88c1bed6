//! What always holds of the commands and the pages that a chain takes.
ghost use Rattle.std.specs.Prelude.{◌≡◌, ◌≤◌, ◌<◌, ◌+◌, ◌++◌, Ok, Err, List, [], ℕ, length};
ghost use Rattle.std.specs.List.{AllByRecursion};
ghost use Rattle.ogg_page.specs.Page.{Page, IsPage};
ghost use Rattle.ogg_command.specs.Command.{IsCommand};
ghost use Rattle.link_chain.specs.Links.{AreLinks};
ghost use Rattle.chain_rules.specs.Recording.{Recording, HoldsLinks, Holds, add, after};
ghost use Rattle.link_chain.specs.ChainState.{ChainState, chain_state_of};
ghost use Rattle.link_chain.specs.Followed.{moved_by};
ghost use Rattle.link_chain.specs.Progress.{ended_by, next_in};
ghost use Rattle.chain_rules.specs.Decision.{decision};
ghost use Rattle.chain_rules.specs.Encoding.{command_bytes, links_after, pages_of_command};
ghost use Rattle.chain_rules.specs.Commands.{AreKept, bytes_of_commands, links_behind};
ghost use Rattle.ogg_command.specs.Refusal.{code_of};
ghost use Rattle.ogg_command.specs.declared.command.Command.{Command as CommandOf};
ghost use Rattle.ogg_command.specs.declared.refusal.Refusal.{Refusal as RefusalOf};

/// A command that isn't refused adds its packets, and nothing else changes. The links after it hold the recording
/// with the command added, and its size is the number of bytes that it appends (RFC 3533, sections 4 to 6).
pub fn command_adds_its_packets()
    ensures size { (chain : ChainState) (command : CommandOf) (size : ℕ) →
        decision chain command ≡ Ok size → length (command_bytes chain command) ≡ size }
    ensures links { (bytes : List ℕ) (links : List (List Page)) (recording : Recording) (command : CommandOf) (size : ℕ) →
        IsCommand command → AreLinks bytes links → HoldsLinks links recording → decision (chain_state_of links) command ≡ Ok size →
        AreLinks (bytes ++ command_bytes (chain_state_of links) command) (links_after links command)
        × HoldsLinks (links_after links command) (add recording command) }
    // The same of bytes that hold a recording, by whichever links.
    ensures holds { (bytes : List ℕ) (recording : Recording) (held : Holds bytes recording) (command : CommandOf) (size : ℕ) →
        IsCommand command → decision (chain_state_of held.0) command ≡ Ok size →
        Holds (bytes ++ command_bytes (chain_state_of held.0) command) (add recording command) }
{}

/// Commands of which none is refused, each on the links that those before it left, add their packets
/// in order.
pub fn commands_add_their_packets()
    ensures links { (bytes : List ℕ) (links : List (List Page)) (recording : Recording) (commands : List CommandOf) →
        AllByRecursion IsCommand commands → AreLinks bytes links → HoldsLinks links recording → AreKept links commands →
        AreLinks (bytes ++ bytes_of_commands links commands) (links_behind links commands)
        × HoldsLinks (links_behind links commands) (after recording commands) }
    // From no links on, the bytes of the commands hold exactly what the commands say.
    ensures holds { (commands : List CommandOf) → AllByRecursion IsCommand commands → AreKept [] commands →
        Holds (bytes_of_commands [] commands) (after [] commands) }
{}

/// A command that isn't refused adds at least one page, and what it adds are pages.
pub fn command_adds_pages()
    ensures some { (bytes : List ℕ) (links : List (List Page)) (recording : Recording) (command : CommandOf) (size : ℕ) →
        IsCommand command → AreLinks bytes links → HoldsLinks links recording → decision (chain_state_of links) command ≡ Ok size →
        0 < length (pages_of_command (chain_state_of links) command) }
    ensures pages { (bytes : List ℕ) (links : List (List Page)) (recording : Recording) (command : CommandOf) (size : ℕ) →
        IsCommand command → AreLinks bytes links → HoldsLinks links recording → decision (chain_state_of links) command ≡ Ok size →
        AllByRecursion IsPage (pages_of_command (chain_state_of links) command) }
{}

/// `check` refuses a command only for a reason of the table, `LinkOpen` to `FileFull`. Whether a recorder has failed,
/// memory was refused or the disk failed is for others to say.
pub fn refusals_are_of_the_table()
    ensures { (chain : ChainState) (command : CommandOf) (refusal : RefusalOf) → decision chain command ≡ Err refusal →
        (2 ≤ code_of refusal) × (code_of refusal ≤ 19) }
{}

/// An end that isn't refused adds a page of 27 bytes, the last one of its stream, which has ended then. The other streams
/// stay as they are.
pub fn ends_end_their_streams()
    ensures { (links : List (List Page)) (serial size : ℕ) → decision (chain_state_of links) (CommandOf.End serial) ≡ Ok size →
        chain_state_of (links_after links (CommandOf.End serial))
        ≡ moved_by (chain_state_of links) serial (ended_by (next_in (chain_state_of links).streams serial + 1)) 27 }
{}
