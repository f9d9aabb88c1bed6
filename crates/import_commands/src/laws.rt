//! What always holds of the commands of a chain of links.
ghost use Rattle.std.specs.Prelude.{◌≡◌, ◌++◌, ◌∷◌, ◌-◌, List, [], ℕ, take, drop, length};
ghost use Rattle.std.specs.List.{AllByRecursion};
ghost use Rattle.ogg_page.specs.Page.{Page};
ghost use Rattle.ogg_page.specs.LogicalStream.{HoldsPackets, joined_lacing};
ghost use Rattle.packetiser.specs.Run.{packets_ended};
ghost use Rattle.link_chain.specs.Links.{AreLinks, pages_with};
ghost use Rattle.chain_rules.specs.Recording.{Recording, Stream, HoldsLinks, Holds, after};
ghost use Rattle.ogg_command.specs.Command.{IsCommand};
ghost use Rattle.chain_rules.specs.Commands.{AreKept, bytes_of_commands};
ghost use Rattle.import_commands.specs.Headers.{header_count};
ghost use Rattle.import_commands.specs.Commands.{commands_of, page_commands, page_packets, pages_commands, packets_of, headers_by, CanBeFed, RefusedBy, RefusedByInput, of_the_whole};

use chain_rules::{command_adds_its_packets, commands_add_their_packets};

/// The commands of links add up to the recording that the links hold, whichever packets are headers.
pub fn commands_of_links_add_up()
    ensures recording { (headers : List Stream → ℕ → ℕ) (bytes : List ℕ) (links : List (List Page)) (recording : Recording)
        → AreLinks bytes links → HoldsLinks links recording →
        after [] (commands_of headers links recording) ≡ recording }
    // The same, if each stream's first packet says how many are headers.
    ensures told { (bytes : List ℕ) (links : List (List Page)) (recording : Recording) → AreLinks bytes links → HoldsLinks links recording →
        after [] (commands_of (headers_by header_count) links recording) ≡ recording }
    ensures commands { (headers : List Stream → ℕ → ℕ) (bytes : List ℕ) (links : List (List Page)) (recording : Recording)
        → AreLinks bytes links → HoldsLinks links recording →
        AllByRecursion IsCommand (commands_of headers links recording) }
    // If none of them is refused, the bytes that they make hold exactly the recording.
    ensures held { (headers : List Stream → ℕ → ℕ) (bytes : List ℕ) (links : List (List Page)) (recording : Recording)
        → AreLinks bytes links → HoldsLinks links recording →
        AreKept [] (commands_of headers links recording) → Holds (bytes_of_commands [] (commands_of headers links recording)) recording }
    // If one of them is refused, that depends on the input itself: none is refused for its place among the others.
    ensures refused { (headers : List Stream → ℕ → ℕ) (bytes : List ℕ) (links : List (List Page)) (recording : Recording)
        → AreLinks bytes links → HoldsLinks links recording →
        RefusedByInput [] (commands_of headers links recording) }
    // If the input is within the limits of one command, a refusal depends only on the input as a whole.
    ensures whole { (headers : List Stream → ℕ → ℕ) (bytes : List ℕ) (links : List (List Page)) (recording : Recording)
        → AreLinks bytes links → HoldsLinks links recording →
        CanBeFed headers links recording → RefusedBy of_the_whole [] (commands_of headers links recording) }
{
    command_adds_its_packets();
    commands_add_their_packets();
}

/// What pages of a stream hold comes first in what they hold together with further pages, and as many packets end
/// in the pages as they hold. So packets can be given out page by page.
pub fn packets_of_a_front_come_first()
    ensures { (front back : List Page) (packets all : List (List ℕ)) (segments : ℕ) (rest : List ℕ) →
        HoldsPackets front packets segments rest → HoldsPackets (front ++ back) all 0 [] →
        (take (length packets) all ≡ packets) × (packets_ended (joined_lacing front) ≡ length packets) }
{}

/// The commands of a link are known page by page: those of one more page come after those of the pages before. The
/// packets that end in a page are what its stream's pages hold so far, without what the pages before it hold. So only
/// a link's `Begin` has to wait for a later page.
pub fn commands_come_page_by_page()
    ensures turn { (headers : ℕ → ℕ) (streams : List Stream) (before pages : List Page) (page : Page) →
        pages_commands headers streams before (pages ++ page ∷ [])
        ≡ pages_commands headers streams before pages ++ page_commands headers streams (before ++ pages) page }
    ensures packets { (headers : ℕ → ℕ) (streams : List Stream) (before after : List Page) (page : Page) (packets now : List (List ℕ)) (segments later : ℕ) (rest left : List ℕ) →
        HoldsPackets (pages_with page.serial before) packets segments rest →
        HoldsPackets (pages_with page.serial (before ++ page ∷ [])) now later left →
        HoldsPackets (pages_with page.serial (before ++ page ∷ after)) (packets_of streams page.serial) 0 [] →
        page_packets headers streams before page ≡ drop (headers page.serial - length packets) (drop (length packets) now) }
{}
