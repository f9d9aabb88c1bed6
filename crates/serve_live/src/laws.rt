//! What always holds of what a listener hears.
ghost use Rattle.std.specs.Prelude.{◌≡◌, ◌++◌, [], ◌∷◌, ◌<◌, ◌^◌, ℕ, List, bit_xor, length, take, true, Some};
ghost use Rattle.std.specs.List.{AllByRecursion};
ghost use Rattle.byteorder.specs.Endian.{little_bytes};
ghost use Rattle.ogg_page.specs.Page.{Page, IsPage, bytes_of_pages, page_bytes};
ghost use Rattle.link_chain.specs.Links.{AreLinks, IsLink, flattened};
ghost use Rattle.link_chain.specs.Recording.{Stream, Recording, HoldsLink, HoldsLinks};
ghost use Rattle.link_chain.specs.ChainState.{chain_state_of, is_open};
ghost use Rattle.ogg_command.specs.Command.{IsCommand};
ghost use Rattle.ogg_command.specs.declared.command.Begin.{Begin as BeginOf};
ghost use Rattle.ogg_command.specs.declared.command.Command.{Command as CommandOf};
ghost use Rattle.ogg_command.specs.declared.command.Command.TheVariants.{Begin as BeginCommand};
ghost use Rattle.chain_rules.specs.Commands.{AreKept, bytes_of_commands, links_behind};
ghost use Rattle.serve_live.specs.Boundaries.{AreSpaced, begun_at, gone_on_by, last_of, newest, place_to_join};
ghost use Rattle.serve_live.specs.Commands.{AreHeard, NoneBegins};
ghost use Rattle.serve_live.specs.Places.{IsPlaceIn};
ghost use Rattle.serve_live.specs.declared.listener.JoinPlace.{JoinPlace as JoinPlaceOf};
ghost use Rattle.serve_live.specs.Heard.{heard, heard_bytes, heard_link};
ghost use Rattle.serve_live.specs.Joining.{AreLater, IsJoined, heard_streams};
ghost use Rattle.serve_live.specs.Listening.{Gives, IsLeft, ListenerState, has_heard_all};
ghost use Rattle.serve_live.specs.Following.{GoesOn, IsFollowing};
ghost use Rattle.serve_live.specs.Hearing.{IsHearing};
ghost use Rattle.serve_live.specs.Names.{name_in};
ghost use Rattle.serve_live.specs.declared.names.StreamName.{StreamName as StreamNameOf};
ghost use Rattle.serve_live.specs.Joined.{IsNew, IsNewAt};
ghost use Rattle.serve_live.specs.Pulling.{HasMoved};
ghost use Rattle.serve_live.specs.Live.{IsLive, IsMomentOf, Moment};
ghost use Rattle.serve_live.specs.Renaming.{HasSameRest, back_of, fields_change, fields_of, head_of, names_of, page_change, retold};
ghost use Rattle.ogg_page.specs.Head.{checksum_in};

use chain_rules::commands_add_their_packets;

/// What is heard of links, one of which was joined, is a chain of links again: the joined link without what was
/// passed, and the links after it as they are.
pub fn what_is_heard_is_a_chain()
    ensures links { (bytes : List ℕ) (before further : List (List Page)) (begin passed later : List Page)
        → AreLinks bytes (before ++ (begin ++ (passed ++ later)) ∷ further) → IsJoined begin passed → AreLater later →
        AreLinks (heard_bytes begin passed (later ++ flattened further)) (heard_link begin passed later ∷ further) }
    // If no link was open, the links that begin later are heard as they are.
    ensures waits { (bytes : List ℕ) (before further : List (List Page)) → AreLinks bytes (before ++ further)
        → AreLinks (heard_bytes [] [] (flattened further)) further }
    // The same up to any of the pages that are heard.
    ensures fronts { (bytes : List ℕ) (before further : List (List Page)) (begin passed later front rest : List Page)
        → AreLinks bytes (before ++ (begin ++ (passed ++ later)) ∷ further) → IsJoined begin passed → AreLater later →
        heard begin passed (later ++ flattened further) ≡ front ++ rest →
        (links : List (List Page)) × AreLinks (bytes_of_pages front) links }
    // Each stream holds the packets with which it began, and those since the listener joined.
    ensures holds { (bytes : List ℕ) (before further : List (List Page)) (begin passed later : List Page)
        (begun joined now : List Stream) (more : Recording)
        → AreLinks bytes (before ++ (begin ++ (passed ++ later)) ∷ further) → IsJoined begin passed → AreLater later →
        HoldsLink begin begun → HoldsLink (begin ++ passed) joined → HoldsLink (begin ++ (passed ++ later)) now →
        HoldsLinks further more →
        HoldsLinks (heard_link begin passed later ∷ further) (heard_streams begun joined now ∷ more) }
{}

/// What a listener hears that joined at any moment is a chain of links, whatever was committed since; and so it is up to
/// any of its pages.
pub fn what_is_live_is_a_chain()
    ensures whole { (front committed more bytes : List ℕ) (moment : Moment) (links : List (List Page)) → IsMomentOf front moment
        → committed ≡ front ++ more → AreLinks committed links → IsLive moment committed bytes
        → (heard : List (List Page)) × AreLinks bytes heard }
    ensures fronts { (front committed more bytes : List ℕ) (moment : Moment) (links : List (List Page)) (pages rest : List Page)
        → IsMomentOf front moment → committed ≡ front ++ more → AreLinks committed links → IsLive moment committed bytes
        → AllByRecursion IsPage (pages ++ rest) → bytes ≡ bytes_of_pages (pages ++ rest)
        → (heard : List (List Page)) × AreLinks (bytes_of_pages pages) heard }
{}

/// What is heard of a recording that grows by commands: a chain of links, whose first link holds what its Begin held
/// and the packets since the listener joined.
pub fn commands_are_heard()
    ensures { (bytes : List ℕ) (links : List (List Page)) (recording : Recording) (begin : BeginOf)
        (passed since : List CommandOf)
        → AllByRecursion IsCommand (BeginCommand begin ∷ passed) → AllByRecursion IsCommand since
        → AreLinks bytes links → HoldsLinks links recording
        → AreKept links (BeginCommand begin ∷ passed) → NoneBegins passed
        → is_open (chain_state_of (links_behind links (BeginCommand begin ∷ passed))) ≡ true
        → AreKept (links_behind links (BeginCommand begin ∷ passed)) since
        → AreHeard links recording begin passed since }
{
    commands_add_their_packets();
}

/// The place where a listener joins is a moment: that at which the bytes up to the boundary were committed.
pub fn places_are_moments()
    ensures { (committed : List ℕ) (links : List (List Page)) (moment : Moment) (place : JoinPlaceOf) → AreLinks committed links
        → IsPlaceIn links moment place → IsMomentOf (take place.boundary committed) moment }
{}

/// Commands make the places where a listener may join: a link that a `Begin` began may be joined after any of its
/// commands that leaves it open, as long as no other `Begin` has followed.
pub fn commands_make_places()
    ensures { (bytes : List ℕ) (links : List (List Page)) (recording : Recording) (begin : BeginOf)
        (passed since : List CommandOf) (place : JoinPlaceOf)
        → AllByRecursion IsCommand (BeginCommand begin ∷ passed) → AreLinks bytes links → HoldsLinks links recording
        → AreKept links (BeginCommand begin ∷ passed) → NoneBegins passed → NoneBegins since
        → is_open (chain_state_of (links_behind links (BeginCommand begin ∷ passed))) ≡ true
        → place.begin ≡ length bytes
        → place.begun ≡ length (bytes ++ bytes_of_commands links (BeginCommand begin ∷ []))
        → place.boundary ≡ length (bytes ++ bytes_of_commands links (BeginCommand begin ∷ passed))
        → (moment : Moment) × IsPlaceIn (links_behind (links_behind links (BeginCommand begin ∷ passed)) since) moment place }
{
    commands_add_their_packets();
}

/// If each boundary stands at least a page after the one before, the one that is lent is the newest after which `AHEAD`
/// bytes are committed, or the end of the link's beginning: no boundary that may be needed is forgotten.
pub fn the_newest_boundary_is_kept()
    ensures { (begin begun : ℕ) (ends : List ℕ) → AreSpaced begun ends
        → place_to_join (gone_on_by ends (begun_at begin begun))
        ≡ Some (record { begin = begin; begun = begun; boundary = newest (last_of begun ends) begun ends }) }
{}

/// What was heard stays, and more follows it as more is committed.
pub fn more_is_heard_as_more_is_committed()
    ensures { (begin passed after more : List Page)
        → (rest : List Page) × (heard begin passed (after ++ more) ≡ heard begin passed after ++ rest) }
{}

/// What a session gets that joined at one moment is one list of bytes, whatever is committed by now; and these bytes
/// stay in front of those that it gets once more is committed. The same holds of what a listener has still to hear.
pub fn sessions_hear_what_is_committed()
    ensures once { (moment : Moment) (committed bytes others : List ℕ) → IsLive moment committed bytes
        → IsLive moment committed others → bytes ≡ others }
    ensures grows { (moment : Moment) (committed bytes : List ℕ) (more : List Page) → IsLive moment committed bytes
        → AllByRecursion IsPage more → (new : List ℕ) × IsLive moment (committed ++ bytes_of_pages more) (bytes ++ new) }
    ensures left { (committed : List ℕ) (listener : ListenerState) (rest : List ℕ) (more : List Page)
        → IsLeft committed listener rest → AllByRecursion IsPage more
        → (new : List ℕ) × IsLeft (committed ++ bytes_of_pages more) listener (rest ++ new) }
{}

/// A listener that joined at a moment goes on hearing what it should: while more is committed, and by each pull, as
/// `Listener::pull` says it. So at any time what it was given is the front of what is heard of the bytes committed by
/// then.
pub fn listeners_hear_what_they_should()
    ensures begins { (committed : List ℕ) (moment : Moment) (listener : ListenerState) → IsMomentOf committed moment
        → IsNewAt moment listener → IsHearing moment committed listener [] }
    // The same of one that joins while no link is open.
    ensures waits { (committed : List ℕ) (listener : ListenerState) → IsNew (length committed) 0 (length committed) [] listener
        → IsHearing (record { place = length committed; begin = []; passed = [] }) committed listener [] }
    ensures grows { (moment : Moment) (committed : List ℕ) (listener : ListenerState) (given : List ℕ) (more : List Page)
        → IsHearing moment committed listener given → AllByRecursion IsPage more
        → IsHearing moment (committed ++ bytes_of_pages more) listener given }
    ensures pulls { (moment : Moment) (committed : List ℕ) (old new : ListenerState) (given : List ℕ) (size count : ℕ)
        (buffer : List ℕ) (hearing : IsHearing moment committed old given)
        → Gives committed hearing.rest size buffer count new → HasMoved committed old new
        → IsHearing moment committed new (given ++ take count buffer) }
{}

/// A listener that goes on in the next file hears on what it should: while more is committed, and by each pull, as
/// `Listener::pull` says it. What it was given there is at any time the front of the pages from where the link goes on,
/// under the serials and with the numbers under which the link was heard before.
pub fn listeners_hear_on()
    ensures begins { (names : List StreamNameOf) (place : ℕ) (before : List ℕ) (after : List Page) (listener : ListenerState)
        → length before ≡ place → AllByRecursion IsPage after → GoesOn place names listener
        → IsFollowing [] (name_in names) place (before ++ bytes_of_pages after) listener [] }
    ensures grows { (front : List ℕ) (names : ℕ → StreamNameOf) (place : ℕ) (committed : List ℕ) (listener : ListenerState) (given : List ℕ)
        (more : List Page) → IsFollowing front names place committed listener given → AllByRecursion IsPage more
        → IsFollowing front names place (committed ++ bytes_of_pages more) listener given }
    ensures pulls { (front : List ℕ) (names : ℕ → StreamNameOf) (place : ℕ) (committed : List ℕ) (old new : ListenerState) (given : List ℕ)
        (size count : ℕ) (buffer : List ℕ) (following : IsFollowing front names place committed old given)
        → Gives committed following.rest size buffer count new → HasMoved committed old new
        → IsFollowing front names place committed new (given ++ take count buffer) }
{}

/// A page whose fields before the checksum are others has a checksum that follows from the old one, the bits in which
/// the fields differ, and the page's size: no byte of its lacing values or its body counts.
pub fn renaming_is_exact()
    ensures fields { (old new : Page) → IsPage old → IsPage new → HasSameRest old new → page_bytes new
        ≡ fields_of new ++ (little_bytes 4 (bit_xor (checksum_in old) (fields_change old new)) ++ back_of old) }
    // The same of a page under another serial and with another number.
    ensures old { (page : Page) → page_bytes page
        ≡ head_of page ++ (names_of page.serial page.sequence ++ (little_bytes 4 (checksum_in page) ++ back_of page)) }
    ensures new { (serial number : ℕ) (page : Page) → IsPage page → serial < 2 ^ 32 → number < 2 ^ 32
        → page_bytes (retold serial number page)
        ≡ head_of page ++ (names_of serial number ++ (little_bytes 4 (bit_xor (checksum_in page)
        (page_change page serial number)) ++ back_of page)) }
{}
/// Of a listener that has heard all that is committed nothing is left to be heard.
pub fn nothing_is_left_once_all_is_heard()
    ensures { (committed rest : List ℕ) (listener : ListenerState) → has_heard_all (length committed) listener ≡ true
        → IsLeft committed listener rest → rest ≡ [] }
{}
