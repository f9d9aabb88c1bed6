//! What always holds of cuts.
ghost use Rattle.std.specs.Prelude.{◌≡◌, ◌≢◌, ◌≤◌, ◌<◌, ◌^◌, ◌++◌, [], ◌∷◌, ℕ, List, None, false, length, map, nat_eq, take, true};
ghost use Rattle.std.specs.List.{AllByRecursion, AllZip, flat_map, list_any};
ghost use Rattle.ogg_page.specs.Page.{Page, IsPage, bytes_of_pages, page_bytes};
ghost use Rattle.ogg_command.specs.Command.{IsCommand};
ghost use Rattle.ogg_command.specs.declared.command.Begin.{Begin as BeginOf};
ghost use Rattle.ogg_command.specs.declared.command.Command.{Command as CommandOf};
ghost use Rattle.ogg_command.specs.declared.command.Command.TheVariants.{Begin as BeginCommand};
ghost use Rattle.link_chain.specs.ChainState.{chain_state_of, is_open};
ghost use Rattle.link_chain.specs.Links.{AreLinks, IsLink};
ghost use Rattle.link_chain.specs.Limits.{most_links};
ghost use Rattle.link_chain.specs.Recording.{Stream, Recording, Holds, HoldsLink, HoldsLinks};
ghost use Rattle.chain_rules.specs.Commands.{AreKept, bytes_of_commands, links_behind};
ghost use Rattle.serve_live.specs.Commands.{NoneBegins};
ghost use Rattle.link_chain.specs.declared.stream_state.StreamState.{StreamState as StreamStateOf};
ghost use Rattle.serve_live.specs.Following.{names_on as heard_on, open_streams};
ghost use Rattle.serve_live.specs.Heard.{named_after, named_page};
ghost use Rattle.serve_live.specs.Joining.{AreLater};
ghost use Rattle.serve_live.specs.Names.{name_in};
ghost use Rattle.serve_live.specs.Live.{IsMomentOf, Moment};
ghost use Rattle.archive_cut.specs.Cutting.{CutState, GivesOf, IsCutting};
ghost use Rattle.archive_cut.specs.Files.{AreCuts, CutsHold, HasEnded, Part, bytes_of_cuts, recording_of_cuts};
ghost use Rattle.archive_cut.specs.Continuing.{names_on, open_states};
ghost use Rattle.serve_live.specs.Joined.{IsNew};
ghost use Rattle.archive_cut.specs.Cut.{HasNumbers, IsCut, ended_bytes};
ghost use Rattle.archive_cut.specs.Heads.{streams_after};
ghost use Rattle.archive_cut.specs.Finished.{EndWell, finished_bytes};
ghost use Rattle.archive_cut.specs.Joined.{AreNextFiles, CanGoOn, FileRecording, GoesOn, HoldsFile, NextFile, continued, joined_link, joined_streams, names_in_order, open_in, with_files, with_recordings};
ghost use Rattle.archive_cut.specs.Packets.{IsCutBetween, IsCutMidway, all_ended, begun_by, cut_recording, ended_with, packets_for};
ghost use Rattle.archive_cut.specs.Parts.{IsCutOf, all_of, cut_at, joined_cut, joined_cuts, nothing, place_after, start_of};
ghost use Rattle.archive_times.specs.Asked.{RiseFrom, offset_at, offset_of};
ghost use Rattle.archive_times.specs.Times.{AreTimes};
ghost use Rattle.archive_cut.specs.Placing.{stood_at};
ghost use Rattle.archive_cut.specs.declared.placing.Recorded.{Recorded as RecordedOf};
ghost use Rattle.archive_times.specs.declared.line.Line.{Line as LineOf};
ghost use Rattle.archive_cut.specs.Stretch.{stretch_rest};
ghost use Rattle.archive_cut.specs.Times.{AddUp, AreBoundaries, IsBoundary, NeverFall, stood};

use archive_times::{lines_are_known_by_their_text, the_place_of_a_time};
use chain_rules::{command_adds_pages, commands_add_their_packets};
use ogg_finish::finished_links_hold_the_same;
use serve_live::{commands_are_heard, sessions_hear_what_is_committed, what_is_heard_is_a_chain};

/// A cut of a file that grew by commands is a chain of links in which all streams have ended. It holds what the link
/// held when it began that is open where the cut begins, and exactly what the commands of the cut add.
pub fn commands_are_cut()
    ensures whole { (front part : List CommandOf) → AllByRecursion IsCommand (front ++ part) → AreKept [] (front ++ part)
        → IsCutOf front part }
    // There is one such moment: it is known by the bytes that are committed and by the pages with which the link began.
    ensures moment { (committed : List ℕ) (one other : Moment) → IsMomentOf committed one → IsMomentOf committed other
        → one.begin ≡ other.begin → one ≡ other }
    // The same after any links: of a link that a command began, and where no link is open.
    ensures midway { (bytes : List ℕ) (links : List (List Page)) (recording : Recording) (begin : BeginOf)
        (passed since : List CommandOf)
        → AllByRecursion IsCommand (BeginCommand begin ∷ passed) → AllByRecursion IsCommand since
        → AreLinks bytes links → HoldsLinks links recording
        → AreKept links (BeginCommand begin ∷ passed) → NoneBegins passed
        → is_open (chain_state_of (links_behind links (BeginCommand begin ∷ passed))) ≡ true
        → AreKept (links_behind links (BeginCommand begin ∷ passed)) since
        → IsCutMidway bytes links begin passed since }
    ensures between { (bytes : List ℕ) (links : List (List Page)) (recording : Recording) (since : List CommandOf)
        → AllByRecursion IsCommand since → AreLinks bytes links → HoldsLinks links recording
        → is_open (chain_state_of links) ≡ false → AreKept links since
        → IsCutBetween bytes links since }
{
    commands_add_their_packets();
    commands_are_heard();
    what_is_heard_is_a_chain();
    sessions_hear_what_is_committed();
}

/// In plain words: a cut within a link holds, for each stream, what it held when the link began, and then each packet
/// that the cut's commands put into it, in their order. Each link that is begun in the cut stands for itself. Of parts,
/// each packet stands in the part whose command put it.
pub fn cuts_hold_what_was_put()
    ensures link { (streams : List Stream) (part : List CommandOf) → NoneBegins part
        → cut_recording (streams ∷ []) part ≡ map (ended_with part) streams ∷ [] }
    ensures further { (streams : List Stream) (first : List CommandOf) (begin : BeginOf) (rest : List CommandOf) → NoneBegins first
        → cut_recording (streams ∷ []) (first ++ BeginCommand begin ∷ rest)
        ≡ cut_recording (streams ∷ []) first ++ cut_recording (begun_by begin) rest }
    ensures parts { (serial : ℕ) (parts : List (List CommandOf))
        → packets_for serial (all_of parts) ≡ flat_map (packets_for serial) parts }
{}

/// Two cuts, the second from where the first ends, are together the cut of both; and so are the cuts of any parts. What
/// a link held when it began stands in each cut that begins in the link, and counts once; each packet that a command
/// put is in the cut of the part that has the command, and in no other.
pub fn cuts_add_up()
    ensures both { (front first second : List CommandOf) → AllByRecursion IsCommand (front ++ (first ++ second))
        → AreKept [] (front ++ (first ++ second))
        → joined_cut (start_of (place_after (place_after nothing front) first)) (cut_at (place_after nothing front) first)
        (cut_at (place_after (place_after nothing front) first) second)
        ≡ cut_at (place_after nothing front) (first ++ second) }
    // The same of cuts over several files: what is cut of files before stands in front, and what is cut of files after
    // follows.
    ensures files { (before later : Recording) (front first second : List CommandOf)
        → AllByRecursion IsCommand (front ++ (first ++ second)) → AreKept [] (front ++ (first ++ second))
        → joined_cut (start_of (place_after (place_after nothing front) first)) (before ++ cut_at (place_after nothing front) first)
        (cut_at (place_after (place_after nothing front) first) second ++ later)
        ≡ before ++ (cut_at (place_after nothing front) (first ++ second) ++ later) }
    ensures all { (front : List CommandOf) (parts : List (List CommandOf)) → AllByRecursion IsCommand (front ++ all_of parts)
        → AreKept [] (front ++ all_of parts)
        → joined_cuts (place_after nothing front) parts ≡ cut_at (place_after nothing front) (all_of parts) }
{
    commands_add_their_packets();
}

/// A cut that is given piece by piece, as `Cut::pull` says it, is given as it should: at any time what was given and
/// what is left are together the cut.
pub fn cuts_are_given()
    ensures { (moment : Moment) (committed : List ℕ) (old new : CutState) (given : List ℕ) (size count : ℕ) (buffer : List ℕ)
        (cutting : IsCutting moment committed old given) → GivesOf committed cutting.rest size buffer count new
        → IsCutting moment committed new (given ++ take count buffer) }
{}

/// A cut from a place where no link is open has the file's own bytes from there on, and then the pages that end what is
/// open: a `Stretch` gives it.
pub fn waiting_cuts_are_stretches()
    ensures { (moment : Moment) (committed : List ℕ) (cut : CutState) (start : ℕ) → IsCutting moment committed cut []
        → IsNew start 0 start [] cut.listener
        → IsCut moment committed (stretch_rest committed (record { place = start; end = cut.end; text = cut.text })) }
{}

/// Places between commands divide the commands of a file, and so do times. The cuts from each place to the next hold what
/// was committed between the two, and over any division of a span of time they add up: each packet stands once.
pub fn cuts_of_times_add_up()
    ensures places { (commands : List CommandOf) (start : ℕ) (places : List ℕ) → AllByRecursion IsCommand commands
        → AreKept [] commands → IsBoundary commands start → AllByRecursion (IsBoundary commands) places → NeverFall start places
        → AddUp commands start places }
    // By lines of times alone.
    ensures lines { (commands : List CommandOf) (lines : List LineOf) (start : ℕ) (times : List ℕ) → AllByRecursion IsCommand commands
        → AreKept [] commands → RiseFrom 0 lines → AreBoundaries commands lines → NeverFall start times
        → AddUp commands (offset_at 0 lines start) (map (offset_at 0 lines) times) }
    // By lines of times, the file's name, and that of the next file, as `stood_at` tells where the file stood.
    ensures stood { (commands : List CommandOf) (file : RecordedOf) (lines : List LineOf) (start : ℕ) (times : List ℕ)
        → AllByRecursion IsCommand commands → AreKept [] commands
        → AreTimes file.committed None lines → AreBoundaries commands lines
        → file.committed ≡ length (bytes_of_commands [] commands) → NeverFall start times
        → AddUp commands (stood file lines start) (map (stood file lines) times) }
{
    commands_add_their_packets();
    command_adds_pages();
    commands_are_heard();
    what_is_heard_is_a_chain();
    sessions_hear_what_is_committed();
    the_place_of_a_time();
    files_stand_in_order();
}

/// A file stands no earlier at a later time, and always at its beginning, at a line, or at the end of what is committed. So
/// any rising times divide what is committed of it.
pub fn files_stand_in_order()
    ensures rises { (file : RecordedOf) (lines : List LineOf) (earlier later : ℕ) → AreTimes file.committed None lines
        → earlier ≤ later → (stood_at file lines earlier).offset ≤ (stood_at file lines later).offset }
    ensures known { (file : RecordedOf) (lines : List LineOf) (time : ℕ)
        → list_any (nat_eq (stood_at file lines time).offset) (0 ∷ file.committed ∷ map offset_of lines) ≡ true }
{
    the_place_of_a_time();
    lines_are_known_by_their_text();
}

/// Cuts of several files, one after the other, are a chain of links, which holds what they hold, one after the other.
pub fn cuts_are_a_chain()
    ensures chain { (cuts : List (List ℕ)) (recordings : List Recording) → AllZip Holds cuts recordings
        → AllByRecursion HasEnded recordings → length (recording_of_cuts recordings) ≤ most_links
        → Holds (bytes_of_cuts cuts) (recording_of_cuts recordings) }
    // The same of files, each from where its cut begins up to where it ends.
    ensures files { (parts : List Part) (cuts : List (List ℕ)) (recordings : List Recording) → AreCuts parts cuts → CutsHold parts recordings
        → AllByRecursion HasEnded recordings → length (recording_of_cuts recordings) ≤ most_links
        → Holds (bytes_of_cuts cuts) (recording_of_cuts recordings) }
    ensures ended { (recording : Recording) → HasEnded (all_ended recording) }
{}

/// A finished cut holds what the cut holds, and each of its streams ends where players look for it: on a marked page
/// with a packet, if there is one.
pub fn cuts_can_be_finished()
    ensures holds { (cut : List ℕ) (recording : Recording) (held : Holds cut recording) → Holds (finished_bytes held.0) recording }
    ensures ends { (cut : List ℕ) (recording : Recording) (held : Holds cut recording) → HasEnded recording
        → AllByRecursion EndWell held.0 }
{
    finished_links_hold_the_same();
}

/// A link that goes on with the pages of another, under the serials and with the numbers of its own streams, is one
/// sound link. Its streams hold the packets of both, and what the second held when it began is left out. So does a
/// chain in which the last link of one file and the first of the next are one.
pub fn links_go_on()
    ensures link { (first begin later : List Page) (names : List (ℕ × ℕ)) → IsLink first → IsLink (begin ++ later) → AreLater later
        → GoesOn first begin names → IsLink (joined_link first begin names later) }
    ensures holds { (first begin later : List Page) (names : List (ℕ × ℕ)) (one begun now : List Stream) → IsLink first
        → IsLink (begin ++ later) → AreLater later → GoesOn first begin names
        → HoldsLink first one → HoldsLink begin begun → HoldsLink (begin ++ later) now
        → HoldsLink (joined_link first begin names later) (joined_streams names begun now one) }
    ensures chain { (one other : List ℕ) (before further : List (List Page)) (first begin later : List Page) (names : List (ℕ × ℕ))
        → AreLinks one (before ++ first ∷ []) → AreLinks other ((begin ++ later) ∷ further) → AreLater later
        → GoesOn first begin names → AllByRecursion IsPage (map (continued first begin names) later)
        → length (before ++ joined_link first begin names later ∷ further) ≤ most_links
        → AreLinks (flat_map bytes_of_pages (before ++ joined_link first begin names later ∷ further))
        (before ++ joined_link first begin names later ∷ further) }
    ensures chain_holds { (before further : List (List Page)) (first begin later : List Page) (names : List (ℕ × ℕ)) (old more : Recording)
        (one begun now : List Stream) → IsLink first → IsLink (begin ++ later) → AreLater later → GoesOn first begin names
        → HoldsLinks (before ++ first ∷ []) (old ++ one ∷ []) → length old ≡ length before
        → HoldsLink begin begun → HoldsLinks ((begin ++ later) ∷ further) (now ∷ more)
        → HoldsLinks (before ++ joined_link first begin names later ∷ further) (old ++ joined_streams names begun now one ∷ more) }
    // The streams of a Begin that haven't ended may go on with those that are open, in order, if they are as many.
    ensures order { (first begin : List Page) → IsLink first → IsLink begin → CanGoOn first begin
        → GoesOn first begin (names_in_order first begin) }
    // What the heads of a link's pages leave of its streams is what `names_on` is given, and then `named_page` gives each
    // page of such a stream as it is in the joined link.
    ensures states { (pages : List Page) → AllByRecursion IsPage pages → IsLink pages
        → open_streams (streams_after [] pages) ≡ open_states pages }
    ensures names { (first begin : List Page) (page : Page) → length (open_in begin) ≡ length (open_in first)
        → list_any (nat_eq page.serial) (open_in begin) ≡ true
        → named_page (name_in (names_on (open_states begin) (open_states first))) page
        ≡ continued first begin (names_in_order first begin) page }
{}

/// Who hears a link on in the next file hears the pages of the joined link there, if the streams go on in order: from
/// the numbers that they have reached in the first file, and in the second after the Begin, which isn't heard.
pub fn listeners_hear_the_joined_link()
    ensures { (first begun : List StreamStateOf) (later : List Page) → AreLater later
        → bytes_of_pages (named_after (name_in (heard_on [] first begun)) later) ≡ bytes_of_pages (map (named_page (name_in (names_on begun first))) later) }
{}

/// Any number of files, each of which goes on with the last link of what came before, are together a chain of links,
/// which holds the packets of all.
pub fn files_go_on()
    ensures links { (bytes : List ℕ) (links : List (List Page)) (files : List NextFile) → links ≢ [] → AreLinks bytes links
        → AreNextFiles links files → (joined : List ℕ) × AreLinks joined (with_files links files) }
    ensures holds { (bytes : List ℕ) (links : List (List Page)) (recording : Recording) (files : List NextFile) (held : List FileRecording)
        → links ≢ [] → AreLinks bytes links → AreNextFiles links files → HoldsLinks links recording → AllZip HoldsFile files held
        → HoldsLinks (with_files links files) (with_recordings recording files held) }
    // And then what is open is ended.
    ensures ended { (bytes : List ℕ) (links : List (List Page)) (recording : Recording) → AreLinks bytes links → HoldsLinks links recording
        → HasNumbers links → Holds (ended_bytes bytes links) (all_ended recording) }
{}
