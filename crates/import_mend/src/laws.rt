//! What always holds of pages that are mended, over a whole input.
ghost use Rattle.std.specs.Prelude.{◌≡◌, ◌+◌, ◌-◌, ◌<◌, ◌^◌, ◌++◌, ◌∷◌, [], ℕ, Some, None, Ok, List, Option, true, false, length};
ghost use Rattle.std.specs.List.{AllByRecursion};
ghost use Rattle.ogg_page.specs.Page.{Page, IsPage, bytes_of_pages};
ghost use Rattle.ogg_page.specs.LogicalStream.{is_first};
ghost use Rattle.ogg_page.specs.Window.{LentAt};
ghost use Rattle.link_chain.specs.Links.{AreLinks};
ghost use Rattle.ogg_command.specs.declared.command.Command.{Command};
ghost use Rattle.ogg_command.specs.declared.command.Entry.{Entry};
ghost use Rattle.import_gather.specs.Giving.{IsPlain};
ghost use Rattle.import_gather.specs.Kept.{rest_of};
ghost use Rattle.import_gather.specs.Gathered.{Gathered, HasGathered, without_packet};
ghost use Rattle.import_mend.specs.Cut.{cut_links};
ghost use Rattle.import_mend.specs.Found.{AreGoodPages, FindsNext, FindsPages, HoldsNone};
ghost use Rattle.import_mend.specs.Gives.{GivesEnd, GivesRest, Mending, open_streams};
ghost use Rattle.import_mend.specs.Origin.{CommandFrom};
ghost use Rattle.import_mend.specs.Room.{HasRoom};
ghost use Rattle.import_mend.specs.Runs.{AreRun, ArePut, BeginsLast, ComeOut, GoesOnLast, HoldWhole, is_left_out, packets_in, packets_of, run_of, waiting_in};
ghost use Rattle.import_mend.specs.Ways.{way_of};
ghost use Rattle.import_mend.specs.Whole.{AreWithin, Becomes, GathersPages, HasMended, IsStart, TakesPage, TakesPages, lost_of, pages_of};
ghost use Rattle.import_mend.specs.declared.mend.Mend.{Mend};
ghost use Rattle.import_pages.specs.Reader.{ReaderState};

use import_gather::links_are_begun_without_a_skeleton;

/// If the unfinished packet of a stream is dropped, the commands given so far hold what the links hold whose last one
/// is cut back: its pages without that packet are a link too.
pub fn a_packet_is_dropped_from_the_links()
    ensures { (serial : ℕ) (links : List (List Page)) (gathered : Gathered) (given : List Command) → HasGathered links gathered given
        → HasGathered (cut_links serial links) (without_packet serial gathered) given }
{}

/// The commands given hold what a sound chain of links holds, at any time. The pages of these links are those of the
/// input as they are mended, and pages that end streams.
pub fn commands_hold_sound_links()
    ensures page { (offset : ℕ) (page : Page) (old new : Mending) (mend : Option Mend) (more given : List Command)
        (links : List (List Page)) → TakesPage offset page old new mend more → HasMended links old.gathered given
        → (now : List (List Page))
        × Becomes (way_of old.gathered.chain (lost_of old page) page) (lost_of old page) page old.gathered links now
        × HasMended now new.gathered (given ++ more) }
    ensures pages { (pages : List LentAt) (start new : Mending) (mends : List (Option Mend)) (given : List Command)
        → IsStart start → TakesPages pages start new mends given → (links : List (List Page)) × HasMended links new.gathered given }
    ensures end { (links : List (List Page)) (old new : Gathered) (given more : List Command)
        → GivesEnd old new more → HasMended links old given → (now : List (List Page)) × HasGathered now new (given ++ more) }
{}

/// Of a sound bitstream nothing is changed: no mend is told, and each page is gathered as it came. If all its streams
/// have ended, its end gives only what waited.
pub fn sound_bitstreams_are_not_changed()
    ensures told { (pages : List LentAt) (start new : Mending) (mends : List (Option Mend)) (given : List Command)
        (links : List (List Page)) → AllByRecursion IsPage (pages_of pages) → AreLinks (bytes_of_pages (pages_of pages)) links
        → AreWithin [] pages → IsStart start
        → TakesPages pages start new mends given → AllByRecursion (λ mend. mend ≡ None) mends }
    ensures gathers { (pages : List LentAt) (start new : Mending) (mends : List (Option Mend)) (given : List Command)
        (links : List (List Page)) → AllByRecursion IsPage (pages_of pages) → AreLinks (bytes_of_pages (pages_of pages)) links
        → AreWithin [] pages → IsStart start
        → TakesPages pages start new mends given → GathersPages pages start.gathered new.gathered given }
    ensures holds { (pages : List LentAt) (start new : Mending) (mends : List (Option Mend)) (given : List Command)
        (links : List (List Page)) → AllByRecursion IsPage (pages_of pages) → AreLinks (bytes_of_pages (pages_of pages)) links
        → AreWithin [] pages → IsStart start
        → TakesPages pages start new mends given → HasGathered links new.gathered given }
    ensures end { (old new : Gathered) (more : List Command) → open_streams old.chain ≡ [] → GivesEnd old new more
        → GivesRest old new more }
{}

/// The pages that are found are the good pages of the bytes, one after the other, and at the end no page is left in
/// them, however the reads cut them. The same bytes have one list of good pages.
pub fn pages_found_are_the_good_pages()
    ensures pages { (pages : List LentAt) (old : ReaderState) (bytes : List ℕ) (new : ReaderState) (left : Option (List ℕ))
        → old.offset + length (old.unread ++ bytes) < 2 ^ 64 - 1 → FindsPages old (Some bytes) pages new left
        → (rest : List ℕ) × (left ≡ Some rest) × AreGoodPages old.offset (old.unread ++ bytes) pages (new.unread ++ rest)
        × (new.offset + length (new.unread ++ rest) < 2 ^ 64 - 1) }
    ensures end { (old : ReaderState) (bytes : List ℕ) (new : ReaderState) (left : Option (List ℕ)) (before now : ℕ)
        → old.offset + length (old.unread ++ bytes) < 2 ^ 64 - 1 → FindsNext old (Some bytes) (Ok tt) new left before now → new.lent ≡ None
        → HoldsNone (old.unread ++ bytes) }
    ensures one { (offset : ℕ) (bytes : List ℕ) (pages others : List LentAt) (rest left : List ℕ)
        → AreGoodPages offset bytes pages rest → HoldsNone rest → AreGoodPages offset bytes others left → HoldsNone left → pages ≡ others }
{}

/// Each packet of the commands that are given lies whole in pages of the input that follow each other, and ends in the
/// last of them, whose position it has.
pub fn packets_come_from_the_input()
    ensures pages { (pages : List LentAt) (start new : Mending) (mends : List (Option Mend)) (given : List Command)
        → AllByRecursion IsPage (pages_of pages) → IsStart start → TakesPages pages start new mends given
        → AllByRecursion (CommandFrom (pages_of pages)) given }
    ensures end { (pages : List LentAt) (start new : Mending) (mends : List (Option Mend)) (last : Gathered) (given more : List Command)
        → AllByRecursion IsPage (pages_of pages) → IsStart start → TakesPages pages start new mends given → GivesEnd new.gathered last more
        → AllByRecursion (CommandFrom (pages_of pages)) (given ++ more) }
{}

/// Where nothing is told, nothing is lost: each packet that lies whole in a run of pages comes out, in order. It is put
/// with the position of the page in which it ends, unless it is a header, which waits for its link's `Begin`. Among all
/// packets of its stream those of a run stand in one piece.
pub fn whole_packets_come_out()
    ensures run { (serial : ℕ) (earlier run : List LentAt) (start old new : Mending) (told mends : List (Option Mend)) (before given : List Command)
        → AllByRecursion IsPage (pages_of run) → IsStart start → TakesPages earlier start old told before → TakesPages run old new mends given
        → AreRun serial run mends
        → (entries : List Entry) × HoldWhole serial (run_of serial run mends) entries × ArePut serial entries old.gathered.link.begun given
        × ComeOut serial (packets_of entries) old.gathered.link new.gathered.link given }
    ensures one { (serial : ℕ) (pages : List Page) (entries others : List Entry) → HoldWhole serial pages entries → HoldWhole serial pages others
        → entries ≡ others }
    // A stream's last page goes on with a run, and may leave a packet unfinished: all others come out.
    ensures last { (serial : ℕ) (earlier run : List LentAt) (lent : LentAt) (start old middle new : Mending) (told mends : List (Option Mend))
        (mend : Option Mend) (before given own : List Command)
        → AllByRecursion IsPage (pages_of run) → IsPage lent.1 → IsStart start → TakesPages earlier start old told before
        → TakesPages run old middle mends given → AreRun serial run mends → TakesPage lent.0 lent.1 middle new mend own
        → GoesOnLast serial (rest_of serial middle.gathered.link.streams) lent.1 mend
        → (entries : List Entry) × HoldWhole serial (run_of serial run mends ++ lent.1 ∷ []) entries
        × ArePut serial entries old.gathered.link.begun (given ++ own)
        × ComeOut serial (packets_of entries) old.gathered.link new.gathered.link (given ++ own) }
    // It may also be all of its run.
    ensures alone { (serial : ℕ) (earlier : List LentAt) (lent : LentAt) (start old new : Mending) (told : List (Option Mend)) (mend : Option Mend)
        (before own : List Command) → IsPage lent.1 → IsStart start → TakesPages earlier start old told before
        → TakesPage lent.0 lent.1 old new mend own → BeginsLast serial (rest_of serial old.gathered.link.streams) lent.1 mend
        → (entries : List Entry) × HoldWhole serial (lent.1 ∷ []) entries × ArePut serial entries old.gathered.link.begun own
        × ComeOut serial (packets_of entries) old.gathered.link new.gathered.link own }
    // The one packet of a stream's first page is its first header.
    ensures first { (offset : ℕ) (page : Page) (earlier : List LentAt) (start old new : Mending) (told : List (Option Mend)) (mend : Option Mend)
        (before given : List Command) → IsStart start → TakesPages earlier start old told before → TakesPage offset page old new mend given
        → is_first page ≡ true → is_left_out mend ≡ false → ComeOut page.serial (page.body ∷ []) old.gathered.link new.gathered.link given }
    // What waits comes out before anything else of its stream, whatever pages follow, and at the end all of it does.
    ensures waits { (serial : ℕ) (earlier pages : List LentAt) (start old new : Mending) (told mends : List (Option Mend)) (before given : List Command)
        → IsStart start → TakesPages earlier start old told before → TakesPages pages old new mends given
        → (packets : List (List ℕ)) × ComeOut serial packets old.gathered.link new.gathered.link given }
    ensures end { (serial : ℕ) (pages : List LentAt) (start new : Mending) (mends : List (Option Mend)) (last : Gathered) (given more : List Command)
        → IsStart start → TakesPages pages start new mends given → GivesEnd new.gathered last more
        → waiting_in serial new.gathered.link.streams ≡ packets_in serial more }
    // Of a whole input: what comes out by some of its pages stands in one piece among all packets of the stream.
    ensures whole { (serial : ℕ) (packets : List (List ℕ)) (earlier pages later : List LentAt) (start old middle new : Mending)
        (told mends others : List (Option Mend)) (last : Gathered) (before given after more : List Command)
        → IsStart start → TakesPages earlier start old told before → TakesPages pages old middle mends given
        → TakesPages later middle new others after → GivesEnd new.gathered last more
        → ComeOut serial packets old.gathered.link middle.gathered.link given
        → (front : List (List ℕ)) × (behind : List (List ℕ))
        × (packets_in serial (before ++ (given ++ (after ++ more))) ≡ front ++ (packets ++ behind)) }
{}

/// After any pages each open stream can be ended, as `Mender::end` and `Import::finish` then do.
pub fn open_streams_can_be_ended()
    ensures { (pages : List LentAt) (start new : Mending) (mends : List (Option Mend)) (given : List Command)
        → AllByRecursion IsPage (pages_of pages) → IsStart start → TakesPages pages start new mends given → HasRoom new.gathered.chain }
{}

/// No link is begun with a Skeleton: one of the input is a stream of its link as the others are.
pub fn commands_begin_links_without_a_skeleton()
    ensures pages { (pages : List LentAt) (start new : Mending) (mends : List (Option Mend)) (given : List Command)
        → IsStart start → TakesPages pages start new mends given → AllByRecursion IsPlain given }
    ensures end { (links : List (List Page)) (old new : Gathered) (given more : List Command) → GivesEnd old new more → HasMended links old given
        → AllByRecursion IsPlain more }
{
    links_are_begun_without_a_skeleton();
}
