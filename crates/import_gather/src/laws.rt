//! What always holds of the commands that pages are gathered into.
ghost use Rattle.std.specs.Prelude.{◌≡◌, ◌≤◌, ◌+◌, ◌*◌, ◌++◌, ◌∷◌, [], ℕ, false, List, None, length};
ghost use Rattle.std.specs.List.{AllByRecursion};
ghost use Rattle.ogg_page.specs.Page.{Page, IsPage};
ghost use Rattle.link_chain.specs.Links.{AreLinks};
ghost use Rattle.chain_rules.specs.Recording.{Recording, HoldsLinks, after};
ghost use Rattle.ogg_command.specs.declared.command.Command.{Command};
ghost use Rattle.import_gather.specs.Limits.{longest_packet};
ghost use Rattle.import_gather.specs.Cutting.{EndIn, first_size};
ghost use Rattle.link_chain.specs.ChainState.{is_open};
ghost use Rattle.link_chain.specs.Taking.{fault_of_page};
ghost use Rattle.import_gather.specs.Giving.{IsPlain, TakesOn, begin_if};
ghost use Rattle.import_gather.specs.Kept.{KeptLink, waits};
ghost use Rattle.import_gather.specs.Gathered.{Gathered, HasGathered};
ghost use Rattle.ogg_page.specs.Sizes.{full_value};

/// Once no link waits, the commands given hold the recording that the pages hold.
pub fn gathered_commands_hold_the_recording()
    ensures { (bytes : List ℕ) (links : List (List Page)) (gathered : Gathered) (given : List Command) (recording : Recording)
        → AreLinks bytes links → HasGathered links gathered given → waits gathered.link ≡ false → HoldsLinks links recording →
        after [] given ≡ recording }
{}

/// With a page that isn't too long no packet is longer than the longest that there may be. This holds of each packet
/// that ends in the page, and of the one that goes on after it.
pub fn packets_are_short()
    ensures { (rest : List ℕ) (segments : ℕ) (page : Page) (packets : List (List ℕ)) (left : List ℕ)
        → IsPage page → length rest ≡ full_value * segments → EndIn rest page packets left
        → length rest + first_size page.lacing ≤ longest_packet →
        AllByRecursion (λ packet. length packet ≤ longest_packet) (packets ++ left ∷ []) }
{}

/// The links are begun without a Skeleton, whether by a page or at the end. A Skeleton that the pages hold is a
/// stream of its link as the others are.
pub fn links_are_begun_without_a_skeleton()
    ensures page { (links : List (List Page)) (gathered : Gathered) (given : List Command) (page : Page) (new : KeptLink) (more : List Command)
        → fault_of_page gathered.chain page ≡ None → HasGathered links gathered given → TakesOn page (is_open gathered.chain) gathered.link new more →
        AllByRecursion IsPlain more }
    ensures end { (link : KeptLink) → AllByRecursion IsPlain (begin_if (waits link) link) }
{}
