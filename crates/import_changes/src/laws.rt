//! What holds of all changed commands.
ghost use Rattle.std.specs.Prelude.{◌≡◌, [], ℕ, List, true};
ghost use Rattle.chain_rules.specs.Recording.{after};
ghost use Rattle.ogg_command.specs.declared.command.Command.{Command as CommandOf};
ghost use Rattle.import_changes.specs.Changed.{AreDistinctInLinks, ChangeState, HasChangedBeside, HaveTheirOwn};

/// With `renumber`, commands of links whose streams have distinct serials become commands of which no two streams share
/// a serial over all links, and none has one that was taken before the first command: a recorder refuses none of them
/// for its serial.
pub fn renumbered_streams_have_their_own_serials()
    ensures { (taken : List ℕ) (state : ChangeState) (commands given : List CommandOf) → HasChangedBeside taken state commands given
        → state.options.renumber ≡ true → AreDistinctInLinks (after [] commands) → HaveTheirOwn taken (after [] given) }
{}
