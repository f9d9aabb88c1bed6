//! What always holds of serials that are given.
ghost use Rattle.std.specs.Prelude.{◌≡◌, ◌∷◌, [], ℕ, List, false, nat_eq};
ghost use Rattle.std.specs.List.{AllByRecursion, list_any};
ghost use Rattle.import_changes.specs.Naming.{AreNamed, AreNames, serials_of};
ghost use Rattle.import_renumber.specs.Renumbering.{BeginsUnder, given_to};
ghost use Rattle.ogg_command.specs.declared.command.Begin.{Begin};

/// Without a taken serial nothing is changed: a link whose streams have free serials is begun with the streams that it
/// has, and its packets and ends stay with them.
pub fn free_serials_stay()
    ensures begin { (taken : List ℕ) (names : List (ℕ × ℕ)) (begin now : Begin) → BeginsUnder taken names begin now
        → AllByRecursion (λ serial. list_any (nat_eq serial) taken ≡ false) (serials_of begin.streams) → now.streams ≡ begin.streams }
    ensures later { (taken : List ℕ) (names : List (ℕ × ℕ)) (spare serial : ℕ) → AreNames taken names → AreNamed names (serial ∷ [])
        → list_any (nat_eq serial) taken ≡ false → given_to names spare serial ≡ serial }
{}
