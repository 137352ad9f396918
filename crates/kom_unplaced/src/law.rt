ghost use Rattle.std.specs.Prelude.{◌≡◌, ◌≤◌, ℕ, List, []};
ghost use Rattle.kom_system.specs.declared.parts.Parts.{Parts as Tree};
ghost use Rattle.kom_rules.specs.Broken.{places_by};
ghost use Rattle.kom_resolve.specs.Resolved.{resolved};
ghost use Rattle.kom_unplaced.specs.Clashing.{clashing};
ghost use Rattle.kom_written.specs.Unplaced.{unplaced};

/// A law: trees that are the same but for their places stand for the same system.
pub fn same_value()
    ensures { (P Q : Tree) → unplaced P ≡ unplaced Q → resolved P ≡ resolved Q }
{}

/// A law: of trees that are the same but for their places, one keeps each rule from 7 on that the
/// other keeps. Rule 6 asks which of two equal names stands before the other.
pub fn same_rules()
    ensures { (P Q : Tree) (number : ℕ) → unplaced P ≡ unplaced Q → 7 ≤ number → places_by number P ≡ [] → places_by number Q ≡ [] }
{}

/// A law: neither do names clash in one that do not clash in the other.
pub fn same_clashes()
    ensures { (P Q : Tree) → unplaced P ≡ unplaced Q → clashing P ≡ [] → clashing Q ≡ [] }
{}
