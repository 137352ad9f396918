ghost use Rattle.std.specs.Prelude.{◌≡◌, ℕ, List, [], None};
ghost use Rattle.kom_system.specs.declared.parts.Spot.{Spot};
ghost use Rattle.kom_system.specs.declared.parts.Parts.{Parts as Tree};
ghost use Rattle.kom_rules.specs.Names.{names_of, repeated};
ghost use Rattle.kom_rules.specs.Broken.{broken_rule};
ghost use Rattle.kom_sysread.specs.Answers.{IsTreeOf};
ghost use Rattle.kom_apart.specs.Apart.{AreOnce, HasNamesOnce};

/// A law: in the syntax tree of a text that breaks no rule, no name comes twice in its space.
pub fn accepted_are_apart()
    ensures { (text : List ℕ) (P : Tree) → IsTreeOf text P → broken_rule P ≡ None → HasNamesOnce P }
{}

/// A law: names of which none comes twice are not repeated, wherever they stand.
pub fn apart_are_once()
    ensures { (spots : List Spot) → AreOnce (names_of spots) → repeated spots ≡ [] }
{}
