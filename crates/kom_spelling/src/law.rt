ghost use Rattle.std.specs.Prelude.{◌≡◌, None};
ghost use Rattle.kom_system.specs.declared.parts.Parts.{Parts as Tree};
ghost use Rattle.kom_rules.specs.Broken.{broken_rule};
ghost use Rattle.kom_resolve.specs.Resolved.{resolved};
ghost use Rattle.kom_sysprint.specs.Canonical.{canonical_text};
ghost use Rattle.kom_spaced.specs.Spaced.{text_of};
ghost use Rattle.kom_written.specs.Declarations.{file_tokens};

/// A law: the canonical text of the system that a syntax tree stands for, where the tree breaks no
/// rule, is the text of the tokens with which the tree is written.
pub fn canonical_is_written()
    ensures { (P : Tree) → broken_rule P ≡ None → canonical_text (resolved P) ≡ text_of (file_tokens P) }
{}
