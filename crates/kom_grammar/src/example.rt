ghost use Rattle.kom_grammar.specs.Files.{SpellsFile};
ghost use Rattle.kom_grammar.specs.Example.{smallest_tokens, smallest_parts};

/// A law: the tokens of `system 1; component Main { } root Main();` spell the file that they look
/// like.
pub fn smallest_file()
    ensures { SpellsFile 41 smallest_tokens smallest_parts }
{}
