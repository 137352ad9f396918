ghost use Rattle.std.specs.Prelude.{ℕ, List};
ghost use Rattle.kom_system.specs.declared.parts.Parts.{Parts as Tree};
ghost use Rattle.kom_parse.specs.Lexemes.{Lexeme};
ghost use Rattle.kom_grammar.specs.Files.{SpellsFile};
ghost use Rattle.kom_written.specs.Declarations.{file_tokens};
ghost use Rattle.kom_written.specs.Again.{AreSound, IsFileAgain};

/// A law: a syntax tree that tokens of a text spell is spelled again by the tokens with which it is
/// written, but for its places.
pub fn files_again()
    ensures { (end : ℕ) (t : List Lexeme) (P : Tree) → SpellsFile end t P → AreSound t → IsFileAgain (file_tokens P) P }
{}
