ghost use Rattle.std.specs.Prelude.{ℕ, List};
ghost use Rattle.kom_system.specs.Contents.{Contents};
ghost use Rattle.kom_sysprint.specs.Canonical.{canonical_text};
ghost use Rattle.kom_sysfile.specs.Answers.{IsSystem};

/// A law: the canonical text of the system that a text stands for stands for that system too. So
/// `read_system` gives it back from what `print_system` made of it, where that is no longer than a
/// file may be, unless memory runs out.
pub fn printed_is_read()
    ensures { (text : List ℕ) (s : Contents) → IsSystem text s → IsSystem (canonical_text s) s }
{}
