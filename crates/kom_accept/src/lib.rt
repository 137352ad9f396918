//! Laws of the syntax trees of system files that break no rule; there is no code.
#![tactic(auto)]

ghost use Rattle.kom_accept.specs.Laws.{AcceptedAreCounted, AcceptedAreWellFormed};

/// In a syntax tree that breaks no rule, the numbers of a system suffice for what is declared.
pub fn accepted_are_counted()
    ensures { AcceptedAreCounted }
{}

/// A syntax tree of version 1 or 2 that breaks no rule stands for a well-formed system: each number
/// in it names what it should, component types do not contain themselves, and no tree is too large.
pub fn accepted_are_well_formed()
    ensures { AcceptedAreWellFormed }
{}
