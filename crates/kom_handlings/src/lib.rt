//! Laws of what holds at each effect of a handling; there is no code.
#![tactic(auto)]

ghost use Rattle.kom_handlings.specs.Laws.{EffectsComeInTurn, BodiesKnowTheirPlace};

/// At each effect of a handling in a legal record, its component is alive and the conditions of the
/// effect hold.
pub fn effects_come_in_turn()
    ensures { EffectsComeInTurn }
{}

/// In a legal record the body of a component has its component type and its depth.
pub fn bodies_know_their_place()
    ensures { BodiesKnowTheirPlace }
{}
