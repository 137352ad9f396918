//! Laws of who is alive in a run; there is no code.
#![tactic(auto)]

ghost use Rattle.kom_lives.specs.Laws.{EffectsAreByLiving, HandlersLive, AncestorsLive, OccupantsLive, EndsAreAtLiving, EffectsAreOrderly, SlotsHoldOne};

/// In a legal record each effect is by a component that was alive before it.
pub fn effects_are_by_living()
    ensures { EffectsAreByLiving }
{}

/// A component stays alive through its own handling.
pub fn handlers_live()
    ensures { HandlersLive }
{}

/// The ancestors of a living component are alive.
pub fn ancestors_live()
    ensures { AncestorsLive }
{}

/// Whoever is in a slot of a living component is alive.
pub fn occupants_live()
    ensures { OccupantsLive }
{}

/// A living channel is plugged at living components alone.
pub fn ends_are_at_living()
    ensures { EndsAreAtLiving }
{}

/// In a legal record of a well-formed system each Create finds its slot empty, and each effect is by
/// a living component.
pub fn effects_are_orderly()
    ensures { EffectsAreOrderly }
{}

/// A living component is the occupant of its slot, so a slot has one living component at most.
pub fn slots_hold_one()
    ensures { SlotsHoldOne }
{}
