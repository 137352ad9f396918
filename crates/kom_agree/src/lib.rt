//! Laws of how the bodies of components agree with the effects of a run; there is no code.
#![tactic(auto)]

ghost use Rattle.kom_agree.specs.Laws.{BodiesAgree, BodiesAgreeWithin, BodiesFit, EffectsAreMet, EndsAreTaken};

/// The body of a component says the same of its slots and channels as the effects of the record: a
/// slot has a type in it where it has an occupant, of that type, and each channel is held and plugged
/// as the body has it.
pub fn bodies_agree()
    ensures { BodiesAgree }
{}

/// Within a handling, before each effect some body agrees for the handler with the effects before it,
/// and the bodies of all others do.
pub fn bodies_agree_within()
    ensures { BodiesAgreeWithin }
{}

/// Each number in a body names something, and its parts are as many as its type declares.
pub fn bodies_fit()
    ensures { BodiesFit }
{}

/// Each effect of a handling comes where its conditions hold: a Create finds its slot empty, a
/// Start, Stop, Dump and Destroy a filled one, an Unplug a held channel whose end is plugged, a Plug
/// one whose end is free.
pub fn effects_are_met()
    ensures { EffectsAreMet }
{}

/// Each end of a channel is plugged, by the body, at a port of the channel's type, on the side that has
/// the sign of the end.
pub fn ends_are_taken()
    ensures { EndsAreTaken }
{}
