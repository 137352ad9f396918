ghost use Rattle.kom_refine.specs.Within.{NothingIsAdded, PutsAddUp, ComesAddUp, PutsFollow, ComesFollow, EndsFollow, SamePointsFollow, HandlingsBeginFresh, HandlingsBegin, HandlingsAreWithin, HandlingsGoOn, HandlingsEnd, EffectsAreByCreated};

/// A state is as after nothing was put and nothing came.
pub fn nothing_is_added()
    ensures { NothingIsAdded }
{}

/// What is put in two steps is what is put in one.
pub fn puts_add_up()
    ensures { PutsAddUp }
{}

/// What comes in two steps is what comes in one.
pub fn comes_add_up()
    ensures { ComesAddUp }
{}

/// Control items that are put lead on to the point with them.
pub fn puts_follow()
    ensures { PutsFollow }
{}

/// Events that come into channels lead on to the point with them.
pub fn comes_follow()
    ensures { ComesFollow }
{}

/// The end of a handling leads on to the point at which its body is in force.
pub fn ends_follow()
    ensures { EndsFollow }
{}

/// What a point is does not depend on how that is written.
pub fn same_points_follow()
    ensures { SamePointsFollow }
{}

/// Before the effects of a handling, nothing has come to what it creates.
pub fn handlings_begin_fresh()
    ensures { HandlingsBeginFresh }
{}

/// What follows from the item and what the entry offers lead on to the point before the effects.
pub fn handlings_begin()
    ensures { HandlingsBegin }
{}

/// After some effects of a handling, the effects are those and those of the record, and nothing has
/// come to what is created later.
pub fn handlings_are_within()
    ensures { HandlingsAreWithin }
{}

/// One effect more of a handling leads on to the point after it.
pub fn handlings_go_on()
    ensures { HandlingsGoOn }
{}

/// The end of a handling after all its effects leads on to the record with its entry.
pub fn handlings_end()
    ensures { HandlingsEnd }
{}

/// In a legal record each effect is by a component that was created before it.
pub fn effects_are_by_created()
    ensures { EffectsAreByCreated }
{}
