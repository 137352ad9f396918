//! Laws of how the state of a run stands for its record, and follows it entry by entry and effect
//! by effect; there is no code.
#![tactic(auto)]

mod within;

ghost use Rattle.kom_refine.specs.Laws.{NextIsFirst, TookFollows, MovedFollows, VoidFollows, FaultFollows, DoneFollows, EffectFollows, EffectsStayFresh};

pub use within::{
    comes_add_up, comes_follow, effects_are_by_created, ends_follow, handlings_are_within,
    handlings_begin, handlings_begin_fresh, handlings_end, handlings_go_on, nothing_is_added,
    puts_add_up, puts_follow, same_points_follow,
};

/// A Took takes the first item out of where it waits, and the state goes on from the record to that
/// with the Took.
pub fn took_follows()
    ensures { TookFollows }
{}

/// A Moved brings what it releases into the channels.
pub fn moved_follows()
    ensures { MovedFollows }
{}

/// A Void changes nothing.
pub fn void_follows()
    ensures { VoidFollows }
{}

/// A fault is put to the nearest ancestor that has a fault handler subscribed, and leaves the body
/// passive.
pub fn fault_follows()
    ensures { FaultFollows }
{}

/// A handling puts what follows from its item, brings what it offers into the channels, has its
/// effects one after another, and leaves its body.
pub fn done_follows()
    ensures { DoneFollows }
{}

/// One effect of a handling: of a channel, of an instance with all below it, or of control items.
pub fn effect_follows()
    ensures { EffectFollows }
{}

/// After an effect, nothing has come to what is created later.
pub fn effects_stay_fresh()
    ensures { EffectsStayFresh }
{}

/// A component for which no control item waits takes the event at the first of the fronts for it;
/// where there is none, nothing.
pub fn next_is_first()
    ensures { NextIsFirst }
{}
