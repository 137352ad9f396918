//! Laws of the numbers of channels and of the halves that places name; there is no code.
#![tactic(auto)]

ghost use Rattle.kom_numbered.specs.Laws.{ChannelsAreNumbered, ChannelsAreCounted, NumbersStay, HalvesByState};

/// The channels of an instance have numbers one after another, from its first on, and no other
/// number is one of theirs.
pub fn channels_are_numbered()
    ensures { ChannelsAreNumbered }
{}

/// The number of all channels is that of the first channel of the next instance.
pub fn channels_are_counted()
    ensures { ChannelsAreCounted }
{}

/// More effects leave the numbers of the channels that are there.
pub fn numbers_stay()
    ensures { NumbersStay }
{}

/// The half that a place of a living component names is read off the state.
pub fn halves_by_state()
    ensures { HalvesByState }
{}
