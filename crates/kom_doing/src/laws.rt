ghost use Rattle.kom_doing.specs.Laws.{EffectsMayBeDone, EffectsGoOn};
ghost use Rattle.kom_doing.specs.Rooms.{RoomIsLeft};

/// Where the state stands amid a handling and there is room, the next effect may be done. The call
/// gives a proof this fact, and does nothing else, like the next.
pub fn effects_may_be_done()
    ensures { EffectsMayBeDone }
{}

/// Once it is done, the state stands after it.
pub fn effects_go_on()
    ensures { EffectsGoOn }
{}

/// And there is room for those after it.
pub fn room_is_left()
    ensures { RoomIsLeft }
{}
