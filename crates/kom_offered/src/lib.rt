//! Laws of which channels an offer enters, read off the state; there is no code.
#![tactic(auto)]

ghost use Rattle.kom_offered.specs.Laws.{OffersEnterByState, ReleasesEnterTheirChannel, AnswersGoOneWay, HomeReachesNothing, ReleasesComeIn, WaitingIsRead};

/// An offer enters the living channels that begin at its half and take it: a plain one by their
/// selectors, an answer by the way on which the event came.
pub fn offers_enter_by_state()
    ensures { OffersEnterByState }
{}

/// What the environment releases enters its own channel, whatever its event, and no other.
pub fn releases_enter_their_channel()
    ensures { ReleasesEnterTheirChannel }
{}

/// An answer to a Took can reach one channel alone: that by which the event came, against its way.
pub fn answers_go_one_way()
    ensures { AnswersGoOneWay }
{}

/// An answer that has come home reaches nothing.
pub fn home_reaches_nothing()
    ensures { HomeReachesNothing }
{}

/// What waits in a channel is of the event of the offer with its number, and goes on as that does.
pub fn waiting_is_read()
    ensures { WaitingIsRead }
{}

/// A Moved brings into a channel the numbers of the releases of that channel, in their order.
pub fn releases_come_in()
    ensures { ReleasesComeIn }
{}
