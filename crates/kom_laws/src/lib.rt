//! Laws of legal records, each the contract of a function that does nothing.
#![tactic(auto)]

ghost use Rattle.kom_laws.specs.Laws.{OneSimulation, EachInOrder, NumbersRise, DeadChannelsRest, ReceiptsAreHandedOver, StatesComeFromDumps, StatesAreHandedOver, HandlingsAlternate, OutcomesAreReactions, JobsStayInHand, EffectsAreBounded, FaultsReachTheNearest, EscalationsReachTheNearest, UnhandledFaultsClose};

/// A system and a plan have one simulation at most: two records that are legal, finished and in
/// the order of the simulation are equal.
pub fn one_simulation()
    ensures { OneSimulation }
{}

/// Each direction of a channel that does not go to the environment is received in order: what
/// entered it is what was received, followed by what waits.
pub fn each_in_order()
    ensures { EachInOrder }
{}

/// What entered a direction has strictly rising numbers.
pub fn numbers_rise()
    ensures { NumbersRise }
{}

/// After a channel is dead nothing enters it, and nothing is taken from it.
pub fn dead_channels_rest()
    ensures { DeadChannelsRest }
{}

/// Each receipt is by the component at which the direction then ends, and of the event that follows
/// on those that were received before, whoever received them: a replacement loses no event and gets
/// none twice.
pub fn receipts_are_handed_over()
    ensures { ReceiptsAreHandedOver }
{}

/// In a well-formed system a handling creates a component from a state only where it handles a
/// dumped item, and from the variables that it carries.
pub fn states_come_from_dumps()
    ensures { StatesComeFromDumps }
{}

/// In a well-formed system a component that is created from a state begins with the variables that
/// another one dumped, as they still are where that one has done nothing since.
pub fn states_are_handed_over()
    ensures { StatesAreHandedOver }
{}

/// A component handles one item at a time: its Took and Did entries alternate, beginning with a
/// Took.
pub fn handlings_alternate()
    ensures { HandlingsAlternate }
{}

/// What a Did records is the reaction of the component's body before it to the item that was
/// taken, and Void exactly where the component was destroyed meanwhile.
pub fn outcomes_are_reactions()
    ensures { OutcomesAreReactions }
{}

/// A job in hand stays in hand, with the same body, while other workers add entries.
pub fn jobs_stay_in_hand()
    ensures { JobsStayInHand }
{}

/// A handling has at most 32 effects, escalates at most once, and creates components from no state
/// but the one that its item carries.
pub fn effects_are_bounded()
    ensures { EffectsAreBounded }
{}

/// A fault is put to the nearest ancestor that has a fault handler subscribed, and to no one else.
pub fn faults_reach_the_nearest()
    ensures { FaultsReachTheNearest }
{}

/// A fault that is escalated is put, once, to the nearest ancestor that has a fault handler
/// subscribed.
pub fn escalations_reach_the_nearest()
    ensures { EscalationsReachTheNearest }
{}

/// A fault of which no ancestor is told closes the record.
pub fn unhandled_faults_close()
    ensures { UnhandledFaultsClose }
{}
