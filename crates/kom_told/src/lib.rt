//! Laws of who is told of a fault, read off the state; there is no code.
#![tactic(auto)]

ghost use Rattle.kom_told.specs.Laws.{LivingAreThere, LinesByState, NearestByState};

/// A living component has its control row and its body in the state.
pub fn living_are_there()
    ensures { LivingAreThere }
{}

/// The ancestors of an instance are those of the state.
pub fn lines_by_state()
    ensures { LinesByState }
{}

/// Who is told of a fault of a living component is the first of its ancestors whose row catches
/// faults.
pub fn nearest_by_state()
    ensures { NearestByState }
{}
