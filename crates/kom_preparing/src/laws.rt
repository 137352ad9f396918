ghost use Rattle.kom_preparing.specs.Laws.{SpaciousRunsStand};

use kom_puts::same_states_follow;
use kom_state::numbers_stay;

/// A run that stands for its record does so too where there is only more room. The call gives a
/// proof this fact, and does nothing else.
pub fn spacious_runs_stand()
    ensures { SpaciousRunsStand }
{
    same_states_follow();
    numbers_stay();
}
