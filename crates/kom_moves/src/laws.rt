ghost use Rattle.kom_moves.specs.Moved.{MovesUnsettle};

use kom_batches::{batches_are_at_ports, releases_are_counted};
use kom_marks::unmarked_stay;
use kom_offered::releases_come_in;
use kom_refine::moved_follows;
use kom_state::numbers_stay;
use kom_times::follows_a_moved;
use kom_wakes::{busy_goes_on, comings_leave, counts_go_on, out_is_counted, queued_is_counted};

/// A run in which a move of time was noted stands for the record with it, but for who is runnable.
pub fn moves_unsettle()
    ensures { MovesUnsettle }
{
    batches_are_at_ports();
    releases_are_counted();
    releases_come_in();
    moved_follows();
    numbers_stay();
    follows_a_moved();
    unmarked_stay();
    busy_goes_on();
    comings_leave();
    counts_go_on();
    out_is_counted();
    queued_is_counted();
}
