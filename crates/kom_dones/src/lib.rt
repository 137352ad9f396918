//! Laws by which a run goes on to the end of a handling; there is no code.
#![tactic(auto)]

ghost use Rattle.kom_dones.specs.Dones.{DonesAreLegal, DonesAreRecorded, DonesUnsettle};

use kom_marks::unmarked_stay;
use kom_raised::dones_are_told;
use kom_refine::handlings_end;
use kom_times::follows_a_did;
use kom_wakes::{busy_goes_on, counts_go_on};

/// Where a job ends with the reaction to its item, and a run was changed by it step by step, the run
/// stands for the record with the entry, but for its runnable components.
pub fn dones_unsettle()
    ensures { DonesUnsettle }
{
    handlings_end();
    follows_a_did();
    busy_goes_on();
    counts_go_on();
    unmarked_stay();
    dones_are_told();
}

/// Where a job ends with the reaction to its item, the record with the entry is legal.
pub fn dones_are_legal()
    ensures { DonesAreLegal }
{
    dones_are_told();
}

/// The entry of such a job is the one that ends it.
pub fn dones_are_recorded()
    ensures { DonesAreRecorded }
{
    dones_are_told();
}
