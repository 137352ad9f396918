ghost use Rattle.kom_coming.specs.Laws.{ComingsAreThere, EnteringHasCome, ComingsFit, ReceiversAreMade, QueuedRises, OutRises, PlacesFit};

use kom_limits::{acts_are_bounded, records_are_short};
use kom_lives::ends_are_at_living;
use kom_wakes::{out_is_counted, queued_is_counted};

/// What an entry brings into channels comes into directions that are there.
pub fn comings_are_there()
    ensures { ComingsAreThere }
{}

/// Once all that was worked out for an entry came in, what enters by the entry has come.
pub fn entering_has_come()
    ensures { EnteringHasCome }
{}

/// Each offer comes into a direction once at most.
pub fn comings_fit()
    ensures { ComingsFit }
{}

/// Who is at an end of a living channel was created.
pub fn receivers_are_made()
    ensures { ReceiversAreMade }
{
    ends_are_at_living();
}

/// As many events more wait in the channels as came in.
pub fn queued_rises()
    ensures { QueuedRises }
{
    queued_is_counted();
}

/// As many events more went out as the entry has goings.
pub fn out_rises()
    ensures { OutRises }
{
    out_is_counted();
}

/// The places of the offers of a handling, and the position of its entry, are numbers of 32 bits.
pub fn places_fit()
    ensures { PlacesFit }
{
    acts_are_bounded();
    records_are_short();
}
