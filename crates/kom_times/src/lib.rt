//! Laws of what the environment has come to after a record; there is no code.
#![tactic(auto)]

ghost use Rattle.kom_times.specs.Laws.{TellsWhatIsPending, BeginsBeforeAll, StaysAtTook, FollowsADid, FollowsAMoved, GoOutInOrder, ReleasesAreFew, GoesOutOnce};

/// After a legal record, an environment that has followed it entry by entry tells what the record
/// says: its clock, what is pending and when the next of it is due, and what is released then.
pub fn tells_what_is_pending()
    ensures { TellsWhatIsPending }
{}

/// The environment of a run that begins stands for the empty record.
pub fn begins_before_all()
    ensures { BeginsBeforeAll }
{}

/// A Took leaves the environment as it was.
pub fn stays_at_took()
    ensures { StaysAtTook }
{}

/// As each event of a Did goes out, the environment absorbs it, and after the last it stands for the
/// record with the Did.
pub fn follows_a_did()
    ensures { FollowsADid }
{}

/// The next release of the environment is the batch of a Moved and goes to its time, and after it the
/// environment stands for the record with the Moved.
pub fn follows_a_moved()
    ensures { FollowsAMoved }
{}

/// Events go out in order of number: each is later than all that the environment absorbed before.
pub fn go_out_in_order()
    ensures { GoOutInOrder }
{}

/// A legal record has at most 100,000 releases.
pub fn releases_are_few()
    ensures { ReleasesAreFew }
{}

/// An offer goes out by one channel of the root at most.
pub fn goes_out_once()
    ensures { GoesOutOnce }
{}
