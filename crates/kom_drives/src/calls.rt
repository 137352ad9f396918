ghost use Rattle.std.specs.Prelude.{◌≡◌};
ghost use Rattle.kom_drives.specs.Hands.{Holds, KeepsAll, KeepsOthers, IsSameRun};
ghost use Rattle.kom_drives.specs.Says.{SaysTake, SaysEnd, SaysRest};

use kom_base::Comp;
use kom_eval::{Reacted, react};
use kom_record::{Committed, Job, Ran, Rest, Station, Taken, Wakes};
use kom_typed::jobs_are_well_formed;
use std::alloc::Global;

/// What a worker has in hand.
#[derive(Drop)]
pub struct Hand {
    /// The number of the worker.
    pub w: u32,
    /// The job that it has in hand.
    pub job: Option<Job>,
}

/// What came of a call.
#[derive(Drop)]
pub enum Said {
    /// An item was taken.
    Job,
    /// The component has nothing to do now, or a job of it is in hand.
    Nothing,
    /// The record is closed.
    Closed,
    /// The job was handled and ended, and these became ready by it.
    Ended(Wakes),
    /// The time moved, and these became ready by it.
    Moved(Wakes),
    /// This is the least component that is ready.
    Ready(Comp),
    /// None is ready, but a job is in hand.
    Waiting,
    /// Nothing is left to do.
    End,
    /// No call was made: a worker that has a job in hand takes no other, and one that has none ends
    /// none.
    NoCall,
    /// Want of memory; the record and the hand are as before.
    Memory,
}

/// Takes the next item of a component where the worker has no job in hand. The job is then in its
/// hand; what others have in hand stays there.
///
/// The answer is the station's: `Job`, `Nothing`, `Closed`, or `Memory`; with all but `Job` the
/// record and the hand are as before. `NoCall` is the answer to a worker that has a job in hand.
pub fn take_item<T: Station>(station: &mut T, hand: &mut Hand, c: Comp) -> Said
    requires { Holds (T.system station.old) (T.history station.old) hand.old }
    ensures says { SaysTake (T.system station.old) (T.plan station.old) (T.history station.old) hand.old.w c hand.old.job result (T.history station.new) }
    ensures run { IsSameRun T.system T.plan station.old station.new }
    ensures number { hand.new.w ≡ hand.old.w }
    ensures held { Holds (T.system station.old) (T.history station.new) hand.new }
    ensures others { KeepsOthers hand.old.w (T.system station.old) (T.history station.old) (T.history station.new) }
{
    if hand.job.is_some() {
        return Said::NoCall;
    }
    match station.take(hand.w, c) {
        Taken::Job(job) => {
            hand.job = Some(job);
            Said::Job
        }
        Taken::Nothing => Said::Nothing,
        Taken::Closed => Said::Closed,
        Taken::Memory => Said::Memory,
    }
}

/// Handles the job that the worker has in hand, and ends it. The worker has none then; what others
/// have in hand stays there.
///
/// The answer is `Ended` with those that became ready by it. `Memory` is want of memory for the
/// handling or for its end; the record is as before, and the job stays in hand. `NoCall` is the
/// answer to a worker that has none.
pub fn end_job<T: Station>(alloc: Global, station: &mut T, hand: &mut Hand) -> Said
    requires { Holds (T.system station.old) (T.history station.old) hand.old }
    ensures says { SaysEnd (T.system station.old) (T.plan station.old) (T.history station.old) hand.old.job result (T.history station.new) }
    ensures run { IsSameRun T.system T.plan station.old station.new }
    ensures number { hand.new.w ≡ hand.old.w }
    ensures held { Holds (T.system station.old) (T.history station.new) hand.new }
    ensures others { KeepsOthers hand.old.w (T.system station.old) (T.history station.old) (T.history station.new) }
{
    let Some(job) = hand.job.take() else {
        return Said::NoCall;
    };
    job.system.well_formed();
    jobs_are_well_formed();
    let ran = match react(alloc, job) {
        Reacted::Ran(ran) => ran,
        Reacted::Memory(job) => {
            hand.job = Some(job);
            return Said::Memory;
        }
    };
    match station.commit(ran) {
        Committed::Wakes(wakes) => Said::Ended(wakes),
        Committed::Memory(Ran { job, .. }) => {
            hand.job = Some(job);
            Said::Memory
        }
    }
}

/// Asks for a worker what there is to do, and moves the time where there is nothing else.
///
/// The answer is the station's: `Moved`, `Ready`, `Waiting`, `End`, `Closed`, or `Memory` with no
/// move. What each worker has in hand stays.
pub fn rest<T: Station>(station: &mut T, w: u32) -> Said
    ensures says { SaysRest (T.system station.old) (T.plan station.old) (T.history station.old) w result (T.history station.new) }
    ensures run { IsSameRun T.system T.plan station.old station.new }
    ensures held { KeepsAll (T.system station.old) (T.history station.old) (T.history station.new) }
{
    match station.rest(w) {
        Rest::Moved(wakes) => Said::Moved(wakes),
        Rest::Ready(c) => Said::Ready(c),
        Rest::Waiting => Said::Waiting,
        Rest::End => Said::End,
        Rest::Closed => Said::Closed,
        Rest::Memory => Said::Memory,
    }
}
