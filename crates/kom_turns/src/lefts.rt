ghost use Rattle.std.specs.Prelude.{◌≡◌};
ghost use Rattle.kom_record.specs.Ready as ready;
ghost use Rattle.kom_turns.specs.Lefts.{AnswersLeft};
ghost use Rattle.kom_turns.specs.Runs.{IsRun, system_of, history_of};

use crate::run::Run;
use kom_base::Comp;
use kom_record::Tally;
use kom_times::tells_what_is_pending;

/// What a run has left to do.
#[derive(Clone, Copy, Debug)]
pub enum Left {
    /// Some component is ready; this is the one with the least number.
    Ready(Comp),
    /// None is ready, but a job is in hand.
    Waiting,
    /// None is ready and no job is in hand, but something is pending.
    Pending,
    /// Nothing is left to do.
    Nothing,
    /// The record is closed.
    Closed,
}

impl Run {
    /// What there is to do. It costs the logarithm of how much there is.
    pub fn left(&self) -> Left
        requires { IsRun self.now }
        ensures { AnswersLeft (system_of self.now) self.now.env.plan (history_of self.now) result }
    {
        tells_what_is_pending();
        if self.counts.is_closed() {
            return Left::Closed;
        }
        match self.runnable.first() {
            Some(c) => Left::Ready(c),
            None => match self.jobs.first_from(&0) {
                Some(_) => Left::Waiting,
                None => match self.env.next_due() {
                    Some(_) => Left::Pending,
                    None => Left::Nothing,
                },
            },
        }
    }

    /// What the record leaves. It takes no memory.
    pub fn tally(&self) -> Tally
        requires { IsRun self.now }
        ensures queued { result.queued ≡ ready.queued (system_of self.now) (history_of self.now) }
        ensures out { result.out ≡ ready.out (system_of self.now) (history_of self.now) }
        ensures more { result.more ≡ ready.has_more (system_of self.now) self.now.env.plan (history_of self.now) }
    {
        Tally {
            queued: self.counts.queued,
            out: self.counts.out,
            more: self.has_more(),
        }
    }

    /// Whether some component is runnable, or something is pending.
    fn has_more(&self) -> bool
        requires { IsRun self.now }
        ensures { result ≡ ready.has_more (system_of self.now) self.now.env.plan (history_of self.now) }
    {
        tells_what_is_pending();
        match self.runnable.first() {
            Some(_) => true,
            None => self.env.next_due().is_some(),
        }
    }
}
