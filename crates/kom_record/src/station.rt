ghost use Rattle.std.specs.Prelude.{◌≡◌, List};
ghost use Rattle.kom_system.specs.declared.system.System.{System};
ghost use Rattle.kom_record.specs.declared.plan.Plan.{Plan};
ghost use Rattle.kom_record.specs.declared.entry.Entry.{Entry};

use crate::answers::{Committed, Rest, Taken, Tally};
use crate::job::Ran;
use crate::record::Record;
use kom_base::Comp;

/// A value that stands for a record of a system and a plan.
pub trait StandsFor {
    /// The system.
    ghost system: { Self → System };

    /// The plan.
    ghost plan: { Self → Plan };

    /// The entries of the record, the newest first.
    ghost history: { Self → List Entry };
}

/// The state of one run, which workers drive: they take jobs, handle them, and commit what came of
/// them.
///
/// A station stands for a record that is legal for its system and its plan, and the plan fits the
/// system. No call changes the system or the plan. Each answer other than `Taken::Job`,
/// `Committed::Wakes` and `Rest::Moved` leaves the record as it was.
pub trait Station: StandsFor {
    ghost use Rattle.kom_record.specs.Legal.{IsLegal};
    ghost use Rattle.kom_record.specs.Plans.{PlanFits};
    ghost use Rattle.kom_record.specs.Ready.{queued, out, has_more};
    ghost use Rattle.kom_record.specs.Answers.{AnswersTake, AnswersCommit, AnswersRest, IsFree, IsInHand};

    /// Takes the next item of a component for a worker that has no job in hand. `Closed` comes
    /// exactly where the record is closed, and `Nothing` exactly where it is not and the component
    /// is not ready.
    fn take(&mut self, w: u32, c: Comp) -> Taken
        requires { IsFree (Self.history self.old) w }
        ensures answer { AnswersTake (Self.system self.old) (Self.plan self.old) (Self.history self.old) w c result (Self.history self.new) }
        ensures system { Self.system self.new ≡ Self.system self.old }
        ensures plan { Self.plan self.new ≡ Self.plan self.old };

    /// Ends a job that is in hand. The Did is Void where the component was destroyed meanwhile.
    /// `Memory` gives the job back.
    fn commit(&mut self, ran: Ran) -> Committed
        requires { IsInHand (Self.system self.old) (Self.history self.old) ran.job }
        ensures answer { AnswersCommit (Self.system self.old) (Self.plan self.old) (Self.history self.old) ran result (Self.history self.new) }
        ensures system { Self.system self.new ≡ Self.system self.old }
        ensures plan { Self.plan self.new ≡ Self.plan self.old };

    /// Says what there is to do for a worker that found nothing, and moves the time where there is
    /// nothing else.
    fn rest(&mut self, w: u32) -> Rest
        ensures answer { AnswersRest (Self.system self.old).declarations (Self.plan self.old) (Self.history self.old) w result (Self.history self.new) }
        ensures system { Self.system self.new ≡ Self.system self.old }
        ensures plan { Self.plan self.new ≡ Self.plan self.old };

    /// What the record leaves. It takes no memory.
    fn tally(&self) -> Tally
        ensures queued { result.queued ≡ queued (Self.system self.now).declarations (Self.history self.now) }
        ensures out { result.out ≡ out (Self.system self.now).declarations (Self.history self.now) }
        ensures more { result.more ≡ has_more (Self.system self.now).declarations (Self.plan self.now) (Self.history self.now) };

    /// The record. It takes no memory.
    fn kept(&self) -> &Record
        ensures { result.now.history ≡ Self.history self.now };

    /// The record, of which nothing more is made. It takes no memory.
    fn into_kept(self) -> Record
        ensures { result.history ≡ Self.history self };

    ghost fits: { (s : Self) → ∥ PlanFits (Self.system s).declarations (Self.plan s) ∥₁ };

    ghost legal: { (s : Self) → ∥ IsLegal (Self.system s).declarations (Self.plan s) (Self.history s) ∥₁ };
}
