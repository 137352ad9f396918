ghost use Rattle.std.specs.Prelude.{◌≡◌, true, IfOk, OnErr};
ghost use Rattle.std.specs.Arc.{arc_value};
ghost use Rattle.kom_record.specs.Answers.{IsCommit, IsInHand};
ghost use Rattle.kom_record.specs.Entries.{acts};
ghost use Rattle.kom_record.specs.Instances.{alive};
ghost use Rattle.kom_turns.specs.Runs.{IsRun, system_of, history_of};

use kom_completing::end_done;
use kom_endings::end_void;
use kom_faults::end_fault;
use kom_record::{Outcome, Ran, Wakes};
use kom_turns::Run;
use std::alloc::{AllocError, Global};

/// Ends a job that is in hand, as Void where its component was destroyed meanwhile. The error is
/// want of memory, and the record is then as before. It costs what the effects of the handling
/// change, with the logarithms of the numbers of components and of channels.
pub fn end(run: &mut Run, alloc: Global, ran: &Ran) -> Result<Wakes, AllocError>
    requires run { IsRun run.old }
    requires job { IsInHand (arc_value run.old.system) (history_of run.old) ran.now.job }
    ensures answer { IfOk result (λ woken. IsCommit (arc_value run.old.system) run.old.env.plan (history_of run.old) ran.now woken (history_of run.new)) }
    ensures err { OnErr result (history_of run.new ≡ history_of run.old) }
    ensures run { IsRun run.new }
    ensures system { arc_value run.new.system ≡ arc_value run.old.system }
    ensures plan { run.new.env.plan ≡ run.old.env.plan }
{
    if run.state.alive(ran.job.c) {
        return end_living(run, alloc, ran);
    }
    end_void(run, alloc, ran)
}

/// Ends a job whose component is alive, by what came of its handling.
fn end_living(run: &mut Run, alloc: Global, ran: &Ran) -> Result<Wakes, AllocError>
    requires run { IsRun run.old }
    requires job { IsInHand (arc_value run.old.system) (history_of run.old) ran.now.job }
    requires lives { alive (system_of run.old) (acts (history_of run.old)) ran.now.job.c ≡ true }
    ensures answer { IfOk result (λ woken. IsCommit (arc_value run.old.system) run.old.env.plan (history_of run.old) ran.now woken (history_of run.new)) }
    ensures err { OnErr result (history_of run.new ≡ history_of run.old) }
    ensures run { IsRun run.new }
    ensures system { arc_value run.new.system ≡ arc_value run.old.system }
    ensures plan { run.new.env.plan ≡ run.old.env.plan }
{
    match &ran.outcome {
        Outcome::Done { .. } => end_done(run, alloc, ran),
        Outcome::Fault(_) => end_fault(run, alloc, ran),
        Outcome::Void => unreachable!(),
    }
}
