ghost use Rattle.std.specs.Prelude.{◌≡◌, ◌≤◌, false, IfOk, OnOk, OnErr};
ghost use Rattle.std.specs.Arc.{arc_value};
ghost use Rattle.kom_record.specs.Answers.{IsCommit, IsInHand};
ghost use Rattle.kom_record.specs.Entries.{acts};
ghost use Rattle.kom_record.specs.Instances.{alive};
ghost use Rattle.kom_turns.specs.Runs.{IsRun, IsButForRoom, system_of, history_of};

use crate::ended::{end_job, position_of};
use kom_record::{Entry, Outcome, Ran, Wakes};
use kom_refine::void_follows;
use kom_times::follows_a_did;
use kom_turns::Run;
use kom_wakes::{
    busy_goes_on, counts_go_on, out_is_counted, queued_is_counted, same_work_goes_on,
    untouched_stay, wakes_are_marked,
};
use sqlite_items::Items;
use std::alloc::{AllocError, Global};

/// Ends a job whose component was destroyed meanwhile: nothing of the handling is kept, and nobody
/// becomes ready. The error is want of memory, and the run is then as before. It costs the logarithm
/// of the number of jobs in hand and of components.
pub fn end_void(run: &mut Run, alloc: Global, ran: &Ran) -> Result<Wakes, AllocError>
    requires run { IsRun run.old }
    requires job { IsInHand (arc_value run.old.system) (history_of run.old) ran.now.job }
    requires destroyed { alive (system_of run.old) (acts (history_of run.old)) ran.now.job.c ≡ false }
    ensures answer { IfOk result (λ woken. IsCommit (arc_value run.old.system) run.old.env.plan (history_of run.old) ran.now woken (history_of run.new)) }
    ensures err { OnErr result (history_of run.new ≡ history_of run.old) }
    ensures run { IsRun run.new }
    ensures system { arc_value run.new.system ≡ arc_value run.old.system }
    ensures plan { run.new.env.plan ≡ run.old.env.plan }
{
    void_follows();
    follows_a_did();
    busy_goes_on();
    counts_go_on();
    out_is_counted();
    queued_is_counted();
    same_work_goes_on();
    untouched_stay();
    wakes_are_marked();
    make_room(run)?;
    let took = position_of(run, ran.job.w);
    let did = Entry::Did {
        w: ran.job.w,
        c: ran.job.c,
        took,
        outcome: Outcome::Void,
        to: None,
        unreached: Items::new(alloc),
    };
    end_job(run, ran.job.w, ran.job.c, did);
    Ok(Wakes::new(alloc))
}

/// Makes room for one more entry. On want of memory all is as before.
fn make_room(run: &mut Run) -> Result<(), AllocError>
    ensures same { IsButForRoom run.old run.new }
    ensures room { OnOk result (1 ≤ run.new.kept.spare) }
{
    run.kept.reserve(1)
}
