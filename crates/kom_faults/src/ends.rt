ghost use Rattle.std.specs.Prelude.{◌≡◌, true, IfOk, OnErr, IsSome, Some};
ghost use Rattle.std.specs.Option.{option_map};
ghost use Rattle.std.specs.Arc.{arc_value};
ghost use Rattle.kom_record.specs.Answers.{IsCommit, IsInHand};
ghost use Rattle.kom_record.specs.Entries.{acts};
ghost use Rattle.kom_record.specs.Instances.{alive};
ghost use Rattle.kom_turns.specs.Runs.{IsRun, system_of, history_of};
ghost use Rattle.kom_faults.specs.Faulted.{fault_of};

use crate::noted::note_fault;
use crate::room::make_room;
use kom_base::Comp;
use kom_endings::{end_job, position_of};
use kom_marks::{settle, settled_stands, unmarked_stay};
use kom_puts::{faults_are_put, same_states_follow, told_of};
use kom_record::{Entry, Outcome, Ran, Wakes};
use kom_refine::fault_follows;
use kom_state::numbers_stay;
use kom_times::follows_a_did;
use kom_turns::Run;
use kom_wakes::{busy_goes_on, counts_go_on, out_is_counted, queued_is_counted};
use sqlite_items::Items;
use std::alloc::{AllocError, Global};

/// Ends a job whose handling faulted and whose component is alive: the component is passive then,
/// and the fault is put to the closest ancestor that has a fault handler subscribed. Where none has
/// one the record is closed. The error is want of memory, and the record is then as before. It
/// costs the depth of the component, and the logarithm of the number of jobs in hand, of components
/// and of channels.
pub fn end_fault(run: &mut Run, alloc: Global, ran: &Ran) -> Result<Wakes, AllocError>
    requires run { IsRun run.old }
    requires job { IsInHand (arc_value run.old.system) (history_of run.old) ran.now.job }
    requires lives { alive (system_of run.old) (acts (history_of run.old)) ran.now.job.c ≡ true }
    requires fault { IsSome (fault_of ran.now.outcome) }
    ensures answer { IfOk result (λ woken. IsCommit (arc_value run.old.system) run.old.env.plan (history_of run.old) ran.now woken (history_of run.new)) }
    ensures err { OnErr result (history_of run.new ≡ history_of run.old) }
    ensures run { IsRun run.new }
    ensures system { arc_value run.new.system ≡ arc_value run.old.system }
    ensures plan { run.new.env.plan ≡ run.old.env.plan }
{
    fault_follows();
    faults_are_put();
    same_states_follow();
    numbers_stay();
    follows_a_did();
    busy_goes_on();
    counts_go_on();
    out_is_counted();
    queued_is_counted();
    unmarked_stay();
    settled_stands();
    let number = number_of(&ran.outcome);
    let told = told_of(&run.state, ran.job.c);
    let room = make_room(run, alloc, &told)?;
    let took = position_of(run, ran.job.w);
    note_fault(run, ran.job.c, number, &told);
    let did = Entry::Did {
        w: ran.job.w,
        c: ran.job.c,
        took,
        outcome: Outcome::Fault(number),
        to: component_of(&told),
        unreached: Items::new(alloc),
    };
    end_job(run, ran.job.w, ran.job.c, did);
    Ok(settle(run, room))
}

/// The number of the fault of an outcome that is one.
fn number_of(outcome: &Outcome) -> u16
    requires { IsSome (fault_of outcome.now) }
    ensures { fault_of outcome.now ≡ Some result }
{
    match outcome {
        Outcome::Fault(number) => *number,
        _ => unreachable!(),
    }
}

/// The component that is told.
fn component_of(told: &Option<(Comp, u8)>) -> Option<Comp>
    ensures { result ≡ option_map (λ q. q.0) told.now }
{
    match told {
        Some((d, _)) => Some(*d),
        None => None,
    }
}
