ghost use Rattle.std.specs.Prelude.{◌≡◌, true, IfOk, OnErr, IsSome};
ghost use Rattle.std.specs.Arc.{arc_value};
ghost use Rattle.kom_record.specs.declared.entry.Outcome.TheVariants as outcomes;
ghost use Rattle.kom_record.specs.Answers.{IsCommit, IsInHand};
ghost use Rattle.kom_record.specs.Entries.{acts};
ghost use Rattle.kom_record.specs.Instances.{alive};
ghost use Rattle.kom_turns.specs.Runs.{IsRun, system_of, history_of};
ghost use Rattle.kom_completing.specs.Completed as completed;
ghost use Rattle.kom_completing.specs.Completed.{done_of};

use kom_base::{Comp, Copied};
use kom_batches::outs_are_short;
use kom_dones::{dones_are_legal, dones_are_recorded, dones_unsettle};
use kom_endings::position_of;
use kom_lang::{Body, Effect};
use kom_marks::{settle, settled_stands};
use kom_noted::note_done;
use kom_preparing::{Prepared, prepare, spacious_runs_stand};
use kom_raised::raises;
use kom_record::{Entry, Item, Outcome, Ran, Wakes};
use kom_turns::Run;
use std::alloc::{AllocError, Global};

/// Ends a job whose handling went through and whose component is alive: what follows from the item
/// is put, what the handling offers comes into the channels or goes out, its effects are done, and
/// the component has the body that the handling left. The error is want of memory, and the record is
/// then as before. It costs copies of the body and the effects, what they create and take away, what
/// they offer with the channels plugged where it is offered, and for each component that has more or
/// less to do the logarithm of the number of components and of channels.
pub fn end_done(run: &mut Run, alloc: Global, ran: &Ran) -> Result<Wakes, AllocError>
    requires run { IsRun run.old }
    requires job { IsInHand (arc_value run.old.system) (history_of run.old) ran.now.job }
    requires lives { alive (system_of run.old) (acts (history_of run.old)) ran.now.job.c ≡ true }
    requires done { IsSome (done_of ran.now.outcome) }
    ensures answer { IfOk result (λ woken. IsCommit (arc_value run.old.system) run.old.env.plan (history_of run.old) ran.now woken (history_of run.new)) }
    ensures err { OnErr result (history_of run.new ≡ history_of run.old) }
    ensures run { IsRun run.new }
    ensures system { arc_value run.new.system ≡ arc_value run.old.system }
    ensures plan { run.new.env.plan ≡ run.old.env.plan }
{
    match &ran.outcome {
        Outcome::Done { body, effects } => {
            let kept = Outcome::Done {
                body: body.copy(alloc)?,
                effects: effects.copy(alloc)?,
            };
            let after = body.copy(alloc)?;
            complete(run, alloc, ran, after, effects.as_slice(), kept)
        }
        _ => unreachable!(),
    }
}

/// Ends the job, whose handling came to this body with these effects; the record keeps the copy of
/// the outcome.
fn complete(
    run: &mut Run,
    alloc: Global,
    ran: &Ran,
    after: Body,
    effects: &[Effect],
    kept: Outcome,
) -> Result<Wakes, AllocError>
    requires run { IsRun run.old }
    requires job { IsInHand (arc_value run.old.system) (history_of run.old) ran.now.job }
    requires lives { alive (system_of run.old) (acts (history_of run.old)) ran.now.job.c ≡ true }
    requires done { ran.now.outcome ≡ outcomes.Done after effects.now }
    requires kept { kept ≡ outcomes.Done after effects.now }
    ensures answer { IfOk result (λ woken. IsCommit (arc_value run.old.system) run.old.env.plan (history_of run.old) ran.now woken (history_of run.new)) }
    ensures err { OnErr result (history_of run.new ≡ history_of run.old) }
    ensures run { IsRun run.new }
    ensures system { arc_value run.new.system ≡ arc_value run.old.system }
    ensures plan { run.new.env.plan ≡ run.old.env.plan }
{
    outs_are_short();
    dones_are_legal();
    dones_unsettle();
    dones_are_recorded();
    spacious_runs_stand();
    settled_stands();
    run.system.well_formed();
    let w = ran.job.w;
    let c = ran.job.c;
    let item = &ran.job.item;
    let took = position_of(run, w);
    let ready = prepare(run, alloc, c, took, item, &after, effects)?;
    let Prepared {
        told,
        dumped,
        entering,
        mut nursery,
        woken,
    } = ready;
    let unreached = entering.unreached.copy(alloc)?;
    let did = Entry::Did {
        w,
        c,
        took,
        outcome: kept,
        to: told_by(item, effects, &told),
        unreached,
    };
    note_done(
        run,
        w,
        c,
        item,
        &told,
        dumped,
        after,
        &entering,
        &mut nursery,
        effects,
        did,
    );
    Ok(settle(run, woken))
}

/// Whom the entry of a handling tells, where `near` is told of a fault of the component.
fn told_by(item: &Item, effects: &[Effect], near: &Option<(Comp, u8)>) -> Option<Comp>
    ensures { result ≡ completed.told_by item.now effects.now near.now }
{
    if raises(item, effects) {
        match near {
            Some((d, _)) => Some(*d),
            None => None,
        }
    } else {
        None
    }
}
