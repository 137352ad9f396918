ghost use Rattle.std.specs.Prelude.{◌≡◌, IfOk, OnErr, IsSome, Some};
ghost use Rattle.std.specs.Arc.{arc_value};
ghost use Rattle.kom_env.specs.Outside.{due_of};
ghost use Rattle.kom_record.specs.Answers.{IsMove};
ghost use Rattle.kom_turns.specs.Lefts.{AnswersLeft};
ghost use Rattle.kom_turns.specs.declared.lefts.Left.TheVariants as left;
ghost use Rattle.kom_turns.specs.Runs.{IsRun, system_of, history_of};

use crate::laws::moves_unsettle;
use crate::noted::note_move;
use crate::room::make_room;
use kom_batches::{batches_are_at_ports, batches_are_short, queues_are_short};
use kom_env::Env;
use kom_marks::{settle, settled_stands};
use kom_puts::same_states_follow;
use kom_record::Wakes;
use kom_state::numbers_stay;
use kom_times::tells_what_is_pending;
use kom_turns::Run;
use std::alloc::{AllocError, Global};

/// Moves the time to the next that something is due at, where nobody is ready, no job is in hand and
/// something is pending: all that is due then comes into the channels of the root. The worker's
/// number is recorded. The error is want of memory, and the record is then as before. It costs what
/// is released, with the logarithms of the numbers of channels and of what is pending.
pub fn move_on(run: &mut Run, alloc: Global, w: u32) -> Result<Wakes, AllocError>
    requires run { IsRun run.old }
    requires pending { AnswersLeft (system_of run.old) run.old.env.plan (history_of run.old) left.Pending }
    ensures answer { IfOk result (λ woken. IsMove (system_of run.old) run.old.env.plan (history_of run.old) w woken (history_of run.new)) }
    ensures err { OnErr result (history_of run.new ≡ history_of run.old) }
    ensures run { IsRun run.new }
    ensures system { arc_value run.new.system ≡ arc_value run.old.system }
    ensures plan { run.new.env.plan ≡ run.old.env.plan }
{
    batches_are_at_ports();
    batches_are_short();
    queues_are_short();
    same_states_follow();
    numbers_stay();
    tells_what_is_pending();
    moves_unsettle();
    settled_stands();
    run.system.well_formed();
    run.state.holds_together();
    let t = next_time(&run.env);
    let released = run.env.coming(alloc)?;
    let room = make_room(run, alloc, released.as_slice())?;
    note_move(run, w, t, released);
    Ok(settle(run, room))
}

/// The time of the next release, where something is pending.
fn next_time(env: &Env) -> u64
    requires { IsSome (due_of env.now) }
    ensures { due_of env.now ≡ Some result }
{
    match env.next_due() {
        Some(t) => t,
        None => unreachable!(),
    }
}
