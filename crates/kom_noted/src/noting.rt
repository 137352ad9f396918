ghost use Rattle.std.specs.Prelude.{◌≡◌, ◌≤◌, ◌+◌, ◌&&◌, ◌||◌, ℕ, List, Option, length, is_none, true};
ghost use Rattle.kom_base.specs.declared.numbers.Dir as dirs;
ghost use Rattle.kom_dones.specs.Dones.{IsDoneWith};
ghost use Rattle.kom_doing.specs.Marks.{marks_of};
ghost use Rattle.kom_doing.specs.Rooms.{HasRoomLeft, PutsHaveRoom};
ghost use Rattle.kom_entering.specs.Lists.{numbers_into};
ghost use Rattle.kom_lang.specs.declared.body.Body as bodies;
ghost use Rattle.kom_puts.specs.Puts.{HasRoomToFollow, dumped_in, is_above};
ghost use Rattle.kom_raised.specs.Raised.{is_raised};
ghost use Rattle.kom_record.specs.Entries.{TakenJob, acts};
ghost use Rattle.kom_turns.specs.Runs.{history_of, system_of};
ghost use Rattle.kom_state.specs.Parts.{queue_spare, state_of};
ghost use Rattle.kom_noted.specs.Noting.{IsToNote, ToNote};

use kom_base::Comp;
use kom_batches::queues_are_short;
use kom_coming::out_rises;
use kom_commits::enact;
use kom_endings::end_job;
use kom_entering::Entering;
use kom_going::absorb_all;
use kom_lang::{Body, Effect};
use kom_nursery::Nursery;
use kom_raised::raises;
use kom_record::{Control, Entry, Item};
use kom_state::channels_are_numbered;
use kom_turns::Run;
use kom_waits::queued_is_below;

/// Notes in a run the end of a job of a worker by a handling, for which all was worked out and has
/// room: the state is changed, the entry is added, what goes out is given to the environment, and
/// all is counted. Whoever has more or less to do is marked. It takes no memory, and costs what
/// comes, what the effects create and take away, and the square of their number.
pub fn note_done(
    run: &mut Run,
    w: u32,
    c: Comp,
    item: &Item,
    told: &Option<(Comp, u8)>,
    dumped: Option<(Comp, Control)>,
    body: Body,
    entering: &Entering,
    nursery: &mut Nursery,
    effects: &[Effect],
    did: Entry,
)
    requires note { ∥ ToNote w c item.now told.now body effects.now entering.now nursery.old did run.old ∥₁ }
    requires above { is_above (state_of run.old.state) c told.now ≡ true }
    requires few { length body.slots ≤ 256 }
    requires dumped { dumped ≡ dumped_in (state_of run.old.state) c body item.now }
    requires follow { HasRoomToFollow 1 (state_of run.old.state) c body item.now run.old.state }
    requires come { (x : ℕ) (d : dirs.Dir) → length (numbers_into entering.now.comings x d) ≤ queue_spare run.old.state x d }
    requires room { HasRoomLeft c item.now told.now effects.now nursery.old run.old.marks.bound run.old.state }
    requires puts { PutsHaveRoom (1 + length effects.now) c item.now told.now effects.now run.old.state }
    requires kept { 1 ≤ run.old.kept.spare }
    requires going { length entering.now.goings ≤ run.old.env.spare }
    requires busy { run.old.marks.bound ≤ run.old.busy.bound }
    requires out { run.old.counts.out ≤ 100000000000000000 }
    ensures done { (hand : TakenJob) (old : bodies.Body) (to : Option ℕ) (places : List ℕ) → IsToNote w c item.now told.now body effects.now entering.now nursery.old did hand old to places run.old → IsDoneWith w c hand body effects.now told.now to places run.old run.new }
    ensures few { (hand : TakenJob) (old : bodies.Body) (to : Option ℕ) (places : List ℕ) → IsToNote w c item.now told.now body effects.now entering.now nursery.old did hand old to places run.old → length run.new.marks.list ≤ length run.old.marks.list + ((((1 + length body.slots) + length entering.now.comings) + marks_of (system_of run.old) (acts (history_of run.old)) c item.now effects.now) + 1) }
{
    queued_is_below();
    queues_are_short();
    channels_are_numbered();
    out_rises();
    run.system.well_formed();
    let unhandled = is_unhandled(item, effects, told);
    enact(
        &mut run.state,
        nursery,
        &mut run.marks,
        &run.system,
        c,
        item,
        told,
        dumped,
        body,
        entering,
        effects,
        &mut run.counts.queued,
    );
    end_job(run, w, c, did);
    absorb_all(&mut run.env, &run.kept, entering.goings.as_slice());
    run.counts.out += entering.goings.len() as u64;
    run.counts.unhandled = either(run.counts.unhandled, unhandled);
}

/// Whether a handling raises a fault of which nobody is told.
fn is_unhandled(item: &Item, effects: &[Effect], told: &Option<(Comp, u8)>) -> bool
    ensures { result ≡ (is_raised item.now effects.now && is_none told.now) }
{
    raises(item, effects) && told.is_none()
}

fn either(a: bool, b: bool) -> bool
    ensures { result ≡ (a || b) }
{
    a || b
}
