ghost use Rattle.std.specs.Prelude.{◌≡◌, ◌≤◌, ◌+◌, ◌∷◌, ℕ, [], true, length};
ghost use Rattle.kom_base.specs.declared.numbers.Dir as dirs;
ghost use Rattle.kom_comps.specs.Members.{has};
ghost use Rattle.kom_doing.specs.Laws.{Ending};
ghost use Rattle.kom_doing.specs.Marks.{marks_of};
ghost use Rattle.kom_doing.specs.Rooms.{HasRoomLeft, PutsHaveRoom};
ghost use Rattle.kom_entering.specs.Lists.{numbers_into};
ghost use Rattle.kom_marks.specs.Marking.{IsMarked};
ghost use Rattle.kom_puts.specs.Puts.{HasRoomToFollow, dumped_in, is_above};
ghost use Rattle.kom_record.specs.Entries.{acts};
ghost use Rattle.kom_record.specs.Ready as ready;
ghost use Rattle.kom_state.specs.Parts.{queue_spare, state_of};
ghost use Rattle.kom_commits.specs.Acting.{IsEnacted, Starts, StartsAt, entry_of};
ghost use Rattle.kom_commits.specs.Counted.{waits_in_all};

use crate::acting::act;
use kom_base::Comp;
use kom_comps::Comps;
use kom_entering::Entering;
use kom_lang::{Body, Effect};
use kom_lives::handlers_live;
use kom_marks::{mark, marks_add_up};
use kom_nursery::Nursery;
use kom_record::{Control, Item};
use kom_refine::{handlings_are_within, handlings_end};
use kom_state::{RunState, channels_are_numbered, numbers_stay};
use kom_system::System;
use kom_waits::{queued_is_below, same_queues_count};
use kom_wakes::ends_leave;

/// Does in the state all that a handling of an item by a component does, and puts its body in force:
/// the state stood for the record before the end of the handling, and then stands for the record
/// with its entry. The component and whoever else has more or less to do is marked, and `queued`
/// counts the events that wait in the channels. It takes no memory, and costs what comes, what the
/// effects create and take away, and the square of their number.
pub fn enact(
    state: &mut RunState,
    nursery: &mut Nursery,
    marks: &mut Comps,
    system: &System,
    c: Comp,
    item: &Item,
    told: &Option<(Comp, u8)>,
    dumped: Option<(Comp, Control)>,
    body: Body,
    entering: &Entering,
    effects: &[Effect],
    queued: &mut u64,
)
    requires starts { ∥ Starts system.now.declarations c item.now told.now body effects.now entering.now nursery.old state.old ∥₁ }
    requires above { is_above (state_of state.old) c told.now ≡ true }
    requires few { length body.slots ≤ 256 }
    requires dumped { dumped ≡ dumped_in (state_of state.old) c body item.now }
    requires follow { HasRoomToFollow 1 (state_of state.old) c body item.now state.old }
    requires come { (x : ℕ) (d : dirs.Dir) → length (numbers_into entering.now.comings x d) ≤ queue_spare state.old x d }
    requires room { HasRoomLeft c item.now told.now effects.now nursery.old marks.old.bound state.old }
    requires puts { PutsHaveRoom (1 + length effects.now) c item.now told.now effects.now state.old }
    requires queued { queued.old ≡ waits_in_all state.old }
    requires short { queued.old ≤ 100000000000000000 }
    ensures enacted { (x : Ending) → StartsAt system.now.declarations c item.now told.now body effects.now entering.now nursery.old state.old x → IsEnacted system.now.declarations c item.now body effects.now x state.new }
    ensures marks { (x : Ending) → StartsAt system.now.declarations c item.now told.now body effects.now entering.now nursery.old state.old x → IsMarked ((((1 + length body.slots) + length entering.now.comings) + marks_of system.now.declarations (acts x.before) c item.now effects.now) + 1) marks.old marks.new (state_of state.old) (state_of state.new) }
    ensures marked { has marks.new c ≡ true }
    ensures bound { length (state_of state.new).nodes ≤ marks.new.bound }
    ensures queued { (x : Ending) → StartsAt system.now.declarations c item.now told.now body effects.now entering.now nursery.old state.old x → queued.new ≡ ready.queued system.now.declarations (entry_of c effects.now x ∷ x.before) }
{
    handlers_live();
    handlings_are_within();
    handlings_end();
    numbers_stay();
    channels_are_numbered();
    queued_is_below();
    same_queues_count();
    ends_leave();
    marks_add_up();
    state.holds_together();
    act(
        state, nursery, marks, system, c, item, told, dumped, &body, entering, effects, queued,
    );
    state.end_handling(system, c, body);
    mark(marks, c);
}
