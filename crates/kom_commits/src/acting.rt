ghost use Rattle.std.specs.Prelude.{◌≡◌, ◌≤◌, ◌+◌, ℕ, [], true, length};
ghost use Rattle.kom_base.specs.declared.numbers.Dir as dirs;
ghost use Rattle.kom_doing.specs.Laws.{Ending, IsAmid};
ghost use Rattle.kom_doing.specs.Marks.{marks_of};
ghost use Rattle.kom_doing.specs.Rooms.{HasRoomLeft, PutsHaveRoom};
ghost use Rattle.kom_entering.specs.Lists.{numbers_into};
ghost use Rattle.kom_marks.specs.Marking.{IsMarked};
ghost use Rattle.kom_puts.specs.Puts.{HasRoomToFollow, dumped_in, is_above};
ghost use Rattle.kom_record.specs.Entries.{acts};
ghost use Rattle.kom_state.specs.Parts.{queue_spare, state_of};
ghost use Rattle.kom_commits.specs.Acting.{Starts, StartsAt};
ghost use Rattle.kom_commits.specs.Counted.{waits_in_all};

use crate::begun::begin;
use crate::counted::do_all;
use kom_base::Comp;
use kom_births::rooms_are_left;
use kom_coming::{comings_are_there, entering_has_come, receivers_are_made};
use kom_comps::Comps;
use kom_entering::Entering;
use kom_lang::{Body, Effect};
use kom_lives::handlers_live;
use kom_marks::marks_add_up;
use kom_nursery::Nursery;
use kom_record::{Control, Item};
use kom_refine::{handlings_begin, puts_follow};
use kom_state::{RunState, channels_are_numbered, numbers_stay};
use kom_system::System;
use kom_waits::{comes_count, same_queues_count};

/// Does in the state all that a handling of an item by a component does before its body is in force:
/// what follows from the item is put, what the entry brings comes into the channels, and then its
/// effects are done, one after another. It marks whom that gives more or less to do, and counts how
/// many events wait in the channels, of which there are `queued` before. The state stands for the
/// record before the entry, and all that was worked out for it has room. It takes no memory, and
/// costs what comes, what the effects create and take away, and the square of their number.
pub fn act(
    state: &mut RunState,
    nursery: &mut Nursery,
    marks: &mut Comps,
    system: &System,
    c: Comp,
    item: &Item,
    told: &Option<(Comp, u8)>,
    dumped: Option<(Comp, Control)>,
    body: &Body,
    entering: &Entering,
    effects: &[Effect],
    queued: &mut u64,
)
    requires starts { ∥ Starts system.now.declarations c item.now told.now body.now effects.now entering.now nursery.old state.old ∥₁ }
    requires above { is_above (state_of state.old) c told.now ≡ true }
    requires few { length body.now.slots ≤ 256 }
    requires dumped { dumped ≡ dumped_in (state_of state.old) c body.now item.now }
    requires follow { HasRoomToFollow 1 (state_of state.old) c body.now item.now state.old }
    requires come { (x : ℕ) (d : dirs.Dir) → length (numbers_into entering.now.comings x d) ≤ queue_spare state.old x d }
    requires room { HasRoomLeft c item.now told.now effects.now nursery.old marks.old.bound state.old }
    requires puts { PutsHaveRoom (1 + length effects.now) c item.now told.now effects.now state.old }
    requires queued { queued.old ≡ waits_in_all state.old }
    requires short { queued.old ≤ 100000000000000000 }
    ensures acted { (x : Ending) → StartsAt system.now.declarations c item.now told.now body.now effects.now entering.now nursery.old state.old x → IsAmid system.now.declarations c item.now told.now effects.now [] x nursery.new state.new }
    ensures marks { (x : Ending) → StartsAt system.now.declarations c item.now told.now body.now effects.now entering.now nursery.old state.old x → IsMarked (((1 + length body.now.slots) + length entering.now.comings) + marks_of system.now.declarations (acts x.before) c item.now effects.now) marks.old marks.new (state_of state.old) (state_of state.new) }
    ensures bound { length (state_of state.new).nodes ≤ marks.new.bound }
    ensures queued { queued.new ≡ waits_in_all state.new }
{
    system.well_formed();
    handlers_live();
    comings_are_there();
    receivers_are_made();
    entering_has_come();
    puts_follow();
    handlings_begin();
    numbers_stay();
    channels_are_numbered();
    same_queues_count();
    comes_count();
    rooms_are_left();
    marks_add_up();
    let comings = entering.comings.as_slice();
    begin(state, marks, c, body, item, dumped, comings);
    *queued += comings.len() as u64;
    do_all(
        state, nursery, marks, system, c, item, told, effects, queued,
    );
}
