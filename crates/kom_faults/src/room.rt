ghost use Rattle.std.specs.Prelude.{◌≡◌, ◌≤◌, ◌<◌, ℕ, [], OnOk, IfOk, vec_capacity};
ghost use Rattle.kom_puts.specs.Laws.{fault_to};
ghost use Rattle.kom_puts.specs.Puts.{HasRoomFor};
ghost use Rattle.kom_faults.specs.Faulted.{IsButForRooms};

use kom_base::Comp;
use kom_puts::reserve_one;
use kom_turns::Run;
use std::alloc::{AllocError, Global};

/// Makes room for one more entry, for the fault, and for a list of two components. On want of memory
/// all is as before but that there may be more room.
pub fn make_room(
    run: &mut Run,
    alloc: Global,
    told: &Option<(Comp, u8)>,
) -> Result<Vec<Comp>, AllocError>
    ensures same { IsButForRooms run.old run.new }
    ensures kept { OnOk result (1 ≤ run.new.kept.spare) }
    ensures controls { (number : ℕ) → OnOk result (HasRoomFor 1 (fault_to told.now number) run.new.state) }
    ensures list { IfOk result (λ list. (list.items ≡ []) × (2 ≤ vec_capacity list)) }
{
    let list = Vec::with_capacity(alloc, 2)?;
    run.kept.reserve(1)?;
    let receiver = match told {
        Some((d, _)) => Some(*d),
        None => None,
    };
    reserve_one(&mut run.state, receiver, 1)?;
    Ok(list)
}
