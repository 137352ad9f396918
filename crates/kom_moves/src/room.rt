ghost use Rattle.std.specs.Prelude.{◌≡◌, ◌≤◌, [], length, OnOk, IfOk, vec_capacity};
ghost use Rattle.kom_faults.specs.Faulted.{IsButForRooms};
ghost use Rattle.kom_moves.specs.Bringing.{HaveRoom};

use crate::brings::make_ways;
use kom_base::Comp;
use kom_record::Release;
use kom_turns::Run;
use std::alloc::{AllocError, Global};

/// Makes room for one more entry, for what it releases, and for a list of one component. On want of
/// memory all is as before but that there may be more room.
pub fn make_room(
    run: &mut Run,
    alloc: Global,
    released: &[Release],
) -> Result<Vec<Comp>, AllocError>
    ensures same { IsButForRooms run.old run.new }
    ensures kept { OnOk result (1 ≤ run.new.kept.spare) }
    ensures ways { OnOk result (HaveRoom (length released.now) run.new.state released.now) }
    ensures list { IfOk result (λ list. (list.items ≡ []) × (1 ≤ vec_capacity list)) }
{
    let list = Vec::with_capacity(alloc, 1)?;
    run.kept.reserve(1)?;
    make_ways(&mut run.state, released)?;
    Ok(list)
}
