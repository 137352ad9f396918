ghost use Rattle.std.specs.Prelude.{◌≡◌, [], IfOk};
ghost use Rattle.kom_record.specs.Instances.{root_tree};
ghost use Rattle.kom_refine.specs.Points.{start_of, StandsAt};
ghost use Rattle.kom_state.specs.Parts.{state_of, IsOf};
ghost use Rattle.kom_births.specs.Laws.{seeds_for};

use crate::brood::Brood;
use kom_base::Comp;
use kom_lang::Birth;
use kom_record::Control;
use kom_state::RunState;
use kom_system::System;
use std::alloc::{AllocError, Global};

/// The state of a run at its opening: the root with all below it, Init for each instance that has
/// an init handler, and Start for the root. It stands for the empty record. The error is want of
/// memory.
pub fn begin(alloc: Global, system: &System) -> Result<RunState, AllocError>
    ensures stands { IfOk result (λ state. StandsAt system.now.declarations (start_of []) (state_of state)) }
    ensures numbers { IfOk result (λ state. IsOf system.now.declarations state) }
{
    let mut state = RunState::open(alloc, system)?;
    let brood = root_brood(alloc, system)?;
    system.well_formed();
    brood.make_room(&mut state)?;
    state.reserve_controls(Comp(0), 2)?;
    brood.sow(&mut state, system);
    state.put(Comp(0), Control::Start);
    Ok(state)
}

/// What is planted at the opening.
fn root_brood(alloc: Global, system: &System) -> Result<Brood, AllocError>
    ensures { IfOk result (λ brood. brood ≡ seeds_for system.now.declarations 0 (root_tree system.now.declarations)) }
{
    system.well_formed();
    let root = system.root();
    let birth = Birth::Args(root.args.copy(alloc)?);
    Brood::of(alloc, system, 0, None, root.kind, birth, 1)
}
