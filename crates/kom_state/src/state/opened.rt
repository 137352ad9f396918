ghost use Rattle.std.specs.Prelude.{◌≡◌, ℕ, ◌<◌, ◌≤◌, false, length, [], IfOk, IsSome};
ghost use Rattle.kom_queues.specs.Slots.{slot_of, is_there};
ghost use Rattle.kom_state.specs.Openings.{IsOpened, AreOpened, port_links};
ghost use Rattle.kom_state.specs.Parts.{state_of, IsOf};

use crate::bodies::Bodies;
use crate::opening::{lay_ports, outs_of, queues_for, root_ports};
use crate::state::RunState;
use kom_base::Dir;
use kom_life::Life;
use kom_numbers::Numbers;
use kom_queues::Queues;
use kom_system::System;
use kom_tree::Tree;
use kom_wiring::Wiring;
use std::alloc::{AllocError, Global};

impl RunState {
    /// The state before the root is created: the channels of the root's ports, and no instance.
    pub fn open(alloc: Global, system: &System) -> Result<RunState, AllocError>
        ensures state { IfOk result (λ state. IsOpened system.now.declarations (state_of state)) }
        ensures numbers { IfOk result (λ state. IsOf system.now.declarations state) }
    {
        let ports = root_ports(system);
        let outs = outs_of(alloc, ports)?;
        let queues = queues_for(alloc, ports.len() as u32)?;
        let mut wiring = Wiring::new(alloc);
        wiring.reserve(ports.len())?;
        Ok(with_channels(alloc, outs, wiring, queues))
    }
}

/// The state with these channels and no instance.
fn with_channels(alloc: Global, outs: Vec<Dir>, wiring: Wiring, queues: Queues) -> RunState
    requires few { length outs.items ≤ 16 }
    requires no_link { wiring.links ≡ [] }
    requires spare { length outs.items ≤ wiring.spare }
    requires not_there { (x : ℕ) → is_there queues x ≡ false }
    requires slots { (x : ℕ) → x < length outs.items → IsSome (slot_of queues x) }
    ensures tree { result.tree ≡ record { instances = []; spare = 0 } }
    ensures rows { result.rows ≡ [] }
    ensures bodies { result.bodies.bodies ≡ [] }
    ensures outs { result.numbers.outs ≡ outs.items }
    ensures counts { result.numbers.counts ≡ [] }
    ensures channels { AreOpened (port_links outs.items) result }
{
    let mut wiring = wiring;
    let mut queues = queues;
    let numbers = Numbers::begin(alloc, outs);
    lay_ports(&mut wiring, &numbers, &mut queues, numbers.outs());
    RunState {
        tree: Tree::new(alloc),
        wiring,
        queues,
        life: Life::new(alloc),
        bodies: Bodies::new(alloc),
        numbers,
    }
}
