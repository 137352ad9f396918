ghost use Rattle.std.specs.Prelude.{◌≡◌, ℕ, ◌+◌, ◌<◌, ◌≤◌, ◌^◌, false, length, IfOk, IsSome, None};
ghost use Rattle.kom_lang.specs.Declarations.{kind_of};
ghost use Rattle.kom_numbers.specs.Numbering.{out_of};
ghost use Rattle.kom_queues.specs.Slots.{slot_of, is_there};
ghost use Rattle.kom_state.specs.Openings.{link_out, port_links, port_outs};
ghost use Rattle.kom_wiring.specs.Wires.{link_of};
ghost use Rattle.kom_state.specs.Plantings.{IsLaid};

use crate::laying::lay_one;
use kom_base::{Chan, Comp, Dir, Half, Side};
use kom_lang::PortDecls;
use kom_numbers::Numbers;
use kom_queues::Queues;
use kom_system::System;
use kom_wiring::{Link, Wiring};
use std::alloc::{AllocError, Global};

/// The ports of the root.
pub fn root_ports(system: &System) -> &PortDecls
    ensures ports { result.now ≡ (kind_of system.now.declarations system.now.declarations.root.kind).ports }
    ensures few { length result.now ≤ 16 }
{
    system.well_formed();
    &system.kind(system.root().kind).ports
}

/// For each port of the root the direction in which its channel leads to the environment.
pub fn outs_of(alloc: Global, ports: &PortDecls) -> Result<Vec<Dir>, AllocError>
    ensures { IfOk result (λ outs. outs.items ≡ port_outs ports.now) }
{
    ports
        .as_slice()
        .iter()
        .map(|port| out_of_port(port.provided))
        .collect(alloc)
}

fn out_of_port(provided: bool) -> Dir
    ensures { result ≡ out_of provided }
{
    if provided { Dir::Plus } else { Dir::Minus }
}

/// Adds the channels of the root's ports, for each of which `outs` has the direction that leads out.
pub fn lay_ports(wiring: &mut Wiring, numbers: &Numbers, queues: &mut Queues, outs: &[Dir])
    requires few { length outs.now ≤ 16 }
    requires spare { length outs.now ≤ wiring.old.spare }
    requires no_link { (x : ℕ) → link_of wiring.old.links x ≡ None }
    requires not_there { (x : ℕ) → is_there queues.old x ≡ false }
    requires slots { (x : ℕ) → x < length outs.now → IsSome (slot_of queues.old x) }
    ensures { IsLaid numbers.now 0 (port_links outs.now) wiring.old wiring.new queues.old queues.new }
{
    for (q, out) in outs.iter().enumerate() {
        let link = link_of_port(q as u8, out);
        lay_one(wiring, numbers, queues, Chan(q as u32), &link);
    }
}

/// The channel of a port of the root: its other end is the environment's.
fn link_of_port(q: u8, out: &Dir) -> Link
    ensures { result ≡ link_out q out.now }
{
    let half = Half {
        comp: Comp(0),
        port: q,
        side: Side::Outside,
    };
    match out {
        Dir::Plus => Link {
            plus: Some(half),
            minus: None,
            held: false,
        },
        Dir::Minus => Link {
            plus: None,
            minus: Some(half),
            held: false,
        },
    }
}

/// The queues of no channel, with room for the first `count` channels.
pub fn queues_for(alloc: Global, count: u32) -> Result<Queues, AllocError>
    ensures not_there { IfOk result (λ queues. (x : ℕ) → is_there queues x ≡ false) }
    ensures slots { IfOk result (λ queues. (x : ℕ) → x < count → IsSome (slot_of queues x)) }
{
    let mut queues = Queues::new(alloc);
    for x in 0..count {
        queues.reserve(Chan(x), Dir::Plus, 0)?;
    }
    Ok(queues)
}
