ghost use Rattle.std.specs.Prelude.{◌≡◌, ◌<◌, ℕ, List, IfOk, length};
ghost use Rattle.kom_scenario.specs.Names.{Knows};
ghost use Rattle.kom_scenario.specs.Named as spec;

use crate::names::Names;
use kom_lang::PortDecl;
use kom_system::System;
use std::alloc::{AllocError, Global};

/// A system, with the names of it that a scenario may use.
#[derive(Drop)]
pub struct Known<'s> {
    pub system: &'s System,
    pub kinds: Names<'s>,
    pub ports: Names<'s>,
    ghost kinds_are: { Knows kinds (spec.kind_number system.now) },
    ghost ports_are: { Knows ports (spec.port_number system.now) },
}

/// The ports of the root.
#[tactic(auto, using(crate::proofs::Fitting::root_within))]
pub fn root_ports(system: &System) -> &[PortDecl]
    ensures { result.now ≡ spec.root_ports system.now }
{
    system.well_formed();
    system.kind(system.root().kind).ports.as_slice()
}

#[tactic(auto, using(crate::proofs::Fitting::few_kinds, crate::proofs::Fitting::named_kinds))]
fn kind_names(alloc: Global, system: &System) -> Result<Names<'_>, AllocError>
    ensures { IfOk result (λ names. Knows names (spec.kind_number system.now)) }
{
    system.well_formed();
    let mut names = Names::new(alloc);
    let count = system.event_types().len();
    for k in 0..count {
        names.add(system.event_name(k as u16).bytes(), k)?;
    }
    Ok(names)
}

fn port_names(alloc: Global, system: &System) -> Result<Names<'_>, AllocError>
    ensures { IfOk result (λ names. Knows names (spec.port_number system.now)) }
{
    let mut names = Names::new(alloc);
    for (q, port) in root_ports(system).iter().enumerate() {
        names.add(port.name.bytes(), q)?;
    }
    Ok(names)
}

impl<'s> Known<'s> {
    /// The names of a system.
    pub fn of(alloc: Global, system: &'s System) -> Result<Known<'s>, AllocError>
        ensures { IfOk result (λ known. known.system.now ≡ system.now) }
    {
        let kinds = kind_names(alloc, system)?;
        let ports = port_names(alloc, system)?;
        Ok(Known {
            system,
            kinds,
            ports,
        })
    }
}
