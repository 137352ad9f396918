ghost use Rattle.std.specs.Prelude.{◌≡◌, ◌<◌, ◌^◌, length};
ghost use Rattle.std.specs.List.{flat_map};
ghost use Rattle.kom_record.specs.Plans as plans;
ghost use Rattle.kom_events.specs.Kin.{attributes};
ghost use Rattle.kom_scenario.specs.Rules as spec;
ghost use Rattle.kom_scenario.specs.Rules.{first_place};
ghost use Rattle.kom_scenario.specs.Checks.{source_places};

use crate::known::{Known, root_ports};
use crate::numbers::source_numbers;
use crate::places::{earlier, place_if};
use kom_base::Dir;
use kom_lang::PortDecl;
use kom_scengram::{RaisePart, SourcePart};
use kom_system::System;

/// The direction in which events come in from outside at a port of the root.
fn inward(port: &PortDecl) -> Dir
    ensures { result ≡ plans.inward port.now }
{
    if port.provided { Dir::Minus } else { Dir::Plus }
}

/// Whether events of a type come in at a port of the root.
fn comes_in(system: &System, port: usize, kind: usize) -> bool
    requires { kind < 2 ^ 16 }
    ensures { result ≡ spec.comes_in system.now port kind }
{
    match root_ports(system).get(port) {
        Some(port) => {
            let types = system.event_types();
            system
                .port_types()
                .passes(types, port.port, inward(port), kind as u16)
        }
        None => false,
    }
}

/// How many attributes the events of a type have.
#[tactic(auto, using(crate::proofs::Fitting::attributes_named))]
fn attributes(system: &System, kind: usize) -> usize
    requires within { kind < length system.now.declarations.events }
    requires small { kind < 2 ^ 16 }
    ensures { result ≡ attributes system.now.declarations.events kind }
{
    system.well_formed();
    system.attr_names(kind as u16).len()
}

/// A name of a raise that stands for nothing.
fn raise_unknown(known: &Known<'_>, raise: &RaisePart) -> Option<u32>
    ensures { result ≡ first_place (spec.raise_unknown known.now.system.now raise.now) }
{
    let kind = known.kinds.find(raise.kind.name.bytes());
    let port = known.ports.find(raise.port.name.bytes());
    earlier(
        place_if(kind.is_none(), raise.kind.at),
        place_if(port.is_none(), raise.port.at),
    )
}

/// The type of a raise, where it does not come in at the port.
#[tactic(auto, using(crate::proofs::Fitting::kind_small))]
fn not_in(known: &Known<'_>, raise: &RaisePart) -> Option<u32>
    ensures { result ≡ first_place (spec.not_in known.now.system.now raise.now) }
{
    let kind = known.kinds.find(raise.kind.name.bytes());
    let port = known.ports.find(raise.port.name.bytes());
    match (kind, port) {
        (Some(kind), Some(port)) => {
            known.system.well_formed();
            place_if(!comes_in(known.system, port, kind), raise.kind.at)
        }
        _ => None,
    }
}

/// The type of a raise, where its arguments are not as many as the type's attributes.
#[tactic(auto, using(crate::proofs::Fitting::kind_small, crate::proofs::Fitting::kind_within))]
fn miscounted(known: &Known<'_>, raise: &RaisePart) -> Option<u32>
    ensures { result ≡ first_place (spec.miscounted known.now.system.now raise.now) }
{
    let kind = known.kinds.find(raise.kind.name.bytes());
    let port = known.ports.find(raise.port.name.bytes());
    match (kind, port) {
        (Some(kind), Some(_)) => {
            known.system.well_formed();
            let wanted = attributes(known.system, kind);
            place_if(raise.args.len() != wanted, raise.kind.at)
        }
        _ => None,
    }
}

/// A rule that looks at one source after another.
#[derive(Clone, Copy, Debug)]
pub enum Check {
    Names,
    Numbers,
    Types,
    Counts,
}

/// What a source raises.
pub fn raise_of(source: &SourcePart) -> &RaisePart
    ensures { result.now ≡ spec.raise_of source.now }
{
    match source {
        SourcePart::At { raise, .. } => raise,
        SourcePart::Process(process) => &process.raise,
    }
}

fn place_in(known: &Known<'_>, check: Check, source: &SourcePart) -> Option<u32>
    ensures { result ≡ first_place (source_places known.now.system.now check source.now) }
{
    match check {
        Check::Names => raise_unknown(known, raise_of(source)),
        Check::Numbers => source_numbers(source),
        Check::Types => not_in(known, raise_of(source)),
        Check::Counts => miscounted(known, raise_of(source)),
    }
}

/// The first place where a source breaks a rule.
#[tactic(auto, using(crate::proofs::Least::flat_map_more))]
pub fn first_in(known: &Known<'_>, check: Check, sources: &[SourcePart]) -> Option<u32>
    ensures { result ≡ first_place (flat_map (source_places known.now.system.now check) sources.now) }
{
    let mut found = None;
    for source in sources {
        found = earlier(found, place_in(known, check, source));
    }
    found
}
