ghost use Rattle.std.specs.Prelude.{◌≡◌, ◌<◌, List, [], map, IfOk};
ghost use Rattle.std.specs.List.{flat_map};
ghost use Rattle.kom_scengram.specs.declared.parts.SourcePart.{SourcePart as Part};
ghost use Rattle.kom_system.specs.Contents.{Contents};
ghost use Rattle.kom_scenario.specs.Names.{Knows};
ghost use Rattle.kom_scenario.specs.Named.{process_number};
ghost use Rattle.kom_scenario.specs.Numbers as numbers;
ghost use Rattle.kom_scenario.specs.Scenes as spec;
ghost use Rattle.kom_scenario.specs.declared.settings.Setting.TheVariants as word;

use crate::known::Known;
use crate::names::Names;
use crate::numbers::size;
use crate::settings::{Setting, set};
use crate::tree::{Arg, Args, Process, Raising, Scene, Source, Sources, Start};
use kom_parse::Numeral;
use kom_scengram::{
    ArgPart, ProcessPart, RaisePart, ScenarioParts, SettingPart, SourcePart, StartPart,
};
use sqlite_items::Items;
use std::alloc::{AllocError, Global};

/// The value of a number that is at most the longest time.
#[tactic(auto, using(crate::proofs::Sizes::short))]
fn short(number: Numeral) -> u32
    requires { numbers.too_long number ≡ [] }
    ensures { result ≡ spec.size number }
{
    size(number) as u32
}

/// The value of a number of steps, instants or events.
#[tactic(auto, using(crate::proofs::Sizes::few))]
fn few(number: Numeral) -> u32
    requires { numbers.not_so_many number ≡ [] }
    ensures { result ≡ spec.size number }
{
    size(number) as u32
}

#[tactic(auto, using(crate::proofs::Sizes::pair_low, crate::proofs::Sizes::pair_high))]
fn arg_of(part: &ArgPart) -> Arg
    requires { numbers.arg_numbers part.now ≡ [] }
    ensures { result ≡ spec.arg_of part.now }
{
    match part {
        ArgPart::Number(number) => Arg::Number(*number),
        ArgPart::Index => Arg::Index,
        ArgPart::Draw { low, high } => Arg::Draw {
            low: short(*low),
            high: short(*high),
        },
    }
}

#[tactic(auto, using(crate::proofs::Sizes::none_at))]
fn args_of(alloc: Global, parts: &[ArgPart]) -> Result<Args, AllocError>
    requires { flat_map numbers.arg_numbers parts.now ≡ [] }
    ensures { IfOk result (λ args. args ≡ map spec.arg_of parts.now) }
{
    let mut args = Items::new(alloc);
    for part in parts {
        args.push(arg_of(part))?;
    }
    Ok(args)
}

/// The number of an event type, or 0.
fn kind_of(known: &Known<'_>, raise: &RaisePart) -> u16
    ensures { result ≡ (spec.raising_of known.now.system.now raise.now).kind }
{
    known.system.well_formed();
    let kind = known.kinds.find(raise.kind.name.bytes()).unwrap_or(0);
    kind as u16
}

/// The number of a port of the root, or 0.
fn port_of(known: &Known<'_>, raise: &RaisePart) -> u8
    ensures { result ≡ (spec.raising_of known.now.system.now raise.now).port }
{
    known.system.well_formed();
    let port = known.ports.find(raise.port.name.bytes()).unwrap_or(0);
    port as u8
}

fn raising_of(alloc: Global, known: &Known<'_>, raise: &RaisePart) -> Result<Raising, AllocError>
    requires { flat_map numbers.arg_numbers raise.now.args ≡ [] }
    ensures { IfOk result (λ raising. raising ≡ spec.raising_of known.now.system.now raise.now) }
{
    let args = args_of(alloc, raise.args.as_slice())?;
    Ok(Raising {
        kind: kind_of(known, raise),
        args,
        port: port_of(known, raise),
    })
}

fn start_of(names: &Names<'_>, start: &StartPart) -> Start
    ensures { (c : Contents) (all : List Part) → Knows names.now (process_number all) → result ≡ spec.start_of c all start.now }
{
    match start {
        StartPart::At(time) => Start::At(size(*time)),
        StartPart::After {
            moment,
            process,
            by,
        } => {
            let source = names.find(process.name.bytes()).unwrap_or(0);
            Start::After {
                moment: *moment,
                source,
                by: size(*by),
            }
        }
    }
}

#[tactic(auto, using(crate::proofs::Sizes::process_count, crate::proofs::Sizes::process_low, crate::proofs::Sizes::process_high, crate::proofs::Sizes::process_args))]
fn process_of(
    alloc: Global,
    known: &Known<'_>,
    names: &Names<'_>,
    part: &ProcessPart,
) -> Result<Process, AllocError>
    requires { numbers.process_numbers part.now ≡ [] }
    ensures { IfOk result (λ process. (all : List Part) → Knows names.now (process_number all) → process ≡ spec.process_of known.now.system.now all part.now) }
{
    let raising = raising_of(alloc, known, &part.raise)?;
    Ok(Process {
        start: start_of(names, &part.start),
        count: few(part.count),
        low: short(part.low),
        high: short(part.high),
        raising,
    })
}

#[tactic(auto, using(crate::proofs::Sizes::line_args))]
fn source_of(
    alloc: Global,
    known: &Known<'_>,
    names: &Names<'_>,
    part: &SourcePart,
) -> Result<Source, AllocError>
    requires { numbers.source_numbers part.now ≡ [] }
    ensures { IfOk result (λ source. (all : List Part) → Knows names.now (process_number all) → source ≡ spec.source_of known.now.system.now all part.now) }
{
    match part {
        SourcePart::At { time, raise, .. } => {
            let raising = raising_of(alloc, known, raise)?;
            Ok(Source::At {
                time: size(*time),
                raising,
            })
        }
        SourcePart::Process(part) => {
            let process = process_of(alloc, known, names, part)?;
            Ok(Source::Process(process))
        }
    }
}

/// The sources with numbers for their names.
#[tactic(auto, using(crate::proofs::Sizes::none_at))]
pub fn sources_of(
    alloc: Global,
    known: &Known<'_>,
    names: &Names<'_>,
    parts: &[SourcePart],
) -> Result<Sources, AllocError>
    requires in_range { flat_map numbers.source_numbers parts.now ≡ [] }
    requires linked { Knows names.now (process_number parts.now) }
    ensures { IfOk result (λ sources. sources ≡ map (spec.source_of known.now.system.now parts.now) parts.now) }
{
    let mut sources = Items::new(alloc);
    for part in parts {
        sources.push(source_of(alloc, known, names, part)?)?;
    }
    Ok(sources)
}

fn seed(parts: &[SettingPart]) -> u64
    ensures { result ≡ spec.seed_by (spec.set parts.now word.Seed) }
{
    match set(parts, Setting::Seed) {
        Some(SettingPart::Seed { value, .. }) => size(value),
        _ => 0,
    }
}

#[tactic(auto, using(crate::proofs::Sizes::set_steps))]
fn steps(parts: &[SettingPart]) -> u32
    requires { flat_map numbers.setting_numbers parts.now ≡ [] }
    ensures { result ≡ spec.steps_by (spec.set parts.now word.Steps) }
{
    match set(parts, Setting::Steps) {
        Some(SettingPart::Steps { value, .. }) => few(value),
        _ => 100_000,
    }
}

#[tactic(auto, using(crate::proofs::Sizes::set_instants))]
fn instants(parts: &[SettingPart]) -> u32
    requires { flat_map numbers.setting_numbers parts.now ≡ [] }
    ensures { result ≡ spec.instants_by (spec.set parts.now word.Instants) }
{
    match set(parts, Setting::Instants) {
        Some(SettingPart::Instants { value, .. }) => few(value),
        _ => 100_000,
    }
}

#[tactic(auto, using(crate::proofs::Sizes::set_low))]
fn lo(parts: &[SettingPart]) -> u32
    requires { flat_map numbers.setting_numbers parts.now ≡ [] }
    ensures { result ≡ spec.lo_by (spec.set parts.now word.Network) }
{
    match set(parts, Setting::Network) {
        Some(SettingPart::Network { low, .. }) => short(low),
        _ => 1,
    }
}

#[tactic(auto, using(crate::proofs::Sizes::set_high))]
fn hi(parts: &[SettingPart]) -> u32
    requires { flat_map numbers.setting_numbers parts.now ≡ [] }
    ensures { result ≡ spec.hi_by (spec.set parts.now word.Network) }
{
    match set(parts, Setting::Network) {
        Some(SettingPart::Network { high, .. }) => short(high),
        _ => 1,
    }
}

/// The tree with numbers for its names.
pub fn scene_of(
    alloc: Global,
    known: &Known<'_>,
    names: &Names<'_>,
    tree: &ScenarioParts,
) -> Result<Scene, AllocError>
    requires settings { flat_map numbers.setting_numbers tree.now.settings ≡ [] }
    requires sources { flat_map numbers.source_numbers tree.now.sources ≡ [] }
    requires linked { Knows names.now (process_number tree.now.sources) }
    ensures { IfOk result (λ scene. scene ≡ spec.scene_of known.now.system.now tree.now) }
{
    let settings = tree.settings.as_slice();
    let sources = sources_of(alloc, known, names, tree.sources.as_slice())?;
    Ok(Scene {
        seed: seed(settings),
        steps: steps(settings),
        instants: instants(settings),
        lo: lo(settings),
        hi: hi(settings),
        sources,
    })
}
