ghost use Rattle.std.specs.Prelude.{◌≡◌, ◌≤◌, ◌+◌, ◌-◌, ◌*◌, ◌++◌, true, [], ℕ, List, IfOk, sum_by};
ghost use Rattle.std.specs.List.{list_all};
ghost use Rattle.rand_pcg.specs.Lcg.{Lcg};
ghost use Rattle.kom_scenario.specs.Sound as sound;
ghost use Rattle.kom_scenario.specs.Sound.{arg_is_sound, longest, most};
ghost use Rattle.kom_expand.specs.Drawn as spec;
ghost use Rattle.kom_scenario.specs.Early.{Early};

use crate::draws::{drawn, event_at};
use kom_record::Raise;
use kom_scenario::{Process, Raising, Source, Start, moment_of};
use rand_pcg::Lcg64Xsh32;
use std::alloc::{AllocError, Global};

/// The gaps between the events of a source, and how many events it has.
#[derive(Clone, Copy)]
struct Pace {
    low: u32,
    high: u32,
    count: u32,
}

/// Adds the events of a source behind its first, and gives the time of the last. After want of
/// memory nothing is said of the events and the generator, which are dropped then.
#[tactic(auto, unfolding(crate::specs::Drawn::later_events))]
fn later_events(
    alloc: Global,
    generator: &mut Lcg64Xsh32,
    raises: &mut Vec<Raise>,
    raising: &Raising,
    pace: Pace,
    start: u64,
) -> Result<u64, AllocError>
    requires pair { pace.low ≤ pace.high }
    requires longest { pace.high ≤ longest }
    requires some { 1 ≤ pace.count }
    requires few { pace.count ≤ most }
    requires soon { start ≤ 2 * longest * most }
    requires args { list_all arg_is_sound raising.now.args ≡ true }
    ensures adds { IfOk result (λ last. spec.Adds (spec.later_events pace.low pace.high raising.now (pace.count - 1) 1 start generator.old) raises.old.items raises.new.items last generator.new) }
    ensures soon { IfOk result (λ last. last ≤ start + longest * (pace.count - 1)) }
{
    let mut time = start;
    for index in 1..pace.count {
        let gap = drawn(generator, pace.low, pace.high);
        time += gap as u64;
        raises.push(event_at(alloc, generator, raising, index, time)?)?;
    }
    Ok(time)
}

/// Adds all events of a source that starts at a time, and gives the time of the last.
fn run_from(
    alloc: Global,
    generator: &mut Lcg64Xsh32,
    raises: &mut Vec<Raise>,
    raising: &Raising,
    pace: Pace,
    start: u64,
) -> Result<u64, AllocError>
    requires pair { pace.low ≤ pace.high }
    requires longest { pace.high ≤ longest }
    requires some { 1 ≤ pace.count }
    requires few { pace.count ≤ most }
    requires soon { start ≤ 2 * longest * most }
    requires args { list_all arg_is_sound raising.now.args ≡ true }
    ensures adds { IfOk result (λ last. spec.Adds (spec.run_from pace.low pace.high raising.now pace.count start generator.old) raises.old.items raises.new.items last generator.new) }
    ensures soon { IfOk result (λ last. last ≤ start + longest * (pace.count - 1)) }
{
    raises.push(event_at(alloc, generator, raising, 0, start)?)?;
    later_events(alloc, generator, raises, raising, pace, start)
}

fn started(spans: &[(u64, u64)], start: &Start) -> u64
    requires early { Early (longest * most) spans.now }
    requires sound { sound.start_is_sound start.now ≡ true }
    ensures { result ≡ sound.started spans.now start.now }
{
    match start {
        Start::At(time) => *time,
        Start::After { moment, source, by } => moment_of(spans, *source, *moment) + *by,
    }
}

fn pace_of(process: &Process) -> Pace
    ensures { result ≡ record { low = process.now.low; high = process.now.high; count = process.now.count } }
{
    Pace {
        low: process.low,
        high: process.high,
        count: process.count,
    }
}

/// Adds the events of a source, and gives its moments.
pub fn run_of(
    alloc: Global,
    generator: &mut Lcg64Xsh32,
    raises: &mut Vec<Raise>,
    spans: &[(u64, u64)],
    source: &Source,
) -> Result<(u64, u64), AllocError>
    requires early { Early (longest * most) spans.now }
    requires sound { sound.source_is_sound source.now ≡ true }
    ensures start { IfOk result (λ span. span.0 ≡ spec.start_of spans.now source.now) }
    ensures adds { IfOk result (λ span. spec.Adds (spec.run_of source.now (spec.start_of spans.now source.now) generator.old) raises.old.items raises.new.items span.1 generator.new) }
    ensures soon { IfOk result (λ span. span.1 + longest ≤ span.0 + longest * sound.events_of source.now) }
{
    match source {
        Source::At { time, raising } => {
            let pace = Pace {
                low: 0,
                high: 0,
                count: 1,
            };
            let last = run_from(alloc, generator, raises, raising, pace, *time)?;
            Ok((*time, last))
        }
        Source::Process(process) => {
            let start = started(spans, &process.start);
            let pace = pace_of(process);
            let last = run_from(alloc, generator, raises, &process.raising, pace, start)?;
            Ok((start, last))
        }
    }
}
