ghost use Rattle.std.specs.Prelude.{◌≡◌, ◌≤◌, ◌*◌, ◌-◌, true, [], length, IfOk};
ghost use Rattle.std.specs.List.{list_all};
ghost use Rattle.kom_scenario.specs.Sound as spec;
ghost use Rattle.kom_scenario.specs.Rules.{first_place, late_place, late_from};
ghost use Rattle.kom_scenario.specs.Early.{Early};

use crate::numbers::LONGEST;
use crate::tree::{Process, Source, Start};
use kom_scengram::{Moment, SourcePart};
use std::alloc::{AllocError, Global};

/// A moment of a source, of its start and the time of its last event; no source has none.
pub fn moment_of(spans: &[(u64, u64)], source: usize, moment: Moment) -> u64
    ensures { result ≡ spec.moment_of moment (spec.span_at spans.now source) }
{
    let span = spans.get(source).copied().unwrap_or((0, 0));
    match moment {
        Moment::Start => span.0,
        Moment::End => span.1,
    }
}

/// The latest start, by the latest moments of the sources before.
fn started(spans: &[(u64, u64)], start: &Start) -> u64
    requires early { Early spec.longest spans.now }
    requires sound { spec.start_is_sound start.now ≡ true }
    ensures value { result ≡ spec.started spans.now start.now }
    ensures soon { result ≤ 2 * spec.longest }
{
    match start {
        Start::At(time) => *time,
        Start::After { moment, source, by } => moment_of(spans, *source, *moment) + *by,
    }
}

/// The time from the first event to the last at the greatest gaps.
fn length_of(process: &Process) -> u64
    ensures value { result ≡ (process.now.count - 1) * process.now.high }
    ensures fits { result ≤ 18446744065119617025 }
{
    let gaps = process.count.saturating_sub(1);
    gaps as u64 * process.high as u64
}

/// The latest moments of a source, by those of the sources before.
fn latest(spans: &[(u64, u64)], source: &Source) -> (u64, u64)
    requires early { Early spec.longest spans.now }
    requires sound { spec.source_is_sound source.now ≡ true }
    ensures { result ≡ spec.latest spans.now source.now }
{
    match source {
        Source::At { time, .. } => (*time, *time),
        Source::Process(process) => {
            let start = started(spans, &process.start);
            (start, start + length_of(process))
        }
    }
}

fn late_place(part: &SourcePart) -> u32
    ensures { result ≡ late_place part.now }
{
    match part {
        SourcePart::At { time, .. } => time.at,
        SourcePart::Process(process) => process.name.at,
    }
}

/// The place of the first source that may still raise after the longest time.
#[tactic(auto, unfolding(crate::specs::Rules::late_from))]
pub fn late(
    alloc: Global,
    parts: &[SourcePart],
    sources: &[Source],
) -> Result<Option<u32>, AllocError>
    requires paired { length parts.now ≡ length sources.now }
    requires sound { list_all spec.source_is_sound sources.now ≡ true }
    ensures { IfOk result (λ place. place ≡ first_place (late_from [] parts.now sources.now)) }
{
    let mut spans = Vec::new(alloc);
    for (k, source) in sources.iter().enumerate() {
        let span = latest(spans.as_slice(), source);
        if span.1 > LONGEST {
            return Ok(Some(late_place(&parts[k])));
        }
        spans.push(span)?;
    }
    Ok(None)
}
