ghost use Rattle.std.specs.Prelude.{◌≡◌, ◌≤◌};
ghost use Rattle.kom_scenario.specs.Rules as spec;
ghost use Rattle.kom_scenario.specs.Rules.{first_place};

use crate::numbers::{MOST, size};
use kom_scengram::SourcePart;

fn events_in(source: &SourcePart) -> u64
    ensures value { result ≡ spec.events_in source.now }
    ensures fits { result ≤ 9223372036854775807 }
{
    match source {
        SourcePart::At { .. } => 1,
        SourcePart::Process(process) => size(process.count),
    }
}

/// Where the events of a source are counted.
fn count_place(source: &SourcePart) -> u32
    ensures { result ≡ spec.count_place source.now }
{
    match source {
        SourcePart::At { at, .. } => *at,
        SourcePart::Process(process) => process.count.at,
    }
}

/// The place by which the events go over the most.
#[tactic(auto, unfolding(crate::specs::Rules::crowded))]
pub fn crowded(sources: &[SourcePart]) -> Option<u32>
    ensures { result ≡ first_place (spec.crowded 0 sources.now) }
{
    let mut events = 0;
    for source in sources {
        let more = events + events_in(source);
        if more > MOST {
            return Some(count_place(source));
        }
        events = more;
    }
    None
}
