ghost use Rattle.std.specs.Prelude.{◌≡◌, ℕ, List, ◌*◌, ◌++◌, ◌≤◌, [], IfOk, OnOk, true, sum_by};
ghost use Rattle.std.specs.List.{list_all};
ghost use Rattle.std.specs.List.Sorted.{IsPermutation};
ghost use Rattle.kom_record.specs.Plans.{PlanFits};
ghost use Rattle.kom_system.specs.Contents.{Contents};
ghost use Rattle.kom_system.specs.WellFormed.{IsWellFormed};
ghost use Rattle.kom_scenario.specs.Sound as sound;
ghost use Rattle.kom_scenario.specs.Answers.{IsScenario};
ghost use Rattle.kom_expand.specs.Drawn as spec;
ghost use Rattle.kom_expand.specs.Expansion.{generator_of, events_of, InTime, IsExpansion};

use crate::sources::run_of;
use kom_record::{Plan, Raise};
use kom_scenario::{Scenario, Source};
use rand_pcg::Lcg64Xsh32;
use sqlite_items::Items;
use std::alloc::{AllocError, Global};

/// The stream of a seed that scenarios draw from.
const STREAM: u64 = 1;

/// The events of all sources, one source after another.
fn events_of(alloc: Global, seed: u64, sources: &[Source]) -> Result<Vec<Raise>, AllocError>
    requires sound { list_all sound.source_is_sound sources.now ≡ true }
    requires few { sum_by sound.events_of sources.now ≤ sound.most }
    ensures { IfOk result (λ raises. raises.items ≡ spec.events_from [] sources.now (generator_of seed)) }
{
    let mut generator = Lcg64Xsh32::new(seed, STREAM);
    let mut raises = Vec::new(alloc);
    let mut spans = Vec::new(alloc);
    for source in sources {
        let span = run_of(alloc, &mut generator, &mut raises, spans.as_slice(), source)?;
        spans.push(span)?;
    }
    Ok(raises)
}

/// Puts events in order of time; those of one time keep their order.
fn sort(raises: &mut Vec<Raise>) -> Result<(), AllocError>
    ensures in_time { OnOk result (InTime raises.old.items raises.new.items) }
    ensures moved { IsPermutation raises.old.items raises.new.items }
{
    raises.sort_by_key(
        |raise: &Raise| -> u64
            ensures { result ≡ raise.now.time }
        { raise.time },
    )?;
    Ok(())
}

/// The plan of a scenario: the events of its sources, with what is drawn for them, in order of
/// time. It fits each system for which the scenario is the value of a text.
pub fn expand(alloc: Global, scenario: &Scenario) -> Result<Plan, AllocError>
    ensures plan { IfOk result (IsExpansion scenario.now) }
    ensures fits { IfOk result (λ plan. (c : Contents) (text : List ℕ) → IsWellFormed c → IsScenario c text scenario.now → PlanFits c.declarations plan) }
{
    let scene = scenario.scene();
    let mut raises = events_of(alloc, scene.seed, scene.sources.as_slice())?;
    sort(&mut raises)?;
    Ok(Plan {
        seed: scene.seed,
        steps: scene.steps,
        instants: scene.instants,
        lo: scene.lo,
        hi: scene.hi,
        raises: Items::from_vec(raises),
    })
}
