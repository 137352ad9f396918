ghost use Rattle.std.specs.Prelude.{◌≡◌, ℕ, List, length, ◌≤◌};
ghost use Rattle.kom_io.specs.Faults.{Rose, RisesOnlyAt};
ghost use Rattle.kom_scenario.specs.Answers.{IsScenario};
ghost use Rattle.kom_loading.specs.Scenarios.{IsPlanned, IsReadFor, Fits};

use crate::system::FILE_LIMIT;
use kom_expand::expand;
use kom_io::{Shelf, TextRead, read_text};
use kom_record::Plan;
use kom_scenario::{Scenario, ScenarioRead, read_scenario};
use kom_system::System;
use std::alloc::Global;

/// The answer of [`load_scenario`].
#[derive(Drop)]
pub enum Planned {
    /// The plan of the scenario of the file, which breaks no rule. It fits the system.
    Plan(Plan),
    /// The least broken rule, with the line and the column, from 1, where it is broken first. A file
    /// of more than 1,048,576 bytes breaks rule 1 at 1:1.
    Refused { rule: u8, line: u32, column: u32 },
    /// The shelf failed, and its count of faults of the name rose.
    ShelfFault,
    /// Want of memory.
    Memory,
}

/// Reads the scenario file of a name for a system, and works out its plan. What is kept is the plan
/// alone; the file stays opened.
#[tactic(auto, using(crate::proofs::Broken::over_for))]
pub fn load_scenario<S: Shelf>(alloc: Global, shelf: &mut S, name: &str, system: &System) -> Planned
    ensures answer { IsPlanned system.now result (S.file shelf.old name.now) }
    ensures fits { Fits system.now result }
    ensures fault { result ≡ Planned.ShelfFault → Rose (S.count shelf.old name.now) (S.count shelf.new name.now) }
    ensures counts { RisesOnlyAt name.now (S.count shelf.old) (S.count shelf.new) }
    ensures files { (n : List ℕ) → S.file shelf.new n ≡ S.file shelf.old n }
{
    let text = match read_text(alloc, shelf, name, FILE_LIMIT) {
        TextRead::Text(text) => text,
        TextRead::TooLong => {
            return Planned::Refused {
                rule: 1,
                line: 1,
                column: 1,
            };
        }
        TextRead::ReadFault => return Planned::ShelfFault,
        TextRead::Memory => return Planned::Memory,
    };
    plan_of(alloc, text.as_slice(), system)
}

/// Reads the scenario of a text for a system, and works out its plan. A text of more than 1,048,576
/// bytes breaks rule 1 at 1:1.
#[tactic(auto, using(crate::proofs::Broken::refused_for, crate::proofs::Broken::over_limit_for))]
pub fn plan_of(alloc: Global, text: &[u8], system: &System) -> Planned
    ensures read { IsReadFor system.now text.now result }
    ensures fits { Fits system.now result }
{
    if text.len() > FILE_LIMIT {
        return Planned::Refused {
            rule: 1,
            line: 1,
            column: 1,
        };
    }
    match read_scenario(alloc, text, system) {
        ScenarioRead::Scenario(scenario) => expanded(alloc, text, system, &scenario),
        ScenarioRead::Refused { rule, line, column } => Planned::Refused { rule, line, column },
        ScenarioRead::Memory => Planned::Memory,
    }
}

/// What the scenario of a text comes to.
fn expanded(alloc: Global, text: &[u8], system: &System, scenario: &Scenario) -> Planned
    requires short { length text.now ≤ 1048576 }
    requires accepted { IsScenario system.now text.now scenario.now }
    ensures read { IsReadFor system.now text.now result }
    ensures fits { Fits system.now result }
{
    system.well_formed();
    match expand(alloc, scenario) {
        Ok(plan) => Planned::Plan(plan),
        Err(_) => Planned::Memory,
    }
}
