ghost use Rattle.std.specs.Prelude.{◌≡◌, ◌≤◌, ℕ, length, IfOk};
ghost use Rattle.kom_text.specs.Places.{line_of, column_of};
ghost use Rattle.kom_files.specs.Files.{IsTreeOf};
ghost use Rattle.kom_scengram.specs.Grammar.{SpellsFile};
ghost use Rattle.kom_scenario.specs.declared.tree.Scene.{Scene as Tree};
ghost use Rattle.kom_scenario.specs.Answers.{IsScenario, BreaksRule, IsAnswer, Gives, Refuses};

use crate::judge::{Judged, judge};
use crate::scenario::Scenario;
use kom_files::FileRead;
use kom_scengram::{ScenarioParts, read_scenario_parts};
use kom_system::System;
use kom_text::place_of;
use std::alloc::Global;

/// What `read_scenario` answers.
#[derive(Debug, Drop)]
pub enum ScenarioRead {
    /// The value of a text that breaks no rule.
    Scenario(Scenario),
    /// The least broken rule of 2 to 12, with the line and the column where it is broken first.
    Refused { rule: u8, line: u32, column: u32 },
    /// Want of memory.
    Memory,
}

/// The refusal by a rule at a byte.
fn refused(text: &[u8], rule: u8, at: u32) -> ScenarioRead
    requires { length text.now ≤ 1048576 }
    ensures { result ≡ ScenarioRead.Refused rule (line_of text.now at) (column_of text.now at) }
{
    let place = at.min(text.len() as u32);
    let (line, column) = place_of(text, place);
    ScenarioRead::Refused { rule, line, column }
}

/// The answer for a text with this tree.
fn judged(alloc: Global, text: &[u8], tree: &ScenarioParts, system: &System) -> ScenarioRead
    requires short { length text.now ≤ 1048576 }
    requires spelled { IsTreeOf SpellsFile text.now tree.now }
    ensures { IsAnswer system.now text.now result }
{
    match judge(alloc, system, tree) {
        Ok(Judged::Scene(scene)) => ScenarioRead::Scenario(Scenario::of(scene)),
        Ok(Judged::Broken { rule, at }) => refused(text, rule, at),
        Err(_) => ScenarioRead::Memory,
    }
}

fn answer(alloc: Global, text: &[u8], system: &System) -> ScenarioRead
    requires { length text.now ≤ 1048576 }
    ensures { IsAnswer system.now text.now result }
{
    match read_scenario_parts(alloc, text) {
        FileRead::Tree(tree) => judged(alloc, text, &tree, system),
        FileRead::Refused { rule, at } => refused(text, rule, at),
        FileRead::Memory => ScenarioRead::Memory,
    }
}

/// Reads a scenario for a system. The text has at most 1,048,576 bytes.
#[tactic(auto, using(crate::proofs::Exact::gives_all, crate::proofs::Exact::refuses_all))]
pub fn read_scenario(alloc: Global, text: &[u8], system: &System) -> ScenarioRead
    requires { length text.now ≤ 1048576 }
    // A scenario is the value of the text, and a refusal names a rule that the text breaks.
    ensures answer { IsAnswer system.now text.now result }
    // The value of a text is read, unless memory runs out.
    ensures accepts { (z : Tree) → IsScenario system.now text.now z → Gives result z }
    // A text that breaks a rule is refused by it, unless memory runs out.
    ensures refuses { (rule at : ℕ) → BreaksRule system.now text.now rule at → Refuses result rule (line_of text.now at) (column_of text.now at) }
{
    answer(alloc, text, system)
}
