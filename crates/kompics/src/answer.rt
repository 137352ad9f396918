ghost use Rattle.std.specs.Prelude.{◌≡◌, ◌≤◌, ℕ, Bool, true, false, List, Option, MatchResult, codes};
ghost use Rattle.kom_record.specs.Plans.{PlanFits};
ghost use Rattle.kompics.specs.Words.{print, sim, run, make, drill};
ghost use Rattle.kompics.specs.Runs.{Drive, simulated, by_workers};
ghost use Rattle.kompics.specs.Top.{IsAnswer, AsksFiles};
ghost use Rattle.kompics.specs.Found.{Refuses, IsNoSystem, IsNoPlan, IsText, AreOf, IsOfRun};

use crate::command::{Command, Crewed, Form, command_of, run_of};
use crate::running::{Run, run_system, run_with_workers};
use kom_io::{Shelf, Words};
use kom_loading::{Loaded, Planned, load_scenario, load_system, plan_of, refusal_line, system_of};
use kom_make::{SCENARIO, SYSTEM, make_scenario, make_system};
use kom_record::{Gate, Plan};
use kom_sysprint::print_system;
use kom_system::System;
use std::alloc::Global;
use std::sync::Wait;
use std::thread::Threads;

/// What the words come to, before anything is written.
#[derive(Drop)]
pub enum Answer {
    /// The words are no command.
    NoCommand,
    /// The text of the command.
    Text(Vec<u8>),
    /// The line that refuses a file.
    Refused(String),
    /// A run, whose trace is the text of the command.
    Run(Run),
    /// The shelf failed.
    ShelfFault,
    /// Want of memory.
    Memory,
}

/// Does what the words say, but for the writing. [`Answer`] says when each answer comes. Where the words
/// ask for a run with workers, each of these passes the gate before it handles an item, and the call may
/// wait, as handlings of other workers and the gate do. The files of the shelf stay as they are, and no
/// count of faults falls.
#[tactic(auto, using(crate::proofs::Finding::not_working))]
pub fn answer_with<R: Threads + Wait + Sync, S: Shelf, G: Gate + Sync>(
    rt: &R,
    alloc: Global,
    words: &Words,
    shelf: &mut S,
    gate: &G,
) -> Answer
    ensures answer { IsAnswer true SYSTEM.now SCENARIO.now words.now (S.file shelf.old) result (S.count shelf.old) (S.count shelf.new) }
    ensures files { (n : List ℕ) → S.file shelf.new n ≡ S.file shelf.old n }
    ensures counts { (n : List ℕ) → S.count shelf.old n ≤ S.count shelf.new n }
{
    match run_of(words) {
        Some(asked) => answer_workers(rt, alloc, shelf, &asked, gate),
        None => answer_to(alloc, words, shelf),
    }
}

/// Does what the words say without workers, but for the writing, as [`answer_with`] does; to it the
/// words of a run with workers are no command, and it does not wait.
#[tactic(auto, using(crate::proofs::Finding::unknown))]
pub fn answer_to<S: Shelf>(alloc: Global, words: &Words, shelf: &mut S) -> Answer
    ensures answer { IsAnswer false SYSTEM.now SCENARIO.now words.now (S.file shelf.old) result (S.count shelf.old) (S.count shelf.new) }
    ensures files { (n : List ℕ) → S.file shelf.new n ≡ S.file shelf.old n }
    ensures counts { (n : List ℕ) → S.count shelf.old n ≤ S.count shelf.new n }
{
    match command_of(words) {
        Some(Command::Print { form, system }) => answer_print(alloc, shelf, form, system),
        Some(Command::Sim { system, scenario }) => answer_sim(alloc, shelf, system, scenario),
        Some(Command::MakeSystem(n)) => answer_system(alloc, n),
        Some(Command::MakeScenario(n)) => answer_scenario(alloc, n),
        Some(Command::Drill(n)) => answer_drill(alloc, n),
        None => Answer::NoCommand,
    }
}

/// The generated system of a number.
fn answer_system(alloc: Global, n: u32) -> Answer
    requires some { 1 ≤ n }
    requires most { n ≤ 30 }
    ensures { (has_workers : Bool) (words : List (List ℕ)) (files : List ℕ → Option (List ℕ)) (before after : List ℕ → ℕ) → words ≡ make n (codes "system") → IsAnswer has_workers SYSTEM.now SCENARIO.now words files result before after }
{
    match make_system(alloc, n) {
        Ok(text) => Answer::Text(text),
        Err(_) => Answer::Memory,
    }
}

/// The generated scenario of a number.
fn answer_scenario(alloc: Global, n: u32) -> Answer
    requires some { 1 ≤ n }
    requires most { n ≤ 30 }
    ensures { (has_workers : Bool) (words : List (List ℕ)) (files : List ℕ → Option (List ℕ)) (before after : List ℕ → ℕ) → words ≡ make n (codes "scenario") → IsAnswer has_workers SYSTEM.now SCENARIO.now words files result before after }
{
    match make_scenario(alloc, n) {
        Ok(text) => Answer::Text(text),
        Err(_) => Answer::Memory,
    }
}

/// The answer of a file of a kind that is refused.
fn refused(alloc: Global, kind: &str, rule: u8, line: u32, column: u32) -> Answer
    ensures { Refuses kind.now rule line column result }
{
    match refusal_line(alloc, kind, rule, line, column) {
        Ok(line) => Answer::Refused(line),
        Err(_) => Answer::Memory,
    }
}

/// The system that was found, or else the answer.
fn accepted(alloc: Global, found: Loaded) -> Result<System, Answer>
    ensures { MatchResult result (λ system. found ≡ Loaded.System system) (λ answer. IsNoSystem found answer) }
{
    match found {
        Loaded::System(system) => Ok(system),
        Loaded::Refused { rule, line, column } => {
            Err(refused(alloc, "system", rule, line, column))
        }
        Loaded::ShelfFault => Err(Answer::ShelfFault),
        Loaded::Memory => Err(Answer::Memory),
    }
}

/// The plan that was found, or else the answer.
fn planned(alloc: Global, found: Planned) -> Result<Plan, Answer>
    ensures { MatchResult result (λ plan. found ≡ Planned.Plan plan) (λ answer. IsNoPlan found answer) }
{
    match found {
        Planned::Plan(plan) => Ok(plan),
        Planned::Refused { rule, line, column } => {
            Err(refused(alloc, "scenario", rule, line, column))
        }
        Planned::ShelfFault => Err(Answer::ShelfFault),
        Planned::Memory => Err(Answer::Memory),
    }
}

/// What the file of a command that writes its system comes to.
fn answer_print<S: Shelf>(alloc: Global, shelf: &mut S, form: Form, name: &str) -> Answer
    ensures answer { (has_workers : Bool) (words : List (List ℕ)) → words ≡ print form name.now → IsAnswer has_workers SYSTEM.now SCENARIO.now words (S.file shelf.old) result (S.count shelf.old) (S.count shelf.new) }
    ensures files { (n : List ℕ) → S.file shelf.new n ≡ S.file shelf.old n }
    ensures counts { (n : List ℕ) → S.count shelf.old n ≤ S.count shelf.new n }
{
    match accepted(alloc, load_system(alloc, shelf, name)) {
        Ok(system) => printed(alloc, form, system),
        Err(answer) => answer,
    }
}

/// The answer of a system in a form.
fn printed(alloc: Global, form: Form, system: System) -> Answer
    ensures { IsText form system result }
{
    let system = match form {
        Form::AsItIs => system,
        Form::Upgraded => system.upgrade(),
    };
    match print_system(alloc, &system) {
        Ok(text) => Answer::Text(text),
        Err(_) => Answer::Memory,
    }
}

/// The system of one file and the plan of another, or else the answer.
fn load_both<S: Shelf>(
    alloc: Global,
    shelf: &mut S,
    system_name: &str,
    scenario_name: &str,
) -> Result<(System, Plan), Answer>
    ensures answer { MatchResult result (λ found. AreOf (S.file shelf.old system_name.now) (S.file shelf.old scenario_name.now) found.0 found.1) (λ answer. (has_workers : Bool) (words : List (List ℕ)) (drive : Drive) → AsksFiles has_workers words drive system_name.now scenario_name.now → IsAnswer has_workers SYSTEM.now SCENARIO.now words (S.file shelf.old) answer (S.count shelf.old) (S.count shelf.new)) }
    ensures files { (n : List ℕ) → S.file shelf.new n ≡ S.file shelf.old n }
    ensures counts { (n : List ℕ) → S.count shelf.old n ≤ S.count shelf.new n }
{
    let system = match accepted(alloc, load_system(alloc, shelf, system_name)) {
        Ok(system) => system,
        Err(answer) => return Err(answer),
    };
    let found = load_scenario(alloc, shelf, scenario_name, &system);
    match planned(alloc, found) {
        Ok(plan) => Ok((system, plan)),
        Err(answer) => Err(answer),
    }
}

/// What the two files of the command `sim` come to.
fn answer_sim<S: Shelf>(
    alloc: Global,
    shelf: &mut S,
    system_name: &str,
    scenario_name: &str,
) -> Answer
    ensures answer { (has_workers : Bool) (words : List (List ℕ)) → words ≡ sim system_name.now scenario_name.now → IsAnswer has_workers SYSTEM.now SCENARIO.now words (S.file shelf.old) result (S.count shelf.old) (S.count shelf.new) }
    ensures files { (n : List ℕ) → S.file shelf.new n ≡ S.file shelf.old n }
    ensures counts { (n : List ℕ) → S.count shelf.old n ≤ S.count shelf.new n }
{
    match load_both(alloc, shelf, system_name, scenario_name) {
        Ok((system, plan)) => answer_run(alloc, system, plan, false),
        Err(answer) => answer,
    }
}

/// What the two files of a run with workers come to.
fn answer_workers<R: Threads + Wait + Sync, S: Shelf, G: Gate + Sync>(
    rt: &R,
    alloc: Global,
    shelf: &mut S,
    asked: &Crewed<'_>,
    gate: &G,
) -> Answer
    requires { (1 ≤ asked.now.workers) × (asked.now.workers ≤ 64) }
    ensures answer { (words : List (List ℕ)) → words ≡ run asked.now.system.now asked.now.scenario.now asked.now.workers → IsAnswer true SYSTEM.now SCENARIO.now words (S.file shelf.old) result (S.count shelf.old) (S.count shelf.new) }
    ensures files { (n : List ℕ) → S.file shelf.new n ≡ S.file shelf.old n }
    ensures counts { (n : List ℕ) → S.count shelf.old n ≤ S.count shelf.new n }
{
    match load_both(alloc, shelf, asked.system, asked.scenario) {
        Ok((system, plan)) => crewed(rt, alloc, system, plan, asked.workers, gate),
        Err(answer) => answer,
    }
}

/// The answer of a system and a plan that fits it, which workers run.
fn crewed<R: Threads + Wait + Sync, G: Gate + Sync>(
    rt: &R,
    alloc: Global,
    system: System,
    plan: Plan,
    workers: u32,
    gate: &G,
) -> Answer
    requires plan { PlanFits system.declarations plan }
    requires workers { (1 ≤ workers) × (workers ≤ 64) }
    ensures { IsOfRun (by_workers workers) system plan false result }
{
    match run_with_workers(rt, alloc, system, plan, workers, gate) {
        Ok(run) => Answer::Run(run),
        Err(_) => Answer::Memory,
    }
}

/// What the generated texts of a number come to.
fn answer_drill(alloc: Global, n: u32) -> Answer
    requires some { 1 ≤ n }
    requires most { n ≤ 30 }
    ensures { (has_workers : Bool) (words : List (List ℕ)) (files : List ℕ → Option (List ℕ)) (before after : List ℕ → ℕ) → words ≡ drill n → IsAnswer has_workers SYSTEM.now SCENARIO.now words files result before after }
{
    let Ok(text) = make_system(alloc, n) else {
        return Answer::Memory;
    };
    let system = match accepted(alloc, system_of(alloc, text.as_slice())) {
        Ok(system) => system,
        Err(answer) => return answer,
    };
    let Ok(text) = make_scenario(alloc, n) else {
        return Answer::Memory;
    };
    let found = plan_of(alloc, text.as_slice(), &system);
    match planned(alloc, found) {
        Ok(plan) => answer_run(alloc, system, plan, true),
        Err(answer) => answer,
    }
}

/// The answer of a system and a plan that fits it.
fn answer_run(alloc: Global, system: System, plan: Plan, brief: bool) -> Answer
    requires { PlanFits system.declarations plan }
    ensures { IsOfRun simulated system plan brief result }
{
    match run_system(alloc, system, plan, brief) {
        Ok(run) => Answer::Run(run),
        Err(_) => Answer::Memory,
    }
}
