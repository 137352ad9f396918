ghost use Rattle.std.specs.Prelude.{List, [], ◌∷◌, ◌++◌, map, Contains, IfOk};
ghost use Rattle.std.specs.Arc.{arc_value};
ghost use Rattle.kom_lang.specs.Steps.{Task, Do, BeginHandler};
ghost use Rattle.kom_lang.specs.declared.stmt.Handler.{Handler};
ghost use Rattle.kom_record.specs.Plans.{IsWellFormedJob};
ghost use Rattle.kom_record.specs.Reaction.{Reacts, parameters};
ghost use Rattle.kom_steps.specs.Faults.{FailsFit};
ghost use Rattle.kom_steps.specs.Handlings.{context_of, config, Comes};
ghost use Rattle.kom_eval.specs.Handlers.{tasks};
ghost use Rattle.kom_eval.specs.Answers.{IsReaction};

use crate::handlers::handlers;
use crate::item::{attributes_of, begin, state_of};
use crate::prepare::prepared;
use kom_base::Values;
use kom_lang::{Body, Kind, Stmt, Subs};
use kom_record::{Item, Job, Outcome, Ran};
use kom_steps::{Handling, Setting, run_statements};
use kom_system::System;
use kom_values::{Scope, Stop};
use sqlite_items::Items;
use std::alloc::{AllocError, Global};

/// The answer of `react`.
#[derive(Drop)]
pub enum Reacted {
    /// The job was handled.
    Ran(Ran),
    /// Want of memory; the job is as it was.
    Memory(Job),
}

/// Runs a handler: its parameters are the first names in scope.
fn run_handler(
    setting: &Setting<'_>,
    block: &[Stmt],
    item: &Item,
    handling: &mut Handling,
) -> Result<(), Stop>
    requires { FailsFit block.now }
    ensures { (rest : List Task) → Comes (context_of setting.now) (config (BeginHandler (parameters item.now) ∷ (map Do block.now ++ rest)) handling.old) rest handling.new result }
{
    begin(item, &mut handling.scope)?;
    run_statements(setting, block, handling)
}

/// Runs the handler with that number; where there is none, nothing is done.
fn run_numbered(
    setting: &Setting<'_>,
    kind: &Kind,
    h: u8,
    item: &Item,
    handling: &mut Handling,
) -> Result<(), Stop>
    requires { (x : Handler) → Contains kind.now.handlers x → FailsFit x.block }
    ensures { (rest : List Task) → Comes (context_of setting.now) (config (tasks kind.now (parameters item.now) (h ∷ []) ++ rest) handling.old) rest handling.new result }
{
    match kind.handlers.get(h as usize) {
        Some(handler) => run_handler(setting, handler.block.as_slice(), item, handling),
        None => Ok(()),
    }
}

/// Runs the handlers with these numbers, one after another.
fn run_handlers(
    setting: &Setting<'_>,
    kind: &Kind,
    numbers: &Subs,
    item: &Item,
    handling: &mut Handling,
) -> Result<(), Stop>
    requires { (x : Handler) → Contains kind.now.handlers x → FailsFit x.block }
    ensures { (rest : List Task) → Comes (context_of setting.now) (config (tasks kind.now (parameters item.now) numbers.now ++ rest) handling.old) rest handling.new result }
{
    for h in numbers.as_slice() {
        run_numbered(setting, kind, *h, item, handling)?;
    }
    Ok(())
}

/// What comes of an item.
#[tactic(auto, unfolding(kom_record::specs::Reaction::Reacts, kom_record::specs::Reaction::first_config))]
fn outcome_of(
    alloc: Global,
    system: &System,
    body: &Body,
    item: &Item,
) -> Result<Outcome, AllocError>
    requires { IsWellFormedJob system.now.declarations body.now item.now }
    ensures { IfOk result (λ outcome. Reacts system.now.declarations body.now item.now outcome) }
{
    let body = prepared(alloc, system, body, item)?;
    let numbers = handlers(alloc, system, &body, item)?;
    let kind = system.kind(body.kind);
    let none = Values::new(alloc);
    let setting = Setting {
        alloc,
        system,
        it: attributes_of(item, &none),
        state: state_of(item, &none),
    };
    let mut handling = Handling {
        body,
        scope: Scope::new(alloc),
        effects: Items::new(alloc),
        turns: 0,
    };
    match run_handlers(&setting, kind, &numbers, item, &mut handling) {
        Ok(()) => {
            let Handling { body, effects, .. } = handling;
            Ok(Outcome::Done { body, effects })
        }
        Err(Stop::Fault(number)) => Ok(Outcome::Fault(number)),
        Err(Stop::Memory) => Err(AllocError),
    }
}

/// Handles a job: the outcome is the reaction of its body to its item. A fault of the handling is
/// an outcome like others; `Memory` gives the job back.
pub fn react(alloc: Global, job: Job) -> Reacted
    requires { IsWellFormedJob (arc_value job.system).declarations job.body job.item }
    ensures { IsReaction job result }
{
    match outcome_of(alloc, &job.system, &job.body, &job.item) {
        Ok(outcome) => Reacted::Ran(Ran { job, outcome }),
        Err(_) => Reacted::Memory(job),
    }
}
