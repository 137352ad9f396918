ghost use Rattle.std.specs.Prelude.{◌≡◌, ◌≤◌, List, [], ◌∷◌, ◌++◌, length, map, not, Ok};
ghost use Rattle.kom_base.specs.Lists.{on_ok};
ghost use Rattle.kom_lang.specs.declared.stmt.Stmt.TheVariants as stmt;
ghost use Rattle.kom_lang.specs.Steps.{Task, Do, EndBlock};
ghost use Rattle.kom_lang.specs.Values.{value, is_zero};
ghost use Rattle.kom_steps.specs.Handlings.{context_of, config, Comes};
ghost use Rattle.kom_steps.specs.Faults.{FailsFit};

use crate::children::{create, create_from_state, destroy, tell_child};
use crate::events::{answer, escalate, trigger};
use crate::handling::{Handling, Setting};
use crate::names::{assign_name, assign_variable, declare};
use crate::subscriptions::{subscribe, unsubscribe};
use crate::wires::{hold, plug, resume, unplug};
use kom_lang::{Block, Effect, Expr, Stmt};
use kom_values::{Stop, fault};

const MAX_TURNS: u32 = 10_000;

/// Whether a condition holds at this moment, or the number of its fault.
fn holds(setting: &Setting<'_>, test: &Expr, handling: &Handling) -> Result<bool, u16>
    ensures { result ≡ on_ok (value test.now (record { vars = handling.now.body.vars; scope = handling.now.scope; it = setting.now.it.now })) (λ v. Ok (not (is_zero v))) }
{
    match handling.value_of(setting, test) {
        Ok(v) => Ok(v != 0),
        Err(n) => Err(n),
    }
}

/// Runs a statement.
#[cycle(run)]
fn run_statement(
    setting: &Setting<'_>,
    statement: &Stmt,
    handling: &mut Handling,
) -> Result<(), Stop>
    requires { FailsFit (statement.now ∷ []) }
    ensures steps { (rest : List Task) → Comes (context_of setting.now) (config (Do statement.now ∷ rest) handling.old) rest handling.new result }
    ensures turns { handling.old.turns ≤ handling.new.turns }
{
    match statement {
        Stmt::Let { value, .. } => declare(setting, value, handling),
        Stmt::SetVar { index, value } => assign_variable(setting, *index, value, handling),
        Stmt::SetLocal { index, value } => assign_name(setting, *index, value, handling),
        Stmt::If { test, block, other } => {
            if holds(setting, test, handling)? {
                run_block(setting, block.as_slice(), handling)
            } else {
                match other {
                    Some(other) => run_block(setting, other.as_slice(), handling),
                    None => Ok(()),
                }
            }
        }
        Stmt::While { test, block } => {
            while holds(setting, test, handling)? {
                if handling.turns >= MAX_TURNS {
                    return Err(Stop::Fault(fault::TOO_MANY_TURNS));
                }
                handling.turns += 1;
                run_block(setting, block.as_slice(), handling)?;
            }
            Ok(())
        }
        Stmt::Trigger { kind, values, port } => trigger(setting, *kind, values, *port, handling),
        Stmt::Answer { kind, values } => answer(setting, *kind, values, handling),
        Stmt::Create { slot, kind, args } => create(setting, *slot, *kind, args, handling),
        Stmt::CreateFromState { slot, kind } => create_from_state(setting, *slot, *kind, handling),
        Stmt::Start(slot) => tell_child(*slot, Effect::Start(*slot), handling),
        Stmt::Stop(slot) => tell_child(*slot, Effect::Stop(*slot), handling),
        Stmt::Destroy(slot) => destroy(*slot, handling),
        Stmt::Dump(slot) => tell_child(*slot, Effect::Dump(*slot), handling),
        Stmt::Hold(wire) => hold(*wire, handling),
        Stmt::Resume(wire) => resume(*wire, handling),
        Stmt::Unplug { wire, end } => unplug(*wire, *end, handling),
        Stmt::Plug { wire, end, target } => plug(setting, *wire, *end, target, handling),
        Stmt::Subscribe(handler) => subscribe(*handler, handling),
        Stmt::Unsubscribe(handler) => unsubscribe(*handler, handling),
        Stmt::Fail(number) => Err(Stop::Fault(fault::FAILED + *number)),
        Stmt::Escalate => escalate(handling),
    }
}

/// Runs a block inside a block: its names leave the scope at its end.
#[cycle(run)]
fn run_block(setting: &Setting<'_>, block: &[Stmt], handling: &mut Handling) -> Result<(), Stop>
    requires { FailsFit block.now }
    ensures steps { (rest : List Task) → Comes (context_of setting.now) (config (map Do block.now ++ EndBlock (length handling.old.scope) ∷ rest) handling.old) rest handling.new result }
    ensures turns { handling.old.turns ≤ handling.new.turns }
{
    let names = handling.scope.len();
    run_statements(setting, block, handling)?;
    handling.scope.truncate(names);
    Ok(())
}

/// Runs the statements of a handler, in order. It ends at the first fault; after it, and after
/// want of memory, the handling is of no use.
#[cycle(run)]
pub fn run_statements(
    setting: &Setting<'_>,
    block: &[Stmt],
    handling: &mut Handling,
) -> Result<(), Stop>
    requires { FailsFit block.now }
    ensures steps { (rest : List Task) → Comes (context_of setting.now) (config (map Do block.now ++ rest) handling.old) rest handling.new result }
    ensures turns { handling.old.turns ≤ handling.new.turns }
{
    for statement in block {
        run_statement(setting, statement, handling)?;
    }
    Ok(())
}
