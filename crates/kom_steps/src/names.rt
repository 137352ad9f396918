ghost use Rattle.std.specs.Prelude.{◌≡◌, ℕ, List, slice_set};
ghost use Rattle.kom_lang.specs.declared.stmt.Stmt.TheOpen.{Let, SetVar, SetLocal};
ghost use Rattle.kom_steps.specs.Handlings.{context_of, Does};

use crate::body::set_value;
use crate::handling::{Handling, Setting};
use kom_lang::Expr;
use kom_values::{Scope, Stop};

/// `let`: one name more.
pub fn declare(setting: &Setting<'_>, value: &Expr, handling: &mut Handling) -> Result<(), Stop>
    ensures step { (name : List ℕ) → Does (context_of setting.now) (Let name value.now) handling.old handling.new result }
    ensures turns { handling.new.turns ≡ handling.old.turns }
{
    let value = handling.value_of(setting, value)?;
    handling.scope.push(value)?;
    Ok(())
}

/// Assigns to a variable of the component.
pub fn assign_variable(
    setting: &Setting<'_>,
    index: u8,
    value: &Expr,
    handling: &mut Handling,
) -> Result<(), Stop>
    ensures step { Does (context_of setting.now) (SetVar index value.now) handling.old handling.new result }
    ensures turns { handling.new.turns ≡ handling.old.turns }
{
    let value = handling.value_of(setting, value)?;
    set_value(&mut handling.body.vars, index as usize, value);
    Ok(())
}

fn set_name(scope: &mut Scope, i: usize, value: i64)
    ensures { scope.new ≡ slice_set scope.old i value }
{
    if i < scope.len() {
        scope.set(i, value);
    }
}

/// Assigns to a name in scope.
pub fn assign_name(
    setting: &Setting<'_>,
    index: u32,
    value: &Expr,
    handling: &mut Handling,
) -> Result<(), Stop>
    ensures step { Does (context_of setting.now) (SetLocal index value.now) handling.old handling.new result }
    ensures turns { handling.new.turns ≡ handling.old.turns }
{
    let value = handling.value_of(setting, value)?;
    set_name(&mut handling.scope, index as usize, value);
    Ok(())
}
