ghost use Rattle.std.specs.Prelude.{◌≡◌, ◌++◌, OnOk};
ghost use Rattle.kom_sysprint.specs.Canonical.{expr_text, set_text, event_text, arguments};

use crate::lists::{Prints, add_arguments};
use crate::names::{it_name, name_at, var_name};
use crate::words::{add_integer, add_word, operator};
use kom_lang::{Expr, Exprs, Kind, Name, On};
use kom_lines::{Names, Text};
use std::alloc::{AllocError, Global};

/// What is known where the statements of a handler are written.
#[derive(Drop)]
pub struct Setting<'a> {
    pub alloc: Global,
    pub names: &'a Names<'a>,

    /// The component type.
    pub kind: &'a Kind,

    /// What the handler handles.
    pub on: &'a On,
}

/// Adds an expression, with these names in scope. Expressions of a file have at most 32 operators,
/// so it goes no deeper.
pub fn add_expr(
    text: &mut Text,
    setting: &Setting<'_>,
    scope: &[Name],
    expr: &Expr,
) -> Result<(), AllocError>
    ensures { OnOk result (text.new ≡ text.old ++ expr_text setting.now.names.now setting.now.kind.now setting.now.on.now scope.now expr.now) }
{
    match expr {
        Expr::Number(n) => add_integer(text, *n),
        Expr::Var(i) => add_word(text, var_name(setting.kind, *i)),
        Expr::Local(i) => add_word(text, name_at(scope, *i as usize)),
        Expr::It(i) => {
            text.add(b"it . ")?;
            add_word(text, it_name(setting.names, setting.on, *i))
        }
        Expr::Neg(inner) => {
            text.add(b"( - ")?;
            add_expr(text, setting, scope, inner.get())?;
            text.add(b") ")?;
            Ok(())
        }
        Expr::Not(inner) => {
            text.add(b"( ! ")?;
            add_expr(text, setting, scope, inner.get())?;
            text.add(b") ")?;
            Ok(())
        }
        Expr::Pair { op, left, right } => {
            text.add(b"( ")?;
            add_expr(text, setting, scope, left.get())?;
            add_word(text, operator(*op))?;
            add_expr(text, setting, scope, right.get())?;
            text.add(b") ")?;
            Ok(())
        }
    }
}

/// Writes expressions.
#[derive(Drop)]
struct Written<'a> {
    setting: &'a Setting<'a>,
    scope: &'a [Name],
}

impl Prints<Expr> for Written<'_> {
    ghost printed = { λ w e. expr_text w.setting.now.names.now w.setting.now.kind.now w.setting.now.on.now w.scope.now e };

    fn print(&self, text: &mut Text, expr: &Expr) -> Result<(), AllocError> {
        add_expr(text, self.setting, self.scope, expr)
    }
}

/// Adds expressions in parentheses, with commas between them.
pub fn add_exprs(
    text: &mut Text,
    setting: &Setting<'_>,
    scope: &[Name],
    exprs: &Exprs,
) -> Result<(), AllocError>
    ensures { OnOk result (text.new ≡ text.old ++ arguments (expr_text setting.now.names.now setting.now.kind.now setting.now.on.now scope.now) exprs.now) }
{
    add_arguments(text, &Written { setting, scope }, exprs.as_slice())
}

/// Adds an assignment to a name.
pub fn add_set(
    text: &mut Text,
    setting: &Setting<'_>,
    scope: &[Name],
    name: &[u8],
    expr: &Expr,
) -> Result<(), AllocError>
    ensures { OnOk result (text.new ≡ text.old ++ set_text setting.now.names.now setting.now.kind.now setting.now.on.now scope.now name.now expr.now) }
{
    add_word(text, name)?;
    text.add(b"= ")?;
    add_expr(text, setting, scope, expr)?;
    text.add(b";\n")
}

/// Adds an event type with the values of an event.
pub fn add_event(
    text: &mut Text,
    setting: &Setting<'_>,
    scope: &[Name],
    kind: u16,
    values: &Exprs,
) -> Result<(), AllocError>
    ensures { OnOk result (text.new ≡ text.old ++ event_text setting.now.names.now setting.now.kind.now setting.now.on.now scope.now kind values.now) }
{
    add_word(text, setting.names.event(kind))?;
    add_exprs(text, setting, scope, values)
}
