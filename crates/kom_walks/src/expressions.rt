ghost use Rattle.std.specs.Prelude.{◌≡◌, ℕ, List};
ghost use Rattle.std.specs.List.{flat_map};
ghost use Rattle.kom_rules.specs.Names.{first_place};
ghost use Rattle.kom_rules.specs.Walks.{in_expr, in_expressions};
ghost use Rattle.kom_system.specs.declared.parts.StmtPart.{out-StmtPart};

use crate::places::earlier;
use kom_system::{ExprPart, Spot, StmtPart};

/// What says of the names in expressions at which places something holds.
pub trait OfNames {
    /// The places for a name.

    ghost use Rattle.kom_system.specs.declared.parts.Spot.{Spot as Named};

    ghost name: { Self → Named → List ℕ };

    /// The places for an attribute of `it`, with the place of that word.

    ghost it: { Self → ℕ → Named → List ℕ };

    /// The first place for a name.
    fn first_of_name(&self, spot: &Spot) -> Option<u32>
        ensures { result ≡ first_place (name self.now spot.now) };

    /// The first place for an attribute of `it`.
    fn first_of_it(&self, at: u32, attr: &Spot) -> Option<u32>
        ensures { result ≡ first_place (it self.now at attr.now) };
}

/// The first place in an expression.
fn first_in_expr<S: OfNames>(says: &S, expr: &ExprPart) -> Option<u32>
    ensures { result ≡ first_place (in_expr (S.name says.now) (S.it says.now) expr.now) }
{
    match expr {
        ExprPart::Number(_) => None,
        ExprPart::Name(name) => says.first_of_name(name),
        ExprPart::It { at, attr } => says.first_of_it(*at, attr),
        ExprPart::Neg(inner) => first_in_expr(says, inner.get()),
        ExprPart::Not(inner) => first_in_expr(says, inner.get()),
        ExprPart::Pair { op: _, left, right } => {
            let before = first_in_expr(says, left.get());
            earlier(before, first_in_expr(says, right.get()))
        }
    }
}

/// The first place in the expressions of a list.
fn first_in_list<S: OfNames>(says: &S, exprs: &[ExprPart]) -> Option<u32>
    ensures { result ≡ first_place (flat_map (in_expr (S.name says.now) (S.it says.now)) exprs.now) }
{
    let mut first = None;
    for expr in exprs {
        first = earlier(first, first_in_expr(says, expr));
    }
    first
}

/// The first place in the expressions of a statement itself, without those in its blocks. It takes
/// no memory.
pub fn first_in_expressions<S: OfNames>(says: &S, stmt: &StmtPart) -> Option<u32>
    ensures { result ≡ first_place (in_expressions (S.name says.now) (S.it says.now) (out-StmtPart stmt.now)) }
{
    match stmt {
        StmtPart::Let { name: _, value } => first_in_expr(says, value),
        StmtPart::Set { name: _, value } => first_in_expr(says, value),
        StmtPart::If { test, .. } => first_in_expr(says, test),
        StmtPart::While { test, .. } => first_in_expr(says, test),
        StmtPart::Trigger { values, .. } => first_in_list(says, values.as_slice()),
        StmtPart::Answer { values, .. } => first_in_list(says, values.as_slice()),
        StmtPart::Create { args, .. } => first_in_list(says, args.as_slice()),
        _ => None,
    }
}
