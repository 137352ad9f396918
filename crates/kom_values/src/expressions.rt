ghost use Rattle.std.specs.Prelude.{◌≡◌, neg_ℤ, Ok};
ghost use Rattle.kom_base.specs.Lists.{on_ok};
ghost use Rattle.kom_lang.specs.Values.{value, values, at, in_range, is_zero, paired};
ghost use Rattle.kom_lang.specs.Values as spec;
ghost use Rattle.kom_values.specs.Answers.{Gives};

use crate::arithmetic::{combine, decides, negated, truth};
use crate::scope::Scope;
use crate::stop::Stop;
use kom_base::Values;
use kom_lang::{Binary, Expr, Exprs};
use std::alloc::Global;

fn value_at(values: &Values, i: usize) -> i64
    ensures { result ≡ at values.now i }
{
    values.at(i).unwrap_or(0)
}

fn name_at(scope: &Scope, i: usize) -> i64
    ensures { result ≡ at scope.now i }
{
    scope.at(i).unwrap_or(0)
}

/// The value of an expression, or the number of its fault: `vars` has the variables of the
/// component, `scope` the names in scope, `it` the attributes of the event in hand. The left side
/// of an operator comes first, and the right side of `||` or `&&` only where the left one does not
/// decide. It takes no memory.
#[cycle(value)]
#[tactic(auto, using(crate::proofs::Levels::value_neg, crate::proofs::Levels::value_not, crate::proofs::Levels::value_pair))]
pub fn evaluate(e: &Expr, vars: &Values, scope: &Scope, it: &Values) -> Result<i64, u16>
    ensures { result ≡ value e.now (record { vars = vars.now; scope = scope.now; it = it.now }) }
{
    match e {
        Expr::Number(n) => Ok(*n),
        Expr::Var(i) => Ok(value_at(vars, *i as usize)),
        Expr::Local(i) => Ok(name_at(scope, *i as usize)),
        Expr::It(i) => Ok(value_at(it, *i as usize)),
        Expr::Neg(inner) => inverse(inner.get(), vars, scope, it),
        Expr::Not(inner) => denial(inner.get(), vars, scope, it),
        Expr::Pair { op, left, right } => match evaluate(left.get(), vars, scope, it) {
            Ok(a) => operate(*op, a, right.get(), vars, scope, it),
            Err(n) => Err(n),
        },
    }
}

/// The inverse of an expression's value.
#[cycle(value)]
fn inverse(e: &Expr, vars: &Values, scope: &Scope, it: &Values) -> Result<i64, u16>
    ensures { result ≡ on_ok (value e.now (record { vars = vars.now; scope = scope.now; it = it.now })) (λ v. in_range (neg_ℤ v)) }
{
    match evaluate(e, vars, scope, it) {
        Ok(v) => negated(v),
        Err(n) => Err(n),
    }
}

/// Whether an expression's value is 0.
#[cycle(value)]
fn denial(e: &Expr, vars: &Values, scope: &Scope, it: &Values) -> Result<i64, u16>
    ensures { result ≡ on_ok (value e.now (record { vars = vars.now; scope = scope.now; it = it.now })) (λ v. Ok (spec.truth (is_zero v))) }
{
    match evaluate(e, vars, scope, it) {
        Ok(v) => Ok(truth(v == 0)),
        Err(n) => Err(n),
    }
}

/// An operator on the value of its left side and on its right side.
#[cycle(value)]
fn operate(
    op: Binary,
    a: i64,
    right: &Expr,
    vars: &Values,
    scope: &Scope,
    it: &Values,
) -> Result<i64, u16>
    ensures { result ≡ paired op (Ok a) (value right.now (record { vars = vars.now; scope = scope.now; it = it.now })) }
{
    if decides(op, a) {
        return Ok(truth(a != 0));
    }
    match evaluate(right, vars, scope, it) {
        Ok(b) => combine(op, a, b),
        Err(n) => Err(n),
    }
}

/// The values of expressions, from the first to the last, up to the first that faults.
pub fn evaluate_all(
    alloc: Global,
    es: &Exprs,
    vars: &Values,
    scope: &Scope,
    it: &Values,
) -> Result<Values, Stop>
    ensures { Gives (values es.now (record { vars = vars.now; scope = scope.now; it = it.now })) result }
{
    let mut found = Values::new(alloc);
    for e in es.as_slice() {
        match evaluate(e, vars, scope, it) {
            Ok(v) => found.push(v)?,
            Err(n) => return Err(Stop::Fault(n)),
        }
    }
    Ok(found)
}
