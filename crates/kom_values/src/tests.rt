use crate::{Scope, Stop, combine, evaluate, evaluate_all, negated};
use kom_base::Values;
use kom_lang::{Binary, Expr, Exprs};
use sqlite_items::Boxed;
use std::alloc::{AllocError, Global};
use std::test::Fail;

// an operator, its sides, and its value or its fault
const OPERATIONS: [(Binary, i64, i64, Result<i64, u16>); 30] = [
    (Binary::Add, 9223372036854775806, 1, Ok(9223372036854775807)),
    (Binary::Add, 9223372036854775807, 1, Err(2)),
    (Binary::Add, i64::MIN, -1, Err(2)),
    (Binary::Sub, i64::MIN, 1, Err(2)),
    (Binary::Sub, -1, i64::MIN, Ok(9223372036854775807)),
    (Binary::Sub, 0, i64::MIN, Err(2)),
    (Binary::Mul, i64::MIN, -1, Err(2)),
    (Binary::Mul, i64::MIN, 1, Ok(i64::MIN)),
    (Binary::Mul, 4294967296, 2147483648, Err(2)),
    (Binary::Mul, -4294967296, 2147483648, Ok(i64::MIN)),
    (Binary::Div, 7, 2, Ok(3)),
    (Binary::Div, -7, 2, Ok(-3)),
    (Binary::Div, 7, -2, Ok(-3)),
    (Binary::Div, 7, 0, Err(1)),
    (Binary::Div, i64::MIN, -1, Err(2)),
    (Binary::Div, i64::MIN, 0, Err(1)),
    (Binary::Rem, 7, 2, Ok(1)),
    (Binary::Rem, -7, 2, Ok(-1)),
    (Binary::Rem, 7, -2, Ok(1)),
    (Binary::Rem, 7, 0, Err(1)),
    (Binary::Rem, i64::MIN, -1, Err(2)),
    (Binary::Eq, 3, 3, Ok(1)),
    (Binary::Ne, 3, 3, Ok(0)),
    (Binary::Lt, -1, 0, Ok(1)),
    (Binary::Le, 0, 0, Ok(1)),
    (Binary::Gt, 0, -1, Ok(1)),
    (Binary::Ge, -1, 0, Ok(0)),
    (Binary::Or, 0, -5, Ok(1)),
    (Binary::And, 1, 0, Ok(0)),
    (Binary::And, 1, 7, Ok(1)),
];

#[test]
fn operators_at_their_edges(rt: HostRuntime) -> Result<(), Fail> {
    for (op, a, b, expected) in OPERATIONS {
        assert_eq!(rt; combine(op, a, b), expected, "{op:?} of {a} and {b}");
    }
    assert_eq!(rt; negated(i64::MIN), Err(2));
    assert_eq!(rt; negated(9223372036854775807), Ok(-9223372036854775807));
    Ok(())
}

fn pair(alloc: Global, op: Binary, left: Expr, right: Expr) -> Result<Expr, AllocError> {
    Ok(Expr::Pair {
        op,
        left: Boxed::new(alloc, left)?,
        right: Boxed::new(alloc, right)?,
    })
}

// left op 1 / 0
fn beside_a_fault(alloc: Global, op: Binary, left: i64) -> Result<Expr, AllocError> {
    let right = pair(alloc, Binary::Div, Expr::Number(1), Expr::Number(0))?;
    pair(alloc, op, Expr::Number(left), right)
}

// an operator, its left side, and what it comes to where its right side faults
const SHORT: [(Binary, i64, Result<i64, u16>); 5] = [
    (Binary::Or, -2, Ok(1)),
    (Binary::Or, 0, Err(1)),
    (Binary::And, 0, Ok(0)),
    (Binary::And, 5, Err(1)),
    (Binary::Eq, 0, Err(1)),
];

#[test]
fn a_side_that_decides_is_the_only_one(rt: HostRuntime) -> Result<(), Fail> {
    let none = Values::new(rt.alloc());
    let scope = Scope::new(rt.alloc());
    for (op, left, expected) in SHORT {
        let e = beside_a_fault(rt.alloc(), op, left)?;
        assert_eq!(rt;
            evaluate(&e, &none, &scope, &none),
            expected,
            "{left} {op:?} 1 / 0"
        );
    }
    // the left side faults first: (1 / 0) + (MIN - 1)
    let left = pair(rt.alloc(), Binary::Div, Expr::Number(1), Expr::Number(0))?;
    let right = pair(
        rt.alloc(),
        Binary::Sub,
        Expr::Number(i64::MIN),
        Expr::Number(1),
    )?;
    let e = pair(rt.alloc(), Binary::Add, left, right)?;
    assert_eq!(rt; evaluate(&e, &none, &scope, &none), Err(1));
    Ok(())
}

#[test]
fn names_are_read_by_number(rt: HostRuntime) -> Result<(), Fail> {
    let mut vars = Values::new(rt.alloc());
    vars.push(7)?;
    vars.push(11)?;
    let mut it = Values::new(rt.alloc());
    it.push(-3)?;
    let mut scope = Scope::new(rt.alloc());
    scope.push(20)?;
    scope.push(30)?;
    scope.push(40)?;
    scope.set(1, 31);
    scope.truncate(2);
    assert_eq!(rt; scope.len(), 2);
    assert_eq!(rt; scope.at(2), None);
    // !(var 1) - -(name 1) + it 0
    let not = Expr::Not(Boxed::new(rt.alloc(), Expr::Var(1))?);
    let neg = Expr::Neg(Boxed::new(rt.alloc(), Expr::Local(1))?);
    let difference = pair(rt.alloc(), Binary::Sub, not, neg)?;
    let e = pair(rt.alloc(), Binary::Add, difference, Expr::It(0))?;
    assert_eq!(rt; evaluate(&e, &vars, &scope, &it), Ok(28));
    Ok(())
}

#[test]
fn values_are_found_up_to_the_first_fault(rt: HostRuntime) -> Result<(), Fail> {
    let none = Values::new(rt.alloc());
    let scope = Scope::new(rt.alloc());
    let mut es = Exprs::new(rt.alloc());
    es.push(Expr::Number(5))?;
    es.push(Expr::Number(-6))?;
    match evaluate_all(rt.alloc(), &es, &none, &scope, &none) {
        Ok(found) => {
            assert_eq!(rt; found.len(), 2);
            assert_eq!(rt; found.at(1), Some(-6));
        }
        Err(stop) => assert!(rt; false, "{stop:?}"),
    }
    es.push(beside_a_fault(rt.alloc(), Binary::Add, 1)?)?;
    es.push(Expr::Neg(Boxed::new(rt.alloc(), Expr::Number(i64::MIN))?))?;
    match evaluate_all(rt.alloc(), &es, &none, &scope, &none) {
        Ok(_) => assert!(rt; false, "the third faults"),
        Err(stop) => assert_eq!(rt; stop, Stop::Fault(1)),
    }
    Ok(())
}
