use kom_base::Copied;
use sqlite_items::{Boxed, Items};
use std::alloc::{AllocError, Global};

/// A binary operator.
#[derive(Clone, Copy, Debug, PartialEq, Eq)]
pub enum Binary {
    Or,
    And,
    Eq,
    Ne,
    Lt,
    Le,
    Gt,
    Ge,
    Add,
    Sub,
    Mul,
    Div,
    Rem,
}

/// An expression, with numbers in the place of names. Its value is a signed number of 64 bits.
#[derive(Debug, Drop)]
pub enum Expr {
    Number(i64),
    /// A variable of the component, by its number.
    Var(u8),
    /// A name in scope, from 0: the parameters of the handler first, then those of `let`.
    Local(u32),
    /// An attribute of the event in hand, by its number.
    It(u8),
    Neg(Boxed<Expr>),
    /// 1 where the operand is 0, else 0.
    Not(Boxed<Expr>),
    Pair {
        op: Binary,
        left: Boxed<Expr>,
        right: Boxed<Expr>,
    },
}

/// A list of expressions. Contracts see the list.
pub type Exprs = Items<Expr>;

impl Copied for Expr {
    fn copy(&self, alloc: Global) -> Result<Expr, AllocError> {
        match self {
            Expr::Number(n) => Ok(Expr::Number(*n)),
            Expr::Var(i) => Ok(Expr::Var(*i)),
            Expr::Local(i) => Ok(Expr::Local(*i)),
            Expr::It(i) => Ok(Expr::It(*i)),
            Expr::Neg(inner) => Ok(Expr::Neg(Boxed::new(alloc, inner.get().copy(alloc)?)?)),
            Expr::Not(inner) => Ok(Expr::Not(Boxed::new(alloc, inner.get().copy(alloc)?)?)),
            Expr::Pair { op, left, right } => Ok(Expr::Pair {
                op: *op,
                left: Boxed::new(alloc, left.get().copy(alloc)?)?,
                right: Boxed::new(alloc, right.get().copy(alloc)?)?,
            }),
        }
    }
}
