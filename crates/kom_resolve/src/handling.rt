ghost use Rattle.std.specs.Prelude.{◌≡◌, true, map, IfOk};
ghost use Rattle.kom_lookups.specs.Tabled.{AreTables, HasNames};
ghost use Rattle.kom_resolve.specs.Counted.{IsCounted, has_short_lists};
ghost use Rattle.kom_resolve.specs.Resolved.{attributes_of_it, named_value, expr_in, set_value};
ghost use Rattle.kom_rules.specs.Names.{names_of, number_in};
ghost use Rattle.kom_rules.specs.Spaces.{var_spots};

use crate::all::{Resolves, resolve_all};
use crate::numbers::number_among;
use crate::site::Site;
use kom_lang::{Expr, Exprs, Name, Stmt};
use kom_lookups::{Names, Tables};
use kom_names::NameSet;
use kom_system::{ComponentPart, ExprPart, OnPart, Parts, Spot};
use sqlite_items::Boxed;
use std::alloc::{AllocError, Global};

/// What a handler of a component type handles, with the names of the attributes of its event.
#[derive(Drop)]
pub struct Handling<'a> {
    pub parts: &'a Parts,
    pub tables: &'a Tables,
    pub part: &'a ComponentPart,
    pub names: &'a Names,
    pub on: &'a OnPart,
    pub attrs: &'a [Name],

    ghost tabled: { AreTables tables.now parts.now },
    ghost counted: { IsCounted parts.now },
    ghost named: { HasNames names.now part.now },
    ghost short: { has_short_lists part.now ≡ true },
    ghost of_it: { attrs.now ≡ attributes_of_it parts.now on.now },
}

/// A handler's expressions with the names in scope.
#[derive(Drop)]
struct InScope<'a> {
    handling: &'a Handling<'a>,
    scope: &'a NameSet,
}

impl Resolves<ExprPart, Expr> for InScope<'_> {
    ghost value = { λ s. expr_in s.handling.now.parts.now s.handling.now.part.now s.handling.now.on.now s.scope.now };

    fn resolve(&self, alloc: Global, part: &ExprPart) -> Result<Expr, AllocError> {
        self.handling.expr(alloc, self.scope, part)
    }
}

/// The number of a name in scope. More than 4,294,967,295 names are answered as want of memory.
fn local(scope: &NameSet, spot: &Spot) -> Result<u32, AllocError>
    ensures { IfOk result (λ n. n ≡ number_in scope.now spot.now.name) }
{
    let number = match scope.number(spot.name.bytes()) {
        Some(number) => number,
        None => scope.len(),
    };
    match u32::try_from(number) {
        Ok(number) => Ok(number),
        Err(_) => Err(AllocError),
    }
}

impl<'a> Handling<'a> {
    /// The component type.
    pub fn site(&self) -> Site<'a>
        ensures parts { result.parts.now ≡ self.now.parts.now }
        ensures part { result.part.now ≡ self.now.part.now }
    {
        Site {
            parts: self.parts,
            tables: self.tables,
            part: self.part,
            names: self.names,
        }
    }

    /// A name in an expression.
    fn named(&self, scope: &NameSet, spot: &Spot) -> Result<Expr, AllocError>
        ensures { IfOk result (λ e. e ≡ named_value (names_of (var_spots self.now.part.now)) scope.now spot.now.name) }
    {
        match self.names.vars.number(spot.name.bytes()) {
            Some(number) => Ok(Expr::Var(number as u8)),
            None => Ok(Expr::Local(local(scope, spot)?)),
        }
    }

    /// An expression with these names in scope.
    pub fn expr(&self, alloc: Global, scope: &NameSet, part: &ExprPart) -> Result<Expr, AllocError>
        ensures { IfOk result (λ e. e ≡ expr_in self.now.parts.now self.now.part.now self.now.on.now scope.now part.now) }
    {
        match part {
            ExprPart::Number(n) => Ok(Expr::Number(*n)),
            ExprPart::Name(spot) => self.named(scope, spot),
            ExprPart::It { at: _, attr } => Ok(Expr::It(number_among(self.attrs, attr))),
            ExprPart::Neg(inner) => {
                let inner = self.expr(alloc, scope, inner.get())?;
                Ok(Expr::Neg(Boxed::new(alloc, inner)?))
            }
            ExprPart::Not(inner) => {
                let inner = self.expr(alloc, scope, inner.get())?;
                Ok(Expr::Not(Boxed::new(alloc, inner)?))
            }
            ExprPart::Pair { op, left, right } => {
                let left = self.expr(alloc, scope, left.get())?;
                let right = self.expr(alloc, scope, right.get())?;
                Ok(Expr::Pair {
                    op: *op,
                    left: Boxed::new(alloc, left)?,
                    right: Boxed::new(alloc, right)?,
                })
            }
        }
    }

    /// Some expressions with these names in scope.
    pub fn exprs(
        &self,
        alloc: Global,
        scope: &NameSet,
        parts: &[ExprPart],
    ) -> Result<Exprs, AllocError>
        ensures { IfOk result (λ es. es ≡ map (expr_in self.now.parts.now self.now.part.now self.now.on.now scope.now) parts.now) }
    {
        let says = InScope {
            handling: self,
            scope,
        };
        resolve_all(&says, alloc, parts)
    }

    /// A statement that gives a variable, or a name in scope, a value.
    pub fn set(&self, scope: &NameSet, spot: &Spot, value: Expr) -> Result<Stmt, AllocError>
        ensures { IfOk result (λ s. s ≡ set_value self.now.parts.now self.now.part.now self.now.on.now scope.now spot.now.name value) }
    {
        match self.names.vars.number(spot.name.bytes()) {
            Some(number) => Ok(Stmt::SetVar {
                index: number as u8,
                value,
            }),
            None => Ok(Stmt::SetLocal {
                index: local(scope, spot)?,
                value,
            }),
        }
    }
}
