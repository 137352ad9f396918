ghost use Rattle.std.specs.Prelude.{◌≡◌, ℕ, List, IfOk, OnOk};
ghost use Rattle.std.specs.List.{flat_map};
ghost use Rattle.kom_rules.specs.Names.{first_place};
ghost use Rattle.kom_rules.specs.Walks.{after, standing, with_inside};
ghost use Rattle.kom_system.specs.declared.parts.StmtPart.{out-StmtPart};
ghost use Rattle.kom_walks.specs.Else.{else_of};

use crate::places::earlier;
use kom_names::NameSet;
use kom_system::{StmtPart, StmtParts};
use std::alloc::{AllocError, Global};

/// What says of statements, given the names in scope, at which places something holds.
pub trait InScope {
    ghost use Rattle.kom_rules.specs.Names.{Name};
    ghost use Rattle.kom_rules.specs.Walks.{One as Statement};

    /// The places for a statement itself, without the statements in its blocks.

    ghost of: { Self → List Name → Statement → List ℕ };

    /// The first of them.
    fn first_standing(&self, scope: &NameSet, stmt: &StmtPart) -> Option<u32>
        ensures { result ≡ first_place (of self.now scope.now (out-StmtPart stmt.now)) };
}

/// The first place of the statements of a block and of the blocks inside it, as deep as so many
/// levels, where these names are in scope at its begin. Afterwards they are in scope again.
#[cycle(scopes)]
pub fn first_in_scope<S: InScope>(
    says: &S,
    alloc: Global,
    levels: u8,
    scope: &mut NameSet,
    block: &[StmtPart],
) -> Result<Option<u32>, AllocError>
    ensures first { IfOk result (λ first. first ≡ first_place (flat_map (λ x. S.of says.now x.scope x.stmt) (standing levels scope.old block.now))) }
    ensures same_scope { OnOk result (scope.new ≡ scope.old) }
{
    if levels == 0 {
        return Ok(None);
    }
    let count = scope.len();
    let mut first = None;
    for stmt in block {
        let now = first_with_inside(says, alloc, levels - 1, scope, stmt)?;
        first = earlier(first, now);
        enter(alloc, scope, stmt)?;
    }
    scope.truncate(count);
    Ok(first)
}

/// The first place of a statement and of those in its blocks.
#[cycle(scopes)]
fn first_with_inside<S: InScope>(
    says: &S,
    alloc: Global,
    levels: u8,
    scope: &mut NameSet,
    stmt: &StmtPart,
) -> Result<Option<u32>, AllocError>
    ensures first { IfOk result (λ first. first ≡ first_place (flat_map (λ x. S.of says.now x.scope x.stmt) (with_inside (standing levels) scope.old (out-StmtPart stmt.now)))) }
    ensures same_scope { OnOk result (scope.new ≡ scope.old) }
{
    let own = says.first_standing(scope, stmt);
    match stmt {
        StmtPart::If { block, other, .. } => {
            let then = first_in_scope(says, alloc, levels, scope, block.as_slice())?;
            let otherwise = first_in_else(says, alloc, levels, scope, other)?;
            Ok(earlier(own, earlier(then, otherwise)))
        }
        StmtPart::While { block, .. } => {
            let body = first_in_scope(says, alloc, levels, scope, block.as_slice())?;
            Ok(earlier(own, body))
        }
        _ => Ok(own),
    }
}

/// The first place of the statements behind `else`.
#[cycle(scopes)]
fn first_in_else<S: InScope>(
    says: &S,
    alloc: Global,
    levels: u8,
    scope: &mut NameSet,
    other: &Option<StmtParts>,
) -> Result<Option<u32>, AllocError>
    ensures first { IfOk result (λ first. first ≡ first_place (flat_map (λ x. S.of says.now x.scope x.stmt) (else_of levels scope.old other.now))) }
    ensures same_scope { OnOk result (scope.new ≡ scope.old) }
{
    match other {
        Some(block) => first_in_scope(says, alloc, levels, scope, block.as_slice()),
        None => Ok(None),
    }
}

/// Puts the name of a `let` into scope.
fn enter(alloc: Global, scope: &mut NameSet, stmt: &StmtPart) -> Result<(), AllocError>
    ensures { OnOk result (scope.new ≡ after scope.old (out-StmtPart stmt.now)) }
{
    if let StmtPart::Let { name, .. } = stmt {
        scope.add(alloc, name.name.bytes())?;
    }
    Ok(())
}
