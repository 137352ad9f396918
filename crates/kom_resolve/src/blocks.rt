ghost use Rattle.std.specs.Prelude.{◌≡◌, IfOk, OnOk};
ghost use Rattle.std.specs.Option.{option_map};
ghost use Rattle.kom_resolve.specs.Resolved.{stmt_value, block_value};
ghost use Rattle.kom_rules.specs.Walks.{after};
ghost use Rattle.kom_system.specs.declared.parts.StmtPart.{out-StmtPart};

use crate::flat::flat;
use crate::handling::Handling;
use kom_lang::{Block, Stmt};
use kom_names::NameSet;
use kom_system::{StmtPart, StmtParts};
use sqlite_items::Items;
use std::alloc::{AllocError, Global};

/// Puts the name of a `let` into scope.
fn enter(alloc: Global, scope: &mut NameSet, stmt: &StmtPart) -> Result<(), AllocError>
    ensures { OnOk result (scope.new ≡ after scope.old (out-StmtPart stmt.now)) }
{
    if let StmtPart::Let { name, .. } = stmt {
        scope.add(alloc, name.name.bytes())?;
    }
    Ok(())
}

/// A block of at most so many levels. Afterwards the same names are in scope.
#[cycle(blocks)]
pub fn block(
    handling: &Handling<'_>,
    alloc: Global,
    levels: u8,
    scope: &mut NameSet,
    parts: &[StmtPart],
) -> Result<Block, AllocError>
    ensures value { IfOk result (λ b. b ≡ block_value handling.now.parts.now handling.now.part.now handling.now.on.now levels scope.old parts.now) }
    ensures same_scope { OnOk result (scope.new ≡ scope.old) }
{
    let mut values = Items::new(alloc);
    if levels == 0 {
        return Ok(values);
    }
    let count = scope.len();
    for part in parts {
        values.push(statement(handling, alloc, levels - 1, scope, part)?)?;
        enter(alloc, scope, part)?;
    }
    scope.truncate(count);
    Ok(values)
}

/// The block behind `else`.
#[cycle(blocks)]
fn other_block(
    handling: &Handling<'_>,
    alloc: Global,
    levels: u8,
    scope: &mut NameSet,
    other: &Option<StmtParts>,
) -> Result<Option<Block>, AllocError>
    ensures value { IfOk result (λ b. b ≡ option_map (block_value handling.now.parts.now handling.now.part.now handling.now.on.now levels scope.old) other.now) }
    ensures same_scope { OnOk result (scope.new ≡ scope.old) }
{
    match other {
        Some(parts) => Ok(Some(block(handling, alloc, levels, scope, parts.as_slice())?)),
        None => Ok(None),
    }
}

/// A statement whose blocks have at most so many levels.
#[cycle(blocks)]
fn statement(
    handling: &Handling<'_>,
    alloc: Global,
    levels: u8,
    scope: &mut NameSet,
    part: &StmtPart,
) -> Result<Stmt, AllocError>
    ensures value { IfOk result (λ s. s ≡ stmt_value handling.now.parts.now handling.now.part.now handling.now.on.now (block_value handling.now.parts.now handling.now.part.now handling.now.on.now levels) scope.old (out-StmtPart part.now)) }
    ensures same_scope { OnOk result (scope.new ≡ scope.old) }
{
    match part {
        StmtPart::If {
            test,
            block: then,
            other,
        } => Ok(Stmt::If {
            test: handling.expr(alloc, scope, test)?,
            block: block(handling, alloc, levels, scope, then.as_slice())?,
            other: other_block(handling, alloc, levels, scope, other)?,
        }),
        StmtPart::While { test, block: inner } => Ok(Stmt::While {
            test: handling.expr(alloc, scope, test)?,
            block: block(handling, alloc, levels, scope, inner.as_slice())?,
        }),
        _ => flat(handling, alloc, scope, part),
    }
}
