ghost use Rattle.std.specs.Prelude.{◌≡◌, List, true, IfOk};
ghost use Rattle.kom_lang.specs.declared.stmt.Stmt.{Stmt as Statement};
ghost use Rattle.kom_resolve.specs.Flat.{is_flat};
ghost use Rattle.kom_resolve.specs.Resolved.{stmt_value, fault_number};
ghost use Rattle.kom_rules.specs.Names.{Name};
ghost use Rattle.kom_system.specs.declared.parts.StmtPart.{out-StmtPart, StmtPart as Written};

use crate::handling::Handling;
use kom_base::Copied;
use kom_lang::Stmt;
use kom_names::NameSet;
use kom_system::StmtPart;
use std::alloc::{AllocError, Global};

/// The number of a fault, at most 899.
fn fault_of(number: i64) -> u16
    ensures { result ≡ fault_number number }
{
    number.clamp(0, 899) as u16
}

/// A statement without blocks, with these names in scope.
pub fn flat(
    handling: &Handling<'_>,
    alloc: Global,
    scope: &NameSet,
    part: &StmtPart,
) -> Result<Stmt, AllocError>
    requires { is_flat (out-StmtPart part.now) ≡ true }
    ensures { IfOk result (λ s. (below : List Name → List Written → List Statement) → s ≡ stmt_value handling.now.parts.now handling.now.part.now handling.now.on.now below scope.now (out-StmtPart part.now)) }
{
    let site = handling.site();
    match part {
        StmtPart::Let { name, value } => Ok(Stmt::Let {
            name: name.name.copy(alloc)?,
            value: handling.expr(alloc, scope, value)?,
        }),
        StmtPart::Set { name, value } => {
            let value = handling.expr(alloc, scope, value)?;
            handling.set(scope, name, value)
        }
        StmtPart::Trigger { kind, values, port } => Ok(Stmt::Trigger {
            kind: site.file().event(kind),
            values: handling.exprs(alloc, scope, values.as_slice())?,
            port: site.port(port),
        }),
        StmtPart::Answer {
            at: _,
            kind,
            values,
        } => Ok(Stmt::Answer {
            kind: site.file().event(kind),
            values: handling.exprs(alloc, scope, values.as_slice())?,
        }),
        StmtPart::Create { slot, kind, args } => Ok(Stmt::Create {
            slot: site.slot(slot),
            kind: site.file().component(kind),
            args: handling.exprs(alloc, scope, args.as_slice())?,
        }),
        StmtPart::CreateFromState { slot, kind, at: _ } => Ok(Stmt::CreateFromState {
            slot: site.slot(slot),
            kind: site.file().component(kind),
        }),
        StmtPart::Plug { wire, end, target } => Ok(Stmt::Plug {
            wire: site.channel(wire),
            end: *end,
            target: site.target(alloc, target)?,
        }),
        StmtPart::Start(slot) => Ok(Stmt::Start(site.slot(slot))),
        StmtPart::Stop(slot) => Ok(Stmt::Stop(site.slot(slot))),
        StmtPart::Destroy(slot) => Ok(Stmt::Destroy(site.slot(slot))),
        StmtPart::Dump(slot) => Ok(Stmt::Dump(site.slot(slot))),
        StmtPart::Hold(wire) => Ok(Stmt::Hold(site.channel(wire))),
        StmtPart::Resume(wire) => Ok(Stmt::Resume(site.channel(wire))),
        StmtPart::Unplug { wire, end } => Ok(Stmt::Unplug {
            wire: site.channel(wire),
            end: *end,
        }),
        StmtPart::Subscribe(handler) => Ok(Stmt::Subscribe(site.handler(handler))),
        StmtPart::Unsubscribe(handler) => Ok(Stmt::Unsubscribe(site.handler(handler))),
        StmtPart::Fail { number, at: _ } => Ok(Stmt::Fail(fault_of(*number))),
        StmtPart::Escalate { at: _ } => Ok(Stmt::Escalate),
        StmtPart::If { .. } | StmtPart::While { .. } => unreachable!(),
    }
}
