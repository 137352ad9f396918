ghost use Rattle.std.specs.Prelude.{◌≡◌, ◌++◌, OnOk};
ghost use Rattle.kom_lang.specs.declared.stmt.Stmt.{out-Stmt};
ghost use Rattle.kom_sysprint.specs.Canonical.{after, wire_end, target_text, unsubscribe_text, unplug_text, plug_text, fail_text, command_text, let_text, trigger_text, answer_text, created_text, create_text, from_state_text, plain_text, else_text, statement_text, statements_text, block_of};

use crate::exprs::{Setting, add_event, add_expr, add_exprs, add_set};
use crate::names::{handler_name, name_at, var_name};
use crate::words::{add_command, add_inside_of, add_number, add_word};
use kom_base::{Copied, Dir};
use kom_lang::{Block, Expr, Exprs, Kind, Name, Stmt, Target};
use kom_lines::{Text, channel_name, direction_word, port_name, slot_name};
use std::alloc::{AllocError, Global};

fn add_wire_end(text: &mut Text, kind: &Kind, wire: u8, end: Dir) -> Result<(), AllocError>
    ensures { OnOk result (text.new ≡ text.old ++ wire_end kind.now wire end) }
{
    add_inside_of(text, channel_name(kind, wire), direction_word(end))
}

fn add_target(text: &mut Text, kind: &Kind, target: &Target) -> Result<(), AllocError>
    ensures { OnOk result (text.new ≡ text.old ++ target_text kind.now target.now) }
{
    match target {
        Target::Own(port) => add_inside_of(text, b"self", port_name(kind, *port)),
        Target::Child { slot, port } => add_inside_of(text, slot_name(kind, *slot), port.bytes()),
    }
}

fn add_unplug(text: &mut Text, kind: &Kind, wire: u8, end: Dir) -> Result<(), AllocError>
    ensures { OnOk result (text.new ≡ text.old ++ unplug_text kind.now wire end) }
{
    text.add(b"unplug ")?;
    add_wire_end(text, kind, wire, end)?;
    text.add(b";\n")
}

fn add_plug(
    text: &mut Text,
    kind: &Kind,
    wire: u8,
    end: Dir,
    target: &Target,
) -> Result<(), AllocError>
    ensures { OnOk result (text.new ≡ text.old ++ plug_text kind.now wire end target.now) }
{
    text.add(b"plug ")?;
    add_wire_end(text, kind, wire, end)?;
    text.add(b"at ")?;
    add_target(text, kind, target)?;
    text.add(b";\n")
}

fn add_unsubscribe(text: &mut Text, handler: &[u8]) -> Result<(), AllocError>
    ensures { OnOk result (text.new ≡ text.old ++ unsubscribe_text handler.now) }
{
    add_command(text, b"unsubscribe", handler)
}

/// Adds a statement that names what it acts on; of other statements nothing.
fn add_named(text: &mut Text, kind: &Kind, stmt: &Stmt) -> Result<(), AllocError>
    ensures { OnOk result (text.new ≡ text.old ++ command_text kind.now (out-Stmt stmt.now)) }
{
    match stmt {
        Stmt::Start(slot) => add_command(text, b"start", slot_name(kind, *slot)),
        Stmt::Stop(slot) => add_command(text, b"stop", slot_name(kind, *slot)),
        Stmt::Destroy(slot) => add_command(text, b"destroy", slot_name(kind, *slot)),
        Stmt::Dump(slot) => add_command(text, b"dump", slot_name(kind, *slot)),
        Stmt::Hold(wire) => add_command(text, b"hold", channel_name(kind, *wire)),
        Stmt::Resume(wire) => add_command(text, b"resume", channel_name(kind, *wire)),
        Stmt::Subscribe(h) => add_command(text, b"subscribe", handler_name(kind, *h)),
        Stmt::Unsubscribe(h) => add_unsubscribe(text, handler_name(kind, *h)),
        Stmt::Unplug { wire, end } => add_unplug(text, kind, *wire, *end),
        Stmt::Plug { wire, end, target } => add_plug(text, kind, *wire, *end, target),
        _ => Ok(()),
    }
}

fn add_trigger(
    text: &mut Text,
    setting: &Setting<'_>,
    scope: &[Name],
    kind: u16,
    values: &Exprs,
    port: u8,
) -> Result<(), AllocError>
    ensures { OnOk result (text.new ≡ text.old ++ trigger_text setting.now.names.now setting.now.kind.now setting.now.on.now scope.now kind values.now port) }
{
    text.add(b"trigger ")?;
    add_event(text, setting, scope, kind, values)?;
    text.add(b"at ")?;
    add_word(text, port_name(setting.kind, port))?;
    text.add(b";\n")
}

fn add_answer(
    text: &mut Text,
    setting: &Setting<'_>,
    scope: &[Name],
    kind: u16,
    values: &Exprs,
) -> Result<(), AllocError>
    ensures { OnOk result (text.new ≡ text.old ++ answer_text setting.now.names.now setting.now.kind.now setting.now.on.now scope.now kind values.now) }
{
    text.add(b"answer ")?;
    add_event(text, setting, scope, kind, values)?;
    text.add(b";\n")
}

fn add_created(
    text: &mut Text,
    setting: &Setting<'_>,
    slot: u8,
    kind: u16,
) -> Result<(), AllocError>
    ensures { OnOk result (text.new ≡ text.old ++ created_text setting.now.names.now setting.now.kind.now setting.now.on.now slot kind) }
{
    text.add(b"create ")?;
    add_word(text, slot_name(setting.kind, slot))?;
    text.add(b": ")?;
    add_word(text, setting.names.kind(kind).name.bytes())
}

fn add_create(
    text: &mut Text,
    setting: &Setting<'_>,
    scope: &[Name],
    slot: u8,
    kind: u16,
    args: &Exprs,
) -> Result<(), AllocError>
    ensures { OnOk result (text.new ≡ text.old ++ create_text setting.now.names.now setting.now.kind.now setting.now.on.now scope.now slot kind args.now) }
{
    add_created(text, setting, slot, kind)?;
    add_exprs(text, setting, scope, args)?;
    text.add(b";\n")
}

fn add_from_state(
    text: &mut Text,
    setting: &Setting<'_>,
    slot: u8,
    kind: u16,
) -> Result<(), AllocError>
    ensures { OnOk result (text.new ≡ text.old ++ from_state_text setting.now.names.now setting.now.kind.now setting.now.on.now slot kind) }
{
    add_created(text, setting, slot, kind)?;
    text.add(b"from state ")?;
    text.add(b";\n")
}

fn add_fail(text: &mut Text, number: u16) -> Result<(), AllocError>
    ensures { OnOk result (text.new ≡ text.old ++ fail_text number) }
{
    text.add(b"fail ")?;
    add_number(text, u64::from(number))?;
    text.add(b";\n")
}

fn add_let(
    text: &mut Text,
    setting: &Setting<'_>,
    scope: &[Name],
    name: &Name,
    value: &Expr,
) -> Result<(), AllocError>
    ensures { OnOk result (text.new ≡ text.old ++ let_text setting.now.names.now setting.now.kind.now setting.now.on.now scope.now name.now value.now) }
{
    text.add(b"let ")?;
    add_set(text, setting, scope, name.bytes(), value)
}

/// Adds a statement without blocks; of one with blocks nothing.
fn add_plain(
    text: &mut Text,
    setting: &Setting<'_>,
    scope: &[Name],
    stmt: &Stmt,
) -> Result<(), AllocError>
    ensures { OnOk result (text.new ≡ text.old ++ plain_text setting.now.names.now setting.now.kind.now setting.now.on.now scope.now (out-Stmt stmt.now)) }
{
    match stmt {
        Stmt::Let { name, value } => add_let(text, setting, scope, name, value),
        Stmt::SetVar { index, value } => {
            add_set(text, setting, scope, var_name(setting.kind, *index), value)
        }
        Stmt::SetLocal { index, value } => {
            add_set(text, setting, scope, name_at(scope, *index as usize), value)
        }
        Stmt::Trigger { kind, values, port } => {
            add_trigger(text, setting, scope, *kind, values, *port)
        }
        Stmt::Answer { kind, values } => add_answer(text, setting, scope, *kind, values),
        Stmt::Create { slot, kind, args } => {
            add_create(text, setting, scope, *slot, *kind, args)
        }
        Stmt::CreateFromState { slot, kind } => add_from_state(text, setting, *slot, *kind),
        Stmt::Fail(number) => add_fail(text, *number),
        Stmt::Escalate => text.add(b"escalate ;\n"),
        _ => add_named(text, setting.kind, stmt),
    }
}

/// Adds the statements of a block and of the blocks inside it, as deep as so many levels, where
/// these names are in scope at its begin. Afterwards they are in scope again.
#[cycle(blocks)]
pub fn add_statements(
    text: &mut Text,
    setting: &Setting<'_>,
    levels: u8,
    scope: &mut Vec<Name>,
    block: &[Stmt],
) -> Result<(), AllocError>
    ensures text { OnOk result (text.new ≡ text.old ++ statements_text setting.now.names.now setting.now.kind.now setting.now.on.now levels scope.old.items block.now) }
    ensures same_scope { OnOk result (scope.new.items ≡ scope.old.items) }
{
    if levels == 0 {
        return Ok(());
    }
    let count = scope.as_slice().len();
    for stmt in block {
        add_statement(text, setting, levels - 1, scope, stmt)?;
        enter(setting.alloc, scope, stmt)?;
    }
    scope.truncate(count);
    Ok(())
}

/// Adds a statement, and those of its blocks as deep as so many levels.
#[cycle(blocks)]
fn add_statement(
    text: &mut Text,
    setting: &Setting<'_>,
    levels: u8,
    scope: &mut Vec<Name>,
    stmt: &Stmt,
) -> Result<(), AllocError>
    ensures text { OnOk result (text.new ≡ text.old ++ statement_text setting.now.names.now setting.now.kind.now setting.now.on.now (statements_text setting.now.names.now setting.now.kind.now setting.now.on.now levels) scope.old.items (out-Stmt stmt.now)) }
    ensures same_scope { OnOk result (scope.new.items ≡ scope.old.items) }
{
    match stmt {
        Stmt::If { test, block, other } => {
            text.add(b"if ")?;
            add_expr(text, setting, scope.as_slice(), test)?;
            add_block(text, setting, levels, scope, block.as_slice())?;
            add_else(text, setting, levels, scope, other)
        }
        Stmt::While { test, block } => {
            text.add(b"while ")?;
            add_expr(text, setting, scope.as_slice(), test)?;
            add_block(text, setting, levels, scope, block.as_slice())
        }
        _ => add_plain(text, setting, scope.as_slice(), stmt),
    }
}

/// Adds a block with its braces.
#[cycle(blocks)]
fn add_block(
    text: &mut Text,
    setting: &Setting<'_>,
    levels: u8,
    scope: &mut Vec<Name>,
    block: &[Stmt],
) -> Result<(), AllocError>
    ensures text { OnOk result (text.new ≡ text.old ++ block_of (statements_text setting.now.names.now setting.now.kind.now setting.now.on.now levels scope.old.items block.now)) }
    ensures same_scope { OnOk result (scope.new.items ≡ scope.old.items) }
{
    text.add(b"{\n")?;
    add_statements(text, setting, levels, scope, block)?;
    text.add(b"}\n")
}

/// Adds the block behind `else`, where there is one.
#[cycle(blocks)]
fn add_else(
    text: &mut Text,
    setting: &Setting<'_>,
    levels: u8,
    scope: &mut Vec<Name>,
    other: &Option<Block>,
) -> Result<(), AllocError>
    ensures text { OnOk result (text.new ≡ text.old ++ else_text setting.now.names.now setting.now.kind.now setting.now.on.now (statements_text setting.now.names.now setting.now.kind.now setting.now.on.now levels scope.old.items) other.now) }
    ensures same_scope { OnOk result (scope.new.items ≡ scope.old.items) }
{
    match other {
        Some(block) => {
            text.add(b"else ")?;
            add_block(text, setting, levels, scope, block.as_slice())
        }
        None => Ok(()),
    }
}

/// Puts the name of a `let` into scope.
fn enter(alloc: Global, scope: &mut Vec<Name>, stmt: &Stmt) -> Result<(), AllocError>
    ensures { OnOk result (scope.new.items ≡ after scope.old.items (out-Stmt stmt.now)) }
{
    if let Stmt::Let { name, .. } = stmt {
        scope.push(name.copy(alloc)?)?;
    }
    Ok(())
}
