ghost use Rattle.std.specs.Prelude.{◌≡◌, ◌++◌, OnOk, IfOk};
ghost use Rattle.kom_sysprint.specs.Canonical.{event_at_text, init_text, fault_text, dumped_text, on_text, off_text, handler_block, handler_text, parameters};

use crate::exprs::Setting;
use crate::lists::{Words, add_arguments};
use crate::stmts::add_statements;
use crate::words::add_word;
use kom_base::Copied;
use kom_lang::{Handler, Kind, Name, Names as NameList, On};
use kom_lines::{Names, Text, port_name};
use std::alloc::{AllocError, Global};

/// Blocks are nested no deeper in a file.
const MAX_LEVELS: u8 = 16;

fn add_handled_event(
    text: &mut Text,
    names: &Names<'_>,
    kind: &Kind,
    event: u16,
    port: u8,
) -> Result<(), AllocError>
    ensures { OnOk result (text.new ≡ text.old ++ event_at_text names.now kind.now event port) }
{
    add_word(text, names.event(event))?;
    text.add(b"at ")?;
    add_word(text, port_name(kind, port))
}

fn add_handled_init(text: &mut Text, parameters: &NameList) -> Result<(), AllocError>
    ensures { OnOk result (text.new ≡ text.old ++ init_text parameters.now) }
{
    text.add(b"init ")?;
    add_arguments(text, &Words, parameters.as_slice())
}

fn add_handled_fault(text: &mut Text, slot: &Name, number: &Name) -> Result<(), AllocError>
    ensures { OnOk result (text.new ≡ text.old ++ fault_text slot.now number.now) }
{
    text.add(b"fault ( ")?;
    add_word(text, slot.bytes())?;
    text.add(b", ")?;
    add_word(text, number.bytes())?;
    text.add(b") ")
}

fn add_handled_dumped(text: &mut Text, slot: &Name) -> Result<(), AllocError>
    ensures { OnOk result (text.new ≡ text.old ++ dumped_text slot.now) }
{
    text.add(b"dumped ( ")?;
    add_word(text, slot.bytes())?;
    text.add(b") ")
}

/// Adds what a handler handles.
fn add_on(text: &mut Text, names: &Names<'_>, kind: &Kind, on: &On) -> Result<(), AllocError>
    ensures { OnOk result (text.new ≡ text.old ++ on_text names.now kind.now on.now) }
{
    match on {
        On::Event { kind: event, port } => add_handled_event(text, names, kind, *event, *port),
        On::Init(parameters) => add_handled_init(text, parameters),
        On::Start => text.add(b"start "),
        On::Stop => text.add(b"stop "),
        On::Fault { slot, number } => add_handled_fault(text, slot, number),
        On::Dumped { slot } => add_handled_dumped(text, slot),
    }
}

/// The names in scope at the begin of a handler.
fn scope_of(alloc: Global, on: &On) -> Result<Vec<Name>, AllocError>
    ensures { IfOk result (λ scope. scope.items ≡ parameters on.now) }
{
    let mut scope = Vec::new(alloc);
    match on {
        On::Init(names) => return copies(alloc, names),
        On::Fault { slot, number } => {
            scope.push(slot.copy(alloc)?)?;
            scope.push(number.copy(alloc)?)?;
        }
        On::Dumped { slot } => scope.push(slot.copy(alloc)?)?,
        _ => {}
    }
    Ok(scope)
}

fn copies(alloc: Global, names: &NameList) -> Result<Vec<Name>, AllocError>
    ensures { IfOk result (λ scope. scope.items ≡ names.now) }
{
    let mut scope = Vec::new(alloc);
    for name in names.as_slice() {
        scope.push(name.copy(alloc)?)?;
    }
    Ok(scope)
}

fn off_word(off: bool) -> &'static [u8]
    ensures { result.now ≡ off_text off }
{
    if off { b"off " } else { b"" }
}

/// Adds the block of a handler.
fn add_handler_block(
    text: &mut Text,
    alloc: Global,
    names: &Names<'_>,
    kind: &Kind,
    handler: &Handler,
) -> Result<(), AllocError>
    ensures { OnOk result (text.new ≡ text.old ++ handler_block names.now kind.now handler.now) }
{
    let mut scope = scope_of(alloc, &handler.on)?;
    let setting = Setting {
        alloc,
        names,
        kind,
        on: &handler.on,
    };
    text.add(b"{\n")?;
    add_statements(
        text,
        &setting,
        MAX_LEVELS,
        &mut scope,
        handler.block.as_slice(),
    )?;
    text.add(b"}\n")
}

/// Adds a handler of a component type.
pub fn add_handler(
    text: &mut Text,
    alloc: Global,
    names: &Names<'_>,
    kind: &Kind,
    handler: &Handler,
) -> Result<(), AllocError>
    ensures { OnOk result (text.new ≡ text.old ++ handler_text names.now kind.now handler.now) }
{
    text.add(b"on ")?;
    add_on(text, names, kind, &handler.on)?;
    text.add(b"as ")?;
    add_word(text, handler.name.bytes())?;
    text.add(off_word(handler.off))?;
    add_handler_block(text, alloc, names, kind, handler)
}
