ghost use Rattle.std.specs.Prelude.{◌≡◌, ◌++◌, OnOk};
ghost use Rattle.kom_sysprint.specs.Canonical.{side_text, child_text, typed_text, place_text, end_text, selector_text, items_text};

use crate::handlers::add_handler;
use crate::lists::{Prints, add_each, add_separated, add_values};
use crate::names::{attr_names, child_port_name, name_at, port_type_name};
use crate::words::{add_inside_of, add_integer, add_word, relation};
use kom_base::Dir;
use kom_events::{Selector, Test};
use kom_lang::{ChannelDecl, Child, Handler, Kind, Place, PortDecl, SlotDecl, VarDecl};
use kom_lines::{Names, Text, direction_word, port_name, slot_name};
use std::alloc::{AllocError, Global};

/// Writes the declarations of a component type.
#[derive(Drop)]
struct Declarations<'a> {
    alloc: Global,
    names: &'a Names<'a>,
    kind: &'a Kind,
}

fn side_word(provided: bool) -> &'static [u8]
    ensures { result.now ≡ side_text provided }
{
    if provided { b"provides " } else { b"requires " }
}

impl Prints<PortDecl> for Declarations<'_> {
    ghost use Rattle.kom_sysprint.specs.Canonical.{port_text};

    ghost printed = { λ d p. port_text d.names.now p };

    fn print(&self, text: &mut Text, port: &PortDecl) -> Result<(), AllocError> {
        text.add(side_word(port.provided))?;
        add_word(text, port.name.bytes())?;
        text.add(b": ")?;
        add_word(text, port_type_name(self.names, port.port))?;
        text.add(b";\n")
    }
}

impl Prints<VarDecl> for Declarations<'_> {
    ghost use Rattle.kom_sysprint.specs.Canonical.{var_text};

    ghost printed = { λ d v. var_text d.names.now v };

    fn print(&self, text: &mut Text, var: &VarDecl) -> Result<(), AllocError> {
        text.add(b"var ")?;
        add_word(text, var.name.bytes())?;
        text.add(b"= ")?;
        add_integer(text, var.first)?;
        text.add(b";\n")
    }
}

/// Adds a component type with its arguments.
pub fn add_child(text: &mut Text, names: &Names<'_>, child: &Child) -> Result<(), AllocError>
    ensures { OnOk result (text.new ≡ text.old ++ child_text names.now child.now) }
{
    add_word(text, names.kind(child.kind).name.bytes())?;
    add_values(text, &child.args)
}

fn add_typed(text: &mut Text, names: &Names<'_>, child: &Option<Child>) -> Result<(), AllocError>
    ensures { OnOk result (text.new ≡ text.old ++ typed_text names.now child.now) }
{
    match child {
        Some(child) => {
            text.add(b": ")?;
            add_child(text, names, child)
        }
        None => Ok(()),
    }
}

impl Prints<SlotDecl> for Declarations<'_> {
    ghost use Rattle.kom_sysprint.specs.Canonical.{slot_text};

    ghost printed = { λ d s. slot_text d.names.now s };

    fn print(&self, text: &mut Text, slot: &SlotDecl) -> Result<(), AllocError> {
        text.add(b"slot ")?;
        add_word(text, slot.name.bytes())?;
        add_typed(text, self.names, &slot.child)?;
        text.add(b";\n")
    }
}

fn add_place(
    text: &mut Text,
    names: &Names<'_>,
    kind: &Kind,
    place: Place,
) -> Result<(), AllocError>
    ensures { OnOk result (text.new ≡ text.old ++ place_text names.now kind.now place.port place.slot) }
{
    match place.slot {
        Some(slot) => add_inside_of(
            text,
            slot_name(kind, slot),
            child_port_name(names, kind, slot, place.port),
        ),
        None => add_inside_of(text, b"self", port_name(kind, place.port)),
    }
}

fn add_end(
    text: &mut Text,
    names: &Names<'_>,
    kind: &Kind,
    end: Option<Place>,
) -> Result<(), AllocError>
    ensures { OnOk result (text.new ≡ text.old ++ end_text names.now kind.now end) }
{
    match end {
        Some(place) => add_place(text, names, kind, place),
        None => text.add(b"free "),
    }
}

/// Writes the tests of selectors.
#[derive(Drop)]
struct Tests<'a> {
    names: &'a Names<'a>,
}

impl Prints<Test> for Tests<'_> {
    ghost use Rattle.kom_sysprint.specs.Canonical.{test_text};

    ghost printed = { λ t x. test_text t.names.now x };

    fn print(&self, text: &mut Text, test: &Test) -> Result<(), AllocError> {
        let attr = name_at(attr_names(self.names, test.kind), test.attr as usize);
        add_inside_of(text, self.names.event(test.kind), attr)?;
        add_word(text, relation(test.op))?;
        add_integer(text, test.number)
    }
}

fn add_selector(
    text: &mut Text,
    names: &Names<'_>,
    dir: Dir,
    selector: &Selector,
) -> Result<(), AllocError>
    ensures { OnOk result (text.new ≡ text.old ++ selector_text names.now dir selector.now) }
{
    if selector.is_empty() {
        return Ok(());
    }
    add_word(text, direction_word(dir))?;
    text.add(b"when ")?;
    add_separated(text, b"&& ", &Tests { names }, selector.as_slice())
}

impl Prints<ChannelDecl> for Declarations<'_> {
    ghost use Rattle.kom_sysprint.specs.Canonical.{channel_text};

    ghost printed = { λ d c. channel_text d.names.now d.kind.now c };

    fn print(&self, text: &mut Text, channel: &ChannelDecl) -> Result<(), AllocError> {
        text.add(b"channel ")?;
        add_word(text, channel.name.bytes())?;
        text.add(b": ")?;
        add_word(text, port_type_name(self.names, channel.port))?;
        text.add(b"from ")?;
        add_end(text, self.names, self.kind, channel.plus)?;
        text.add(b"to ")?;
        add_end(text, self.names, self.kind, channel.minus)?;
        add_selector(text, self.names, Dir::Plus, &channel.plus_when)?;
        add_selector(text, self.names, Dir::Minus, &channel.minus_when)?;
        text.add(b";\n")
    }
}

impl Prints<Handler> for Declarations<'_> {
    ghost use Rattle.kom_sysprint.specs.Canonical.{handler_text};

    ghost printed = { λ d h. handler_text d.names.now d.kind.now h };

    fn print(&self, text: &mut Text, handler: &Handler) -> Result<(), AllocError> {
        add_handler(text, self.alloc, self.names, self.kind, handler)
    }
}

/// Adds all declarations of a component type.
fn add_items(text: &mut Text, declarations: &Declarations<'_>) -> Result<(), AllocError>
    ensures { OnOk result (text.new ≡ text.old ++ items_text declarations.now.names.now declarations.now.kind.now) }
{
    let kind = declarations.kind;
    add_each(text, declarations, kind.ports.as_slice())?;
    add_each(text, declarations, kind.vars.as_slice())?;
    add_each(text, declarations, kind.slots.as_slice())?;
    add_each(text, declarations, kind.channels.as_slice())?;
    add_each(text, declarations, kind.handlers.as_slice())?;
    Ok(())
}

/// Writes component types.
#[derive(Drop)]
pub struct Kinds<'a> {
    pub alloc: Global,
    pub names: &'a Names<'a>,
}

impl Prints<Kind> for Kinds<'_> {
    ghost use Rattle.kom_sysprint.specs.Canonical.{kind_text};

    ghost printed = { λ k kind. kind_text k.names.now kind };

    fn print(&self, text: &mut Text, kind: &Kind) -> Result<(), AllocError> {
        let declarations = Declarations {
            alloc: self.alloc,
            names: self.names,
            kind,
        };
        text.add(b"component ")?;
        add_word(text, kind.name.bytes())?;
        text.add(b"{\n")?;
        add_items(text, &declarations)?;
        text.add(b"}\n")
    }
}
