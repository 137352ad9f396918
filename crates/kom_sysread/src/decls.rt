ghost use Rattle.std.specs.Prelude.{◌≡◌};
ghost use Rattle.kom_parse.specs.Input.{Reads};
ghost use Rattle.kom_sysread.specs.Reading as spec;

use crate::growth::{add_item, add_line, no_items, no_lines};
use kom_base::Dir;
use kom_exprs::read_name;
use kom_grammar::DeclPart;
use kom_items::{read_child, read_item};
use kom_parse::{Reader, Stop};
use kom_stmts::{read_direction, read_names};
use kom_system::{ComponentPart, EventPart, PortTypePart, RootPart, Spot};
use kom_text::TokenKind;

/// The parent of an event type, which may be left out.
#[tactic(auto, unfolding(crate::specs::Reading::parent))]
fn parent(reader: &mut Reader<'_>) -> Result<Option<Spot>, Stop>
    ensures { Reads (spec.parent reader.old) result reader.new }
{
    if reader.eat(TokenKind::Sign, b":") {
        return Ok(Some(read_name(reader)?));
    }
    Ok(None)
}

#[tactic(auto, unfolding(crate::specs::Reading::event))]
fn event(reader: &mut Reader<'_>) -> Result<DeclPart, Stop>
    ensures { Reads (spec.event reader.old) result reader.new }
{
    reader.word(b"event")?;
    let name = read_name(reader)?;
    let parent = parent(reader)?;
    let attrs = read_names(reader)?;
    reader.sign(b";")?;
    Ok(DeclPart::Event(EventPart {
        name,
        parent,
        attrs,
    }))
}

/// One line of a port type: a direction and an event type.
#[tactic(auto, unfolding(crate::specs::Reading::line))]
fn line(reader: &mut Reader<'_>) -> Result<(Dir, Spot), Stop>
    ensures { Reads (spec.line reader.old) result reader.new }
{
    let direction = read_direction(reader)?;
    let kind = read_name(reader)?;
    reader.sign(b";")?;
    Ok((direction, kind))
}

/// The lines of a port type, up to the closing brace.
#[tactic(auto, using(crate::proofs::RowSteps::lines_go, crate::proofs::RowSteps::lines_shorter, crate::proofs::RowSteps::lines_refuse, crate::proofs::RowSteps::lines_end))]
fn lines(reader: &mut Reader<'_>, name: Spot) -> Result<PortTypePart, Stop>
    ensures { Reads (spec.lines (spec.no_lines name) reader.old) result reader.new }
{
    let mut port = no_lines(reader.alloc, name);
    while !reader.sees(TokenKind::Sign, b"}") {
        let (direction, kind) = line(reader)?;
        add_line(&mut port, direction, kind)?;
    }
    Ok(port)
}

#[tactic(auto, unfolding(crate::specs::Reading::port_type))]
fn port_type(reader: &mut Reader<'_>) -> Result<DeclPart, Stop>
    ensures { Reads (spec.port_type reader.old) result reader.new }
{
    reader.word(b"port")?;
    let name = read_name(reader)?;
    reader.sign(b"{")?;
    let port = lines(reader, name)?;
    reader.sign(b"}")?;
    Ok(DeclPart::Port(port))
}

/// The declarations of a component type, up to the closing brace.
#[tactic(auto, using(crate::proofs::RowSteps::items_go, crate::proofs::RowSteps::items_shorter, crate::proofs::RowSteps::items_refuse, crate::proofs::RowSteps::items_end))]
fn items(reader: &mut Reader<'_>, name: Spot, two: bool) -> Result<ComponentPart, Stop>
    ensures { Reads (spec.items two (spec.no_items name) reader.old) result reader.new }
{
    let mut component = no_items(reader.alloc, name);
    while !reader.sees(TokenKind::Sign, b"}") {
        let item = read_item(reader, two)?;
        add_item(&mut component, item)?;
    }
    Ok(component)
}

#[tactic(auto, unfolding(crate::specs::Reading::component))]
fn component(reader: &mut Reader<'_>, two: bool) -> Result<DeclPart, Stop>
    ensures { Reads (spec.component two reader.old) result reader.new }
{
    reader.word(b"component")?;
    let name = read_name(reader)?;
    reader.sign(b"{")?;
    let component = items(reader, name, two)?;
    reader.sign(b"}")?;
    Ok(DeclPart::Component(component))
}

#[tactic(auto, unfolding(crate::specs::Reading::root))]
fn root(reader: &mut Reader<'_>) -> Result<DeclPart, Stop>
    ensures { Reads (spec.root reader.old) result reader.new }
{
    let at = reader.word(b"root")?;
    let child = read_child(reader)?;
    reader.sign(b";")?;
    Ok(DeclPart::Root(RootPart { at, child }))
}

/// A declaration of a file.
#[tactic(auto, unfolding(crate::specs::Reading::decl))]
pub fn decl(reader: &mut Reader<'_>, two: bool) -> Result<DeclPart, Stop>
    ensures { Reads (spec.decl two reader.old) result reader.new }
{
    if reader.sees(TokenKind::Word, b"event") {
        event(reader)
    } else if reader.sees(TokenKind::Word, b"port") {
        port_type(reader)
    } else if reader.sees(TokenKind::Word, b"component") {
        component(reader, two)
    } else {
        root(reader)
    }
}
