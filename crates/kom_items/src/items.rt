ghost use Rattle.std.specs.Prelude.{◌≡◌};
ghost use Rattle.kom_parse.specs.Input.{Reads};
ghost use Rattle.kom_parse.specs.Answers.{IsAnswer};
ghost use Rattle.kom_grammar.specs.Files.{SpellsItem};
ghost use Rattle.kom_items.specs.Reading as spec;

use crate::channels::channel;
use crate::children::read_child;
use crate::handlers::handler;
use crate::words::{ItemWord, take_item_word};
use kom_exprs::{read_int, read_name};
use kom_grammar::ItemPart;
use kom_parse::{Reader, Stop};
use kom_system::{ChildPart, PortPart, SlotPart, VarPart};
use kom_text::TokenKind;

#[tactic(auto, unfolding(crate::specs::Reading::port))]
fn port(reader: &mut Reader<'_>, provided: bool) -> Result<ItemPart, Stop>
    ensures { Reads (spec.port provided reader.old) result reader.new }
{
    let name = read_name(reader)?;
    reader.sign(b":")?;
    let port = read_name(reader)?;
    reader.sign(b";")?;
    Ok(ItemPart::Port(PortPart {
        name,
        port,
        provided,
    }))
}

/// The first value of a variable, which is 0 where none is written.
#[tactic(auto, unfolding(crate::specs::Reading::first_value))]
fn first_value(reader: &mut Reader<'_>) -> Result<i64, Stop>
    ensures { Reads (spec.first_value reader.old) result reader.new }
{
    if reader.eat(TokenKind::Sign, b"=") {
        return read_int(reader);
    }
    Ok(0)
}

#[tactic(auto, unfolding(crate::specs::Reading::var))]
fn var(reader: &mut Reader<'_>) -> Result<ItemPart, Stop>
    ensures { Reads (spec.var reader.old) result reader.new }
{
    let name = read_name(reader)?;
    let first = first_value(reader)?;
    reader.sign(b";")?;
    Ok(ItemPart::Var(VarPart { name, first }))
}

/// What stands in a slot from the start, if anything does.
#[tactic(auto, unfolding(crate::specs::Reading::first_child))]
fn first_child(reader: &mut Reader<'_>) -> Result<Option<ChildPart>, Stop>
    ensures { Reads (spec.first_child reader.old) result reader.new }
{
    if reader.eat(TokenKind::Sign, b":") {
        return Ok(Some(read_child(reader)?));
    }
    Ok(None)
}

#[tactic(auto, unfolding(crate::specs::Reading::slot))]
fn slot(reader: &mut Reader<'_>) -> Result<ItemPart, Stop>
    ensures { Reads (spec.slot reader.old) result reader.new }
{
    let name = read_name(reader)?;
    let child = first_child(reader)?;
    reader.sign(b";")?;
    Ok(ItemPart::Slot(SlotPart { name, child }))
}

#[tactic(auto, unfolding(crate::specs::Reading::item))]
fn item(reader: &mut Reader<'_>, two: bool) -> Result<ItemPart, Stop>
    ensures { Reads (spec.item two reader.old) result reader.new }
{
    match take_item_word(reader)? {
        ItemWord::Provides => port(reader, true),
        ItemWord::Requires => port(reader, false),
        ItemWord::Var => var(reader),
        ItemWord::Slot => slot(reader),
        ItemWord::Channel => Ok(ItemPart::Channel(channel(reader, two)?)),
        ItemWord::On => Ok(ItemPart::Handler(handler(reader, two)?)),
    }
}

/// Reads a declaration of a component type. `two` says that the file is of version 2, which alone
/// has `&&` between the tests of a selector, and `escalate`. `Refused` comes at the first token at
/// which no declaration goes on so, which is left as the next one.
#[tactic(auto, using(crate::proofs::Exact::item_exact))]
pub fn read_item(reader: &mut Reader<'_>, two: bool) -> Result<ItemPart, Stop>
    ensures reads { Reads (spec.item two reader.old) result reader.new }
    ensures exact { IsAnswer (SpellsItem two) reader.old result reader.new }
{
    item(reader, two)
}
