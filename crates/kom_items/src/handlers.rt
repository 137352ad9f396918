ghost use Rattle.std.specs.Prelude.{◌≡◌};
ghost use Rattle.kom_parse.specs.Input.{Read, Reads};
ghost use Rattle.kom_items.specs.Reading as spec;

use crate::words::{OnWord, take_on_word};
use kom_exprs::read_name;
use kom_parse::{Reader, Stop};
use kom_stmts::{read_block, read_names};
use kom_system::{HandlerPart, OnPart};
use kom_text::TokenKind;

#[tactic(auto, unfolding(crate::specs::Reading::on_event))]
fn on_event(reader: &mut Reader<'_>) -> Result<OnPart, Stop>
    ensures { Reads (spec.on_event reader.old) result reader.new }
{
    let kind = read_name(reader)?;
    reader.word(b"at")?;
    let port = read_name(reader)?;
    Ok(OnPart::Event { kind, port })
}

#[tactic(auto, unfolding(crate::specs::Reading::on_init))]
fn on_init(reader: &mut Reader<'_>) -> Result<OnPart, Stop>
    ensures { Reads (spec.on_init reader.old) result reader.new }
{
    Ok(OnPart::Init(read_names(reader)?))
}

#[tactic(auto, unfolding(crate::specs::Reading::on_fault))]
fn on_fault(reader: &mut Reader<'_>) -> Result<OnPart, Stop>
    ensures { Reads (spec.on_fault reader.old) result reader.new }
{
    reader.sign(b"(")?;
    let slot = read_name(reader)?;
    reader.sign(b",")?;
    let number = read_name(reader)?;
    reader.sign(b")")?;
    Ok(OnPart::Fault { slot, number })
}

#[tactic(auto, unfolding(crate::specs::Reading::on_dumped))]
fn on_dumped(reader: &mut Reader<'_>) -> Result<OnPart, Stop>
    ensures { Reads (spec.on_dumped reader.old) result reader.new }
{
    reader.sign(b"(")?;
    let slot = read_name(reader)?;
    reader.sign(b")")?;
    Ok(OnPart::Dumped { slot })
}

/// What is handled, behind the word `on`.
#[tactic(auto, unfolding(crate::specs::Reading::handled))]
fn handled(reader: &mut Reader<'_>) -> Result<OnPart, Stop>
    ensures { Reads (spec.handled reader.old) result reader.new }
{
    match take_on_word(reader) {
        None => on_event(reader),
        Some(OnWord::Init) => on_init(reader),
        Some(OnWord::Start) => Ok(OnPart::Start),
        Some(OnWord::Stop) => Ok(OnPart::Stop),
        Some(OnWord::Fault) => on_fault(reader),
        Some(OnWord::Dumped) => on_dumped(reader),
    }
}

/// Whether `off` comes, which an init handler can't have.
fn eat_off(reader: &mut Reader<'_>, on: &OnPart) -> bool
    ensures { spec.off on.now reader.old ≡ Read result reader.new }
{
    match on {
        OnPart::Init(_) => false,
        _ => reader.eat(TokenKind::Word, b"off"),
    }
}

#[tactic(auto, unfolding(crate::specs::Reading::handler))]
pub fn handler(reader: &mut Reader<'_>, two: bool) -> Result<HandlerPart, Stop>
    ensures { Reads (spec.handler two reader.old) result reader.new }
{
    let on = handled(reader)?;
    reader.word(b"as")?;
    let name = read_name(reader)?;
    let off = eat_off(reader, &on);
    let block = read_block(reader, two)?;
    Ok(HandlerPart {
        name,
        on,
        off,
        block,
    })
}
