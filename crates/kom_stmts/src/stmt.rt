ghost use Rattle.std.specs.Prelude.{◌≡◌, ◌-◌};
ghost use Rattle.kom_parse.specs.Input.{Reads};
ghost use Rattle.kom_parse.specs.Answers.{IsAnswer};
ghost use Rattle.kom_grammar.specs.Statements.{SpellsBlock, max_blocks};
ghost use Rattle.kom_stmts.specs.Reading as spec;

use crate::keywords::{Command, Keyword, is, read_direction, take_keyword};
use crate::lists::read_exprs;
use crate::places::read_target;
use kom_exprs::{read_expr, read_name};
use kom_parse::{Reader, Stop};
use kom_system::{ExprPart, Spot, StmtPart, StmtParts};
use kom_text::TokenKind;
use sqlite_items::Items;

const MAX_BLOCKS: u8 = 16;

fn with_name(command: Command, name: Spot) -> StmtPart
    ensures { result ≡ spec.with_name command name }
{
    match command {
        Command::Start => StmtPart::Start(name),
        Command::Stop => StmtPart::Stop(name),
        Command::Destroy => StmtPart::Destroy(name),
        Command::Dump => StmtPart::Dump(name),
        Command::Hold => StmtPart::Hold(name),
        Command::Resume => StmtPart::Resume(name),
        Command::Subscribe => StmtPart::Subscribe(name),
        Command::Unsubscribe => StmtPart::Unsubscribe(name),
    }
}

/// The value that a name is given, from the `=` to the semicolon.
#[tactic(auto, unfolding(crate::specs::Reading::value))]
fn value(reader: &mut Reader<'_>) -> Result<ExprPart, Stop>
    ensures { Reads (spec.value reader.old) result reader.new }
{
    reader.sign(b"=")?;
    let value = read_expr(reader)?;
    reader.sign(b";")?;
    Ok(value)
}

#[tactic(auto, unfolding(crate::specs::Reading::let_stmt))]
fn let_stmt(reader: &mut Reader<'_>) -> Result<StmtPart, Stop>
    ensures { Reads (spec.let_stmt reader.old) result reader.new }
{
    let name = read_name(reader)?;
    let value = value(reader)?;
    Ok(StmtPart::Let { name, value })
}

#[tactic(auto, unfolding(crate::specs::Reading::trigger))]
fn trigger(reader: &mut Reader<'_>) -> Result<StmtPart, Stop>
    ensures { Reads (spec.trigger reader.old) result reader.new }
{
    let kind = read_name(reader)?;
    let values = read_exprs(reader)?;
    reader.word(b"at")?;
    let port = read_name(reader)?;
    reader.sign(b";")?;
    Ok(StmtPart::Trigger { kind, values, port })
}

#[tactic(auto, unfolding(crate::specs::Reading::answer))]
fn answer(reader: &mut Reader<'_>, at: u32) -> Result<StmtPart, Stop>
    ensures { Reads (spec.answer at reader.old) result reader.new }
{
    let kind = read_name(reader)?;
    let values = read_exprs(reader)?;
    reader.sign(b";")?;
    Ok(StmtPart::Answer { at, kind, values })
}

#[tactic(auto, unfolding(crate::specs::Reading::from_state))]
fn from_state(reader: &mut Reader<'_>, slot: Spot, kind: Spot) -> Result<StmtPart, Stop>
    ensures { Reads (spec.from_state slot kind reader.old) result reader.new }
{
    let at = reader.word(b"state")?;
    reader.sign(b";")?;
    Ok(StmtPart::CreateFromState { slot, kind, at })
}

#[tactic(auto, unfolding(crate::specs::Reading::with_args))]
fn with_args(reader: &mut Reader<'_>, slot: Spot, kind: Spot) -> Result<StmtPart, Stop>
    ensures { Reads (spec.with_args slot kind reader.old) result reader.new }
{
    let args = read_exprs(reader)?;
    reader.sign(b";")?;
    Ok(StmtPart::Create { slot, kind, args })
}

#[tactic(auto, unfolding(crate::specs::Reading::create))]
fn create(reader: &mut Reader<'_>) -> Result<StmtPart, Stop>
    ensures { Reads (spec.create reader.old) result reader.new }
{
    let slot = read_name(reader)?;
    reader.sign(b":")?;
    let kind = read_name(reader)?;
    if reader.eat(TokenKind::Word, b"from") {
        from_state(reader, slot, kind)
    } else {
        with_args(reader, slot, kind)
    }
}

#[tactic(auto, unfolding(crate::specs::Reading::unplug))]
fn unplug(reader: &mut Reader<'_>) -> Result<StmtPart, Stop>
    ensures { Reads (spec.unplug reader.old) result reader.new }
{
    let wire = read_name(reader)?;
    reader.sign(b".")?;
    let end = read_direction(reader)?;
    reader.sign(b";")?;
    Ok(StmtPart::Unplug { wire, end })
}

#[tactic(auto, unfolding(crate::specs::Reading::plug))]
fn plug(reader: &mut Reader<'_>) -> Result<StmtPart, Stop>
    ensures { Reads (spec.plug reader.old) result reader.new }
{
    let wire = read_name(reader)?;
    reader.sign(b".")?;
    let end = read_direction(reader)?;
    reader.word(b"at")?;
    let target = read_target(reader)?;
    reader.sign(b";")?;
    Ok(StmtPart::Plug { wire, end, target })
}

#[tactic(auto, unfolding(crate::specs::Reading::fail))]
fn fail(reader: &mut Reader<'_>) -> Result<StmtPart, Stop>
    ensures { Reads (spec.fail reader.old) result reader.new }
{
    let number = reader.number()?;
    reader.sign(b";")?;
    Ok(StmtPart::Fail {
        number: number.value,
        at: number.at,
    })
}

#[tactic(auto, unfolding(crate::specs::Reading::command_stmt))]
fn command_stmt(reader: &mut Reader<'_>, command: Command) -> Result<StmtPart, Stop>
    ensures { Reads (spec.command_stmt command reader.old) result reader.new }
{
    let name = read_name(reader)?;
    reader.sign(b";")?;
    Ok(with_name(command, name))
}

#[tactic(auto, unfolding(crate::specs::Reading::set))]
fn set(reader: &mut Reader<'_>, name: Spot) -> Result<StmtPart, Stop>
    ensures { Reads (spec.set name reader.old) result reader.new }
{
    let value = value(reader)?;
    Ok(StmtPart::Set { name, value })
}

#[tactic(auto, unfolding(crate::specs::Reading::escalate))]
fn escalate(reader: &mut Reader<'_>, at: u32) -> Result<StmtPart, Stop>
    ensures { Reads (spec.escalate at reader.old) result reader.new }
{
    reader.sign(b";")?;
    Ok(StmtPart::Escalate { at })
}

/// A statement that begins with a name, as an answer and an escalate do too.
#[tactic(auto, unfolding(crate::specs::Reading::named))]
fn named(reader: &mut Reader<'_>, two: bool) -> Result<StmtPart, Stop>
    ensures { Reads (spec.named two reader.old) result reader.new }
{
    let name = read_name(reader)?;
    if is(name.name.bytes(), b"answer") && !reader.sees(TokenKind::Sign, b"=") {
        return answer(reader, name.at);
    }
    if two && is(name.name.bytes(), b"escalate") && reader.sees(TokenKind::Sign, b";") {
        return escalate(reader, name.at);
    }
    set(reader, name)
}

/// A statement with so many levels of blocks below it.
#[cycle(stmt)]
fn statement(reader: &mut Reader<'_>, two: bool, levels: u8) -> Result<StmtPart, Stop>
    ensures { Reads (spec.stmt two levels reader.old) result reader.new }
{
    let Some(keyword) = take_keyword(reader, levels) else {
        return named(reader, two);
    };
    match keyword {
        Keyword::If => if_stmt(reader, two, levels),
        Keyword::While => while_stmt(reader, two, levels),
        Keyword::Let => let_stmt(reader),
        Keyword::Trigger => trigger(reader),
        Keyword::Create => create(reader),
        Keyword::Unplug => unplug(reader),
        Keyword::Plug => plug(reader),
        Keyword::Fail => fail(reader),
        Keyword::Command(word) => command_stmt(reader, word),
    }
}

#[cycle(stmt)]
#[tactic(auto, unfolding(crate::specs::Reading::if_stmt))]
fn if_stmt(reader: &mut Reader<'_>, two: bool, levels: u8) -> Result<StmtPart, Stop>
    ensures { Reads (spec.if_stmt (spec.block two levels) reader.old) result reader.new }
{
    let test = read_expr(reader)?;
    let block = block(reader, two, levels)?;
    let other = else_part(reader, two, levels)?;
    Ok(StmtPart::If { test, block, other })
}

#[cycle(stmt)]
#[tactic(auto, unfolding(crate::specs::Reading::else_part))]
fn else_part(reader: &mut Reader<'_>, two: bool, levels: u8) -> Result<Option<StmtParts>, Stop>
    ensures { Reads (spec.else_part (spec.block two levels) reader.old) result reader.new }
{
    if reader.eat(TokenKind::Word, b"else") {
        Ok(Some(block(reader, two, levels)?))
    } else {
        Ok(None)
    }
}

#[cycle(stmt)]
#[tactic(auto, unfolding(crate::specs::Reading::while_stmt))]
fn while_stmt(reader: &mut Reader<'_>, two: bool, levels: u8) -> Result<StmtPart, Stop>
    ensures { Reads (spec.while_stmt (spec.block two levels) reader.old) result reader.new }
{
    let test = read_expr(reader)?;
    let block = block(reader, two, levels)?;
    Ok(StmtPart::While { test, block })
}

/// A block with so many levels, itself included.
#[cycle(stmt)]
#[tactic(auto, unfolding(crate::specs::Reading::block), using(crate::proofs::StmtSteps::block_starts, crate::proofs::StmtSteps::block_not_open, crate::proofs::StmtSteps::rest_goes, crate::proofs::StmtSteps::rest_shorter, crate::proofs::StmtSteps::rest_refuses, crate::proofs::StmtSteps::rest_ends, crate::proofs::StmtSteps::rest_not_closed))]
fn block(reader: &mut Reader<'_>, two: bool, levels: u8) -> Result<StmtParts, Stop>
    ensures { Reads (spec.block two levels reader.old) result reader.new }
{
    if levels == 0 {
        return Err(Stop::Refused);
    }
    reader.sign(b"{")?;
    let mut block = Items::new(reader.alloc);
    while !reader.sees(TokenKind::Sign, b"}") {
        block.push(statement(reader, two, levels - 1)?)?;
    }
    reader.sign(b"}")?;
    Ok(block)
}

/// Reads the block of a handler, with at most 16 levels of blocks, itself included. `two` says
/// that the file is of version 2, which alone has `escalate;`. `Refused` comes at the first token
/// at which no such block goes on so, which is left as the next one.
#[tactic(auto, using(crate::proofs::Exact::block_exact))]
pub fn read_block(reader: &mut Reader<'_>, two: bool) -> Result<StmtParts, Stop>
    ensures reads { Reads (spec.block two max_blocks reader.old) result reader.new }
    ensures exact { IsAnswer (SpellsBlock two max_blocks) reader.old result reader.new }
{
    block(reader, two, MAX_BLOCKS)
}
