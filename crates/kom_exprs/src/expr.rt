ghost use Rattle.std.specs.Prelude.{◌≡◌, ◌≢◌, ◌≤◌, ◌<◌, ◌+◌, ◌-◌, IfOk, if◌then◌else◌};
ghost use Rattle.kom_parse.specs.Input.{Reads, ReadsWithin, ReadsTurn, loop, first};
ghost use Rattle.kom_exprs.specs.Reading as spec;
ghost use Rattle.kom_parse.specs.Answers.{IsAnswer};
ghost use Rattle.kom_grammar.specs.Expressions.{SpellsExpr};

use crate::names::read_name;
use crate::operators::{Unary, binary_of_level, unary_of};
use kom_lang::Binary;
use kom_parse::{Reader, Stop};
use kom_system::ExprPart;
use kom_text::TokenKind;
use sqlite_items::Boxed;
use std::alloc::{AllocError, Global};

const MAX_OPERATORS: u8 = 32;

const MAX_PARENS: u8 = 64;

const WHOLE: u8 = 5;

const COMPARISON: u8 = 3;

fn with_unary(alloc: Global, op: Unary, x: ExprPart) -> Result<ExprPart, AllocError>
    ensures { IfOk result (λ e. e ≡ spec.with_unary op x) }
{
    let x = Boxed::new(alloc, x)?;
    Ok(match op {
        Unary::Neg => ExprPart::Neg(x),
        Unary::Not => ExprPart::Not(x),
    })
}

fn pair(alloc: Global, op: Binary, x: ExprPart, y: ExprPart) -> Result<ExprPart, AllocError>
    ensures { IfOk result (λ e. e ≡ ExprPart.Pair op x y) }
{
    Ok(ExprPart::Pair {
        op,
        left: Boxed::new(alloc, x)?,
        right: Boxed::new(alloc, y)?,
    })
}

/// The binary operator of a level that comes next, if one does.
fn next_operator(reader: &Reader<'_>, level: u8) -> Option<Binary>
    ensures { result ≡ spec.operator_in level (first reader.now) }
{
    match reader.next_sign() {
        Some(sign) => binary_of_level(sign, level),
        None => None,
    }
}

fn next_unary(reader: &Reader<'_>) -> Option<Unary>
    ensures { result ≡ spec.unary_in (first reader.now) }
{
    match reader.next_sign() {
        Some(sign) => unary_of(sign),
        None => None,
    }
}

#[tactic(auto, using(crate::proofs::Steps::operator_found, crate::proofs::Steps::operator_missing))]
fn operator(reader: &mut Reader<'_>, level: u8) -> Result<Binary, Stop>
    ensures { Reads (spec.operator level reader.old) result reader.new }
{
    match next_operator(reader, level) {
        Some(op) => {
            reader.skip();
            Ok(op)
        }
        None => Err(Stop::Refused),
    }
}

#[tactic(auto, using(crate::proofs::Steps::unary_found, crate::proofs::Steps::unary_missing))]
fn unary_operator(reader: &mut Reader<'_>) -> Result<Unary, Stop>
    ensures { Reads (spec.unary_operator reader.old) result reader.new }
{
    match next_unary(reader) {
        Some(op) => {
            reader.skip();
            Ok(op)
        }
        None => Err(Stop::Refused),
    }
}

#[tactic(auto, unfolding(crate::specs::Reading::attribute))]
fn attribute(reader: &mut Reader<'_>) -> Result<ExprPart, Stop>
    ensures { Reads (spec.attribute reader.old) result reader.new }
{
    let at = reader.word(b"it")?;
    reader.sign(b".")?;
    let attr = read_name(reader)?;
    Ok(ExprPart::It { at, attr })
}

#[tactic(auto, unfolding(crate::specs::Reading::operand))]
fn operand(reader: &mut Reader<'_>) -> Result<ExprPart, Stop>
    ensures { Reads (spec.operand reader.old) result reader.new }
{
    if reader.next_number().is_some() {
        let number = reader.number()?;
        return Ok(ExprPart::Number(number.value));
    }
    if reader.sees(TokenKind::Word, b"it") {
        return attribute(reader);
    }
    Ok(ExprPart::Name(read_name(reader)?))
}

/// Reads an expression: at most 32 operators, and at most 64 parentheses open at one place. It is
/// read as far as it goes on; `Refused` comes at the first token at which no expression goes on so,
/// which is left as the next one.
#[tactic(auto, unfolding(crate::specs::Reading::expr), using(crate::proofs::Exact::expr_exact))]
pub fn read_expr(reader: &mut Reader<'_>) -> Result<ExprPart, Stop>
    ensures reads { Reads (spec.expr reader.old) result reader.new }
    ensures exact { IsAnswer SpellsExpr reader.old result reader.new }
{
    let mut operators = MAX_OPERATORS;
    read_level(reader, WHOLE, MAX_PARENS, &mut operators)
}

/// An expression of this level, with so many parentheses that may still be opened.
#[cycle(expr)]
#[tactic(auto, unfolding(crate::specs::Reading::level))]
fn read_level(
    reader: &mut Reader<'_>,
    level: u8,
    parens: u8,
    operators: &mut u8,
) -> Result<ExprPart, Stop>
    requires { level ≤ 5 }
    ensures reads { ReadsWithin (spec.level (spec.parens_at parens) level operators.old reader.old) result operators.new reader.new }
    ensures fewer { IfOk result (λ _. operators.new ≤ operators.old) }
{
    if level == 0 {
        return unary(reader, parens, operators);
    }
    let left = read_level(reader, level - 1, parens, operators)?;
    if level == COMPARISON {
        let (found, _) = operation(reader, level, parens, operators, left)?;
        Ok(found)
    } else {
        chain(reader, level, parens, operators, left)
    }
}

#[cycle(expr)]
fn chain(
    reader: &mut Reader<'_>,
    level: u8,
    parens: u8,
    operators: &mut u8,
    mut left: ExprPart,
) -> Result<ExprPart, Stop>
    requires least { 0 < level }
    requires most { level ≤ 5 }
    requires chains { level ≢ 3 }
    ensures reads { ReadsWithin (loop (spec.operation (spec.parens_at parens) level (spec.level (spec.parens_at parens) (level - 1))) (left, operators.old) reader.old) result operators.new reader.new }
    ensures fewer { IfOk result (λ _. operators.new ≤ operators.old) }
{
    loop {
        let (longer, more) = operation(reader, level, parens, operators, left)?;
        left = longer;
        if !more {
            return Ok(left);
        }
    }
}

/// Goes on with an operator of this level and its right operand, if the operator comes, and says
/// whether it did.
#[cycle(expr)]
#[tactic(auto, unfolding(crate::specs::Reading::operation))]
fn operation(
    reader: &mut Reader<'_>,
    level: u8,
    parens: u8,
    operators: &mut u8,
    left: ExprPart,
) -> Result<(ExprPart, bool), Stop>
    requires least { 0 < level }
    requires most { level ≤ 5 }
    ensures reads { ReadsTurn (spec.operation (spec.parens_at parens) level (spec.level (spec.parens_at parens) (level - 1)) (left, operators.old) reader.old) (left, operators.old) result operators.new reader.new }
    ensures fewer { IfOk result (λ found. operators.new + (if found.1 then 1 else 0) ≤ operators.old) }
{
    if next_operator(reader, level).is_none() {
        return Ok((left, false));
    }
    if *operators == 0 {
        return Err(Stop::Refused);
    }
    *operators -= 1;
    let op = operator(reader, level)?;
    let right = read_level(reader, level - 1, parens, operators)?;
    Ok((pair(reader.alloc, op, left, right)?, true))
}

#[cycle(expr)]
#[tactic(auto, unfolding(crate::specs::Reading::unary))]
fn unary(reader: &mut Reader<'_>, parens: u8, operators: &mut u8) -> Result<ExprPart, Stop>
    ensures reads { ReadsWithin (spec.unary (spec.parens_at parens) operators.old reader.old) result operators.new reader.new }
    ensures fewer { IfOk result (λ _. operators.new ≤ operators.old) }
{
    if reader.sees(TokenKind::Sign, b"(") {
        return in_parens(reader, parens, operators);
    }
    if next_unary(reader).is_some() {
        if *operators == 0 {
            return Err(Stop::Refused);
        }
        *operators -= 1;
        let op = unary_operator(reader)?;
        let x = unary(reader, parens, operators)?;
        return Ok(with_unary(reader.alloc, op, x)?);
    }
    operand(reader)
}

#[cycle(expr)]
#[tactic(auto, unfolding(crate::specs::Reading::parens_at))]
fn in_parens(reader: &mut Reader<'_>, parens: u8, operators: &mut u8) -> Result<ExprPart, Stop>
    ensures reads { ReadsWithin (spec.parens_at parens operators.old reader.old) result operators.new reader.new }
    ensures fewer { IfOk result (λ _. operators.new ≤ operators.old) }
{
    if parens == 0 {
        return Err(Stop::Refused);
    }
    reader.sign(b"(")?;
    let x = read_level(reader, WHOLE, parens - 1, operators)?;
    reader.sign(b")")?;
    Ok(x)
}
