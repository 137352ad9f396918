ghost use Rattle.kom_parse.specs.Input.{Reads};
ghost use Rattle.kom_parse.specs.Rules.{list, in_parens};
ghost use Rattle.kom_scengram.specs.Reading as spec;

use crate::parts::{ArgPart, ArgParts, RaisePart};
use kom_exprs::read_int;
use kom_parse::{Numeral, Reader, Stop};
use kom_text::TokenKind;
use sqlite_items::Items;

/// A word that has to come next and the number behind it, with the word's place.
#[tactic(auto, unfolding(crate::specs::Reading::numbered))]
pub fn numbered(reader: &mut Reader<'_>, word: &[u8]) -> Result<(u32, Numeral), Stop>
    ensures { Reads (spec.numbered word.now reader.old) result reader.new }
{
    let at = reader.word(word)?;
    let number = reader.number()?;
    Ok((at, number))
}

/// A word that has to come next and the two numbers behind it, with the word's place.
#[tactic(auto, unfolding(crate::specs::Reading::paired))]
pub fn paired(reader: &mut Reader<'_>, word: &[u8]) -> Result<(u32, (Numeral, Numeral)), Stop>
    ensures { Reads (spec.paired word.now reader.old) result reader.new }
{
    let at = reader.word(word)?;
    let low = reader.number()?;
    let high = reader.number()?;
    Ok((at, (low, high)))
}

#[tactic(auto, unfolding(crate::specs::Reading::arg_rule))]
fn arg(reader: &mut Reader<'_>) -> Result<ArgPart, Stop>
    ensures { Reads (spec.arg_rule reader.old) result reader.new }
{
    if reader.sees(TokenKind::Word, b"index") {
        reader.word(b"index")?;
        return Ok(ArgPart::Index);
    }
    if reader.sees(TokenKind::Word, b"draw") {
        let (_, (low, high)) = paired(reader, b"draw")?;
        return Ok(ArgPart::Draw { low, high });
    }
    Ok(ArgPart::Number(read_int(reader)?))
}

/// Arguments up to a closing parenthesis.
#[tactic(auto, using(kom_parse::proofs::ListSteps::list_empty, kom_parse::proofs::ListSteps::list_refuses, kom_parse::proofs::ListSteps::list_goes, kom_parse::proofs::ListSteps::commas_end, kom_parse::proofs::ListSteps::commas_refuse, crate::proofs::RowSteps::args_turn, crate::proofs::RowSteps::args_shorter))]
fn list(reader: &mut Reader<'_>) -> Result<ArgParts, Stop>
    ensures { Reads (list spec.arg_rule reader.old) result reader.new }
{
    let mut items = Items::new(reader.alloc);
    if reader.sees(TokenKind::Sign, b")") {
        return Ok(items);
    }
    items.push(arg(reader)?)?;
    while reader.eat(TokenKind::Sign, b",") {
        items.push(arg(reader)?)?;
    }
    Ok(items)
}

#[tactic(auto, unfolding(kom_parse::specs::Rules::in_parens))]
fn in_parens(reader: &mut Reader<'_>) -> Result<ArgParts, Stop>
    ensures { Reads (in_parens spec.arg_rule reader.old) result reader.new }
{
    reader.sign(b"(")?;
    let items = list(reader)?;
    reader.sign(b")")?;
    Ok(items)
}

/// What is raised, from the word `raise` to the semicolon.
#[tactic(auto, unfolding(crate::specs::Reading::raise))]
pub fn raise(reader: &mut Reader<'_>) -> Result<RaisePart, Stop>
    ensures { Reads (spec.raise reader.old) result reader.new }
{
    reader.word(b"raise")?;
    let kind = reader.any_word()?;
    let args = in_parens(reader)?;
    reader.word(b"at")?;
    let port = reader.any_word()?;
    reader.sign(b";")?;
    Ok(RaisePart { kind, args, port })
}
