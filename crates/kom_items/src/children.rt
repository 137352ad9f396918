ghost use Rattle.std.specs.Prelude.{◌≡◌};
ghost use Rattle.kom_parse.specs.Input.{Reads};
ghost use Rattle.kom_parse.specs.Rules.{list};
ghost use Rattle.kom_parse.specs.Answers.{IsAnswer};
ghost use Rattle.kom_grammar.specs.Files.{SpellsChild};
ghost use Rattle.kom_exprs.specs.Reading.{int};
ghost use Rattle.kom_items.specs.Reading as spec;

use kom_base::Values;
use kom_exprs::{read_int, read_name};
use kom_parse::{Reader, Stop};
use kom_system::ChildPart;
use kom_text::TokenKind;

/// Numbers up to a closing parenthesis.
#[tactic(auto, using(kom_parse::proofs::ListSteps::list_empty, kom_parse::proofs::ListSteps::list_refuses, kom_parse::proofs::ListSteps::list_goes, kom_parse::proofs::ListSteps::commas_end, kom_parse::proofs::ListSteps::commas_refuse, crate::proofs::ListSteps::ints_turn, crate::proofs::ListSteps::ints_shorter))]
fn ints(reader: &mut Reader<'_>) -> Result<Values, Stop>
    ensures { Reads (list int reader.old) result reader.new }
{
    let mut ints = Values::new(reader.alloc);
    if reader.sees(TokenKind::Sign, b")") {
        return Ok(ints);
    }
    ints.push(read_int(reader)?)?;
    while reader.eat(TokenKind::Sign, b",") {
        ints.push(read_int(reader)?)?;
    }
    Ok(ints)
}

#[tactic(auto, unfolding(crate::specs::Reading::child, kom_parse::specs::Rules::in_parens))]
fn child(reader: &mut Reader<'_>) -> Result<ChildPart, Stop>
    ensures { Reads (spec.child reader.old) result reader.new }
{
    let kind = read_name(reader)?;
    reader.sign(b"(")?;
    let args = ints(reader)?;
    reader.sign(b")")?;
    Ok(ChildPart { kind, args })
}

/// Reads a component type with arguments. `Refused` comes at the first token at which none goes on
/// so, which is left as the next one.
#[tactic(auto, using(crate::proofs::Exact::child_exact))]
pub fn read_child(reader: &mut Reader<'_>) -> Result<ChildPart, Stop>
    ensures reads { Reads (spec.child reader.old) result reader.new }
    ensures exact { IsAnswer SpellsChild reader.old result reader.new }
{
    child(reader)
}
