ghost use Rattle.kom_parse.specs.Input.{Reads};
ghost use Rattle.kom_parse.specs.Answers.{IsAnswer};
ghost use Rattle.kom_grammar.specs.Expressions.{SpellsInt};
ghost use Rattle.kom_exprs.specs.Reading as spec;

use kom_parse::{Reader, Stop};
use kom_text::TokenKind;

#[tactic(auto, unfolding(crate::specs::Reading::int), using(crate::proofs::NumberSteps::not_negative))]
fn signed_number(reader: &mut Reader<'_>) -> Result<i64, Stop>
    ensures { Reads (spec.int reader.old) result reader.new }
{
    let is_negative = reader.eat(TokenKind::Sign, b"-");
    let number = reader.number()?;
    if is_negative {
        Ok(-number.value)
    } else {
        Ok(number.value)
    }
}

/// Reads a number of a declaration, which may have a minus sign. `Refused` comes at the first
/// token at which no number goes on so, which is left as the next one.
#[tactic(auto, using(crate::proofs::Exact::int_exact))]
pub fn read_int(reader: &mut Reader<'_>) -> Result<i64, Stop>
    ensures reads { Reads (spec.int reader.old) result reader.new }
    ensures exact { IsAnswer SpellsInt reader.old result reader.new }
{
    signed_number(reader)
}
