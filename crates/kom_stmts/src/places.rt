ghost use Rattle.std.specs.Prelude.{◌≡◌};
ghost use Rattle.kom_parse.specs.Input.{Reads};
ghost use Rattle.kom_parse.specs.Answers.{IsAnswer};
ghost use Rattle.kom_grammar.specs.Statements.{SpellsTarget};
ghost use Rattle.kom_stmts.specs.Reading as spec;

use kom_exprs::read_name;
use kom_parse::{Reader, Stop};
use kom_system::TargetPart;
use kom_text::TokenKind;

#[tactic(auto, unfolding(crate::specs::Reading::target))]
fn target(reader: &mut Reader<'_>) -> Result<TargetPart, Stop>
    ensures { Reads (spec.target reader.old) result reader.new }
{
    if reader.eat(TokenKind::Word, b"self") {
        reader.sign(b".")?;
        return Ok(TargetPart::Own(read_name(reader)?));
    }
    let slot = read_name(reader)?;
    reader.sign(b".")?;
    let port = read_name(reader)?;
    Ok(TargetPart::Child { slot, port })
}

/// Reads where an end is put: `self` or the name of a slot, a dot, and the name of a port.
/// `Refused` comes at the first token at which no such place goes on so, which is left as the next
/// one.
#[tactic(auto, using(crate::proofs::Exact::target_exact))]
pub fn read_target(reader: &mut Reader<'_>) -> Result<TargetPart, Stop>
    ensures reads { Reads (spec.target reader.old) result reader.new }
    ensures exact { IsAnswer SpellsTarget reader.old result reader.new }
{
    target(reader)
}
