ghost use Rattle.std.specs.Prelude.{◌≡◌, [], IfOk};
ghost use Rattle.kom_parse.specs.Input.{Reads};
ghost use Rattle.kom_sysread.specs.Reading as spec;

use crate::decls::decl;
use crate::growth::{add_decl, no_decls};
use kom_parse::{Reader, Stop};
use kom_system::Parts;
use kom_text::TokenKind;

/// Whether the file is of version 2.
#[tactic(auto, unfolding(crate::specs::Reading::version))]
fn version(reader: &mut Reader<'_>) -> Result<bool, Stop>
    ensures { Reads (spec.version reader.old) result reader.new }
{
    if reader.eat(TokenKind::Number, b"1") {
        return Ok(false);
    }
    reader.exactly(TokenKind::Number, b"2")?;
    Ok(true)
}

/// Reads the header of a file, and says whether the file is of version 2.
#[tactic(auto, unfolding(crate::specs::Reading::header))]
pub fn header(reader: &mut Reader<'_>) -> Result<bool, Stop>
    ensures { Reads (spec.header reader.old) result reader.new }
{
    reader.word(b"system")?;
    let two = version(reader)?;
    reader.sign(b";")?;
    Ok(two)
}

/// Reads the declarations of a file, up to the end of the tokens.
#[tactic(auto, using(crate::proofs::RowSteps::decls_go, crate::proofs::RowSteps::decls_shorter, crate::proofs::RowSteps::decls_refuse, crate::proofs::RowSteps::decls_end, crate::proofs::RowSteps::nothing_left))]
pub fn decls(reader: &mut Reader<'_>, two: bool, end: u32) -> Result<Parts, Stop>
    ensures reads { Reads (spec.decls two (spec.no_decls two end) reader.old) result reader.new }
    ensures end { IfOk result (λ _. reader.new ≡ []) }
{
    let mut parts = no_decls(reader.alloc, two, end);
    while reader.left() != 0 {
        let decl = decl(reader, two)?;
        add_decl(&mut parts, decl)?;
    }
    Ok(parts)
}
