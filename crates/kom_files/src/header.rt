ghost use Rattle.kom_parse.specs.Input.{Reads};
ghost use Rattle.kom_files.specs.Headers as spec;

use kom_parse::{Reader, Stop};
use kom_text::TokenKind;

/// Reads the header of a file: its word, its version and a semicolon.
#[tactic(auto, unfolding(crate::specs::Headers::header))]
pub fn read_header(reader: &mut Reader<'_>, word: &[u8], version: &[u8]) -> Result<(), Stop>
    ensures { Reads (spec.header word.now version.now reader.old) result reader.new }
{
    reader.word(word)?;
    reader.exactly(TokenKind::Number, version)?;
    reader.sign(b";")?;
    Ok(())
}
