ghost use Rattle.std.specs.Prelude.{◌≡◌, [], IfOk};
ghost use Rattle.kom_parse.specs.Input.{Reads};
ghost use Rattle.kom_scengram.specs.Reading as spec;

use crate::parts::ScenarioParts;
use crate::settings::settings;
use crate::sources::sources;
use kom_parse::{Reader, Stop};

/// What follows the header of a file, up to the end of the tokens.
#[tactic(auto, unfolding(crate::specs::Reading::body))]
pub fn body(reader: &mut Reader<'_>) -> Result<ScenarioParts, Stop>
    ensures reads { Reads (spec.body reader.old) result reader.new }
    ensures end { IfOk result (λ _. reader.new ≡ []) }
{
    let settings = settings(reader)?;
    let sources = sources(reader)?;
    Ok(ScenarioParts { settings, sources })
}
