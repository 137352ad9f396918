ghost use Rattle.std.specs.Prelude.{◌≡◌, []};
ghost use Rattle.kom_parse.specs.Input.{Reads, first};
ghost use Rattle.kom_scengram.specs.Reading as spec;

use crate::args::{numbered, paired};
use crate::parts::{SettingPart, SettingParts};
use kom_parse::{Numeral, Reader, Stop};
use kom_text::TokenKind;
use sqlite_items::Items;

/// A word that has to come next, the number behind it and a semicolon, with the word's place.
#[tactic(auto, unfolding(crate::specs::Reading::valued))]
pub fn valued(reader: &mut Reader<'_>, word: &[u8]) -> Result<(u32, Numeral), Stop>
    ensures { Reads (spec.valued word.now reader.old) result reader.new }
{
    let (at, value) = numbered(reader, word)?;
    reader.sign(b";")?;
    Ok((at, value))
}

#[tactic(auto, unfolding(crate::specs::Reading::network))]
fn network(reader: &mut Reader<'_>) -> Result<SettingPart, Stop>
    ensures { Reads (spec.network reader.old) result reader.new }
{
    let (at, (low, high)) = paired(reader, b"network")?;
    reader.sign(b";")?;
    Ok(SettingPart::Network { at, low, high })
}

#[tactic(auto, unfolding(crate::specs::Reading::setting_rule))]
fn setting(reader: &mut Reader<'_>) -> Result<SettingPart, Stop>
    ensures { Reads (spec.setting_rule reader.old) result reader.new }
{
    if reader.sees(TokenKind::Word, b"seed") {
        let (at, value) = valued(reader, b"seed")?;
        Ok(SettingPart::Seed { at, value })
    } else if reader.sees(TokenKind::Word, b"steps") {
        let (at, value) = valued(reader, b"steps")?;
        Ok(SettingPart::Steps { at, value })
    } else if reader.sees(TokenKind::Word, b"instants") {
        let (at, value) = valued(reader, b"instants")?;
        Ok(SettingPart::Instants { at, value })
    } else {
        network(reader)
    }
}

/// Whether a setting begins with the token that comes next.
fn begins_setting(reader: &Reader<'_>) -> bool
    ensures { result ≡ spec.begins_setting (first reader.now) }
{
    reader.sees(TokenKind::Word, b"seed")
        || reader.sees(TokenKind::Word, b"steps")
        || reader.sees(TokenKind::Word, b"instants")
        || reader.sees(TokenKind::Word, b"network")
}

/// Settings, up to a token with which none begins.
#[tactic(auto, using(crate::proofs::RowSteps::settings_go, crate::proofs::RowSteps::settings_shorter, crate::proofs::RowSteps::settings_refuse, crate::proofs::RowSteps::settings_end))]
pub fn settings(reader: &mut Reader<'_>) -> Result<SettingParts, Stop>
    ensures { Reads (spec.settings [] reader.old) result reader.new }
{
    let mut parts = Items::new(reader.alloc);
    while begins_setting(reader) {
        let setting = setting(reader)?;
        parts.push(setting)?;
    }
    Ok(parts)
}
