ghost use Rattle.std.specs.Prelude.{◌≡◌, [], IfOk};
ghost use Rattle.kom_parse.specs.Input.{Reads};
ghost use Rattle.kom_scengram.specs.Reading as spec;

use crate::args::{numbered, paired, raise};
use crate::parts::{Moment, ProcessPart, SourcePart, SourceParts, StartPart};
use crate::settings::valued;
use kom_parse::{Reader, Stop};
use kom_text::TokenKind;
use sqlite_items::Items;

#[tactic(auto, unfolding(crate::specs::Reading::moment_rule))]
fn moment(reader: &mut Reader<'_>) -> Result<Moment, Stop>
    ensures { Reads (spec.moment_rule reader.old) result reader.new }
{
    if reader.eat(TokenKind::Word, b"start") {
        return Ok(Moment::Start);
    }
    reader.word(b"end")?;
    Ok(Moment::End)
}

/// A start behind a moment of another process.
#[tactic(auto, unfolding(crate::specs::Reading::after))]
fn after(reader: &mut Reader<'_>) -> Result<StartPart, Stop>
    ensures { Reads (spec.after reader.old) result reader.new }
{
    reader.word(b"after")?;
    let moment = moment(reader)?;
    reader.word(b"of")?;
    let process = reader.any_word()?;
    let (_, by) = numbered(reader, b"by")?;
    Ok(StartPart::After {
        moment,
        process,
        by,
    })
}

#[tactic(auto, unfolding(crate::specs::Reading::start_rule))]
fn start(reader: &mut Reader<'_>) -> Result<StartPart, Stop>
    ensures { Reads (spec.start_rule reader.old) result reader.new }
{
    if reader.sees(TokenKind::Word, b"after") {
        return after(reader);
    }
    let (_, time) = numbered(reader, b"at")?;
    Ok(StartPart::At(time))
}

#[tactic(auto, unfolding(crate::specs::Reading::process))]
fn process(reader: &mut Reader<'_>) -> Result<SourcePart, Stop>
    ensures { Reads (spec.process reader.old) result reader.new }
{
    reader.word(b"process")?;
    let name = reader.any_word()?;
    let start = start(reader)?;
    reader.sign(b"{")?;
    let (_, count) = valued(reader, b"count")?;
    let (_, (low, high)) = paired(reader, b"gap")?;
    reader.sign(b";")?;
    let raise = raise(reader)?;
    reader.sign(b"}")?;
    Ok(SourcePart::Process(ProcessPart {
        name,
        start,
        count,
        low,
        high,
        raise,
    }))
}

/// A line with one event.
#[tactic(auto, unfolding(crate::specs::Reading::line))]
fn line(reader: &mut Reader<'_>) -> Result<SourcePart, Stop>
    ensures { Reads (spec.line reader.old) result reader.new }
{
    let (at, time) = numbered(reader, b"at")?;
    let raise = raise(reader)?;
    Ok(SourcePart::At { at, time, raise })
}

#[tactic(auto, unfolding(crate::specs::Reading::source_rule))]
fn source(reader: &mut Reader<'_>) -> Result<SourcePart, Stop>
    ensures { Reads (spec.source_rule reader.old) result reader.new }
{
    if reader.sees(TokenKind::Word, b"process") {
        process(reader)
    } else {
        line(reader)
    }
}

/// Sources of events, up to the end of the tokens.
#[tactic(auto, using(crate::proofs::RowSteps::sources_go, crate::proofs::RowSteps::sources_shorter, crate::proofs::RowSteps::sources_refuse, crate::proofs::RowSteps::sources_end, crate::proofs::RowSteps::nothing_left))]
pub fn sources(reader: &mut Reader<'_>) -> Result<SourceParts, Stop>
    ensures reads { Reads (spec.sources [] reader.old) result reader.new }
    ensures end { IfOk result (λ _. reader.new ≡ []) }
{
    let mut parts = Items::new(reader.alloc);
    while reader.left() != 0 {
        let source = source(reader)?;
        parts.push(source)?;
    }
    Ok(parts)
}
