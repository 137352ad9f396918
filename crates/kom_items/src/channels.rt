ghost use Rattle.std.specs.Prelude.{◌≡◌};
ghost use Rattle.kom_parse.specs.Input.{Read, Reads};
ghost use Rattle.kom_items.specs.Reading as spec;

use crate::words::take_relation;
use kom_exprs::{read_int, read_name};
use kom_parse::{Reader, Stop};
use kom_stmts::read_target;
use kom_system::{ChannelPart, EndPart, TargetPart, TestPart, TestParts};
use kom_text::TokenKind;
use sqlite_items::Items;

fn end_at(target: TargetPart) -> EndPart
    ensures { result ≡ spec.end_at target }
{
    match target {
        TargetPart::Own(port) => EndPart::Own(port),
        TargetPart::Child { slot, port } => EndPart::Child { slot, port },
    }
}

#[tactic(auto, unfolding(crate::specs::Reading::end))]
fn end(reader: &mut Reader<'_>) -> Result<EndPart, Stop>
    ensures { Reads (spec.end reader.old) result reader.new }
{
    if reader.eat(TokenKind::Word, b"free") {
        return Ok(EndPart::Free);
    }
    let target = read_target(reader)?;
    Ok(end_at(target))
}

#[tactic(auto, unfolding(crate::specs::Reading::test))]
fn test(reader: &mut Reader<'_>) -> Result<TestPart, Stop>
    ensures { Reads (spec.test reader.old) result reader.new }
{
    let kind = read_name(reader)?;
    reader.sign(b".")?;
    let attr = read_name(reader)?;
    let op = take_relation(reader)?;
    let number = read_int(reader)?;
    Ok(TestPart {
        kind,
        attr,
        op,
        number,
    })
}

/// Takes an `&&` between tests, if one comes and the file is of version 2.
#[tactic(auto, using(crate::proofs::ListSteps::and_comes, crate::proofs::ListSteps::no_and_in_one))]
fn eat_and(reader: &mut Reader<'_>, two: bool) -> bool
    ensures { spec.eat_and two reader.old ≡ Read result reader.new }
{
    two && reader.eat(TokenKind::Sign, b"&&")
}

/// The tests of a direction: one, or by version 2 several.
#[tactic(auto, using(crate::proofs::ListSteps::tests_begin, crate::proofs::ListSteps::no_test, crate::proofs::ListSteps::tests_end, crate::proofs::ListSteps::tests_refuse, crate::proofs::ListSteps::tests_turn, crate::proofs::ListSteps::tests_shorter))]
fn tests(reader: &mut Reader<'_>, two: bool) -> Result<TestParts, Stop>
    ensures { Reads (spec.tests two reader.old) result reader.new }
{
    let mut tests = Items::new(reader.alloc);
    tests.push(test(reader)?)?;
    while eat_and(reader, two) {
        tests.push(test(reader)?)?;
    }
    Ok(tests)
}

/// The selector of a direction, which may be left out.
#[tactic(auto, unfolding(crate::specs::Reading::selector))]
fn selector(reader: &mut Reader<'_>, direction: &[u8], two: bool) -> Result<TestParts, Stop>
    ensures { Reads (spec.selector two direction.now reader.old) result reader.new }
{
    if reader.eat(TokenKind::Word, direction) {
        reader.word(b"when")?;
        return tests(reader, two);
    }
    Ok(Items::new(reader.alloc))
}

#[tactic(auto, unfolding(crate::specs::Reading::channel))]
pub fn channel(reader: &mut Reader<'_>, two: bool) -> Result<ChannelPart, Stop>
    ensures { Reads (spec.channel two reader.old) result reader.new }
{
    let name = read_name(reader)?;
    reader.sign(b":")?;
    let port = read_name(reader)?;
    reader.word(b"from")?;
    let plus = end(reader)?;
    reader.word(b"to")?;
    let minus = end(reader)?;
    let plus_when = selector(reader, b"plus", two)?;
    let minus_when = selector(reader, b"minus", two)?;
    reader.sign(b";")?;
    Ok(ChannelPart {
        name,
        port,
        plus,
        minus,
        plus_when,
        minus_when,
    })
}
