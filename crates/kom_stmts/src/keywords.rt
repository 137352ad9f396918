ghost use Rattle.std.specs.Prelude.{◌≡◌, bytes_eq};
ghost use Rattle.kom_parse.specs.Input.{Read, Reads, may, first};
ghost use Rattle.kom_parse.specs.Rules.{by_bytes, word_among};
ghost use Rattle.kom_stmts.specs.Reading as spec;

use kom_base::Dir;
use kom_parse::{Reader, Stop};

/// A statement of one word and a name.
#[derive(Clone, Copy, Debug, PartialEq, Eq)]
pub enum Command {
    Start,
    Stop,
    Destroy,
    Dump,
    Hold,
    Resume,
    Subscribe,
    Unsubscribe,
}

/// The reserved word that a statement begins with.
#[derive(Clone, Copy, Debug, PartialEq, Eq)]
pub enum Keyword {
    If,
    While,
    Let,
    Trigger,
    Create,
    Unplug,
    Plug,
    Fail,
    Command(Command),
}

pub fn is(a: &[u8], b: &[u8]) -> bool
    ensures { result ≡ bytes_eq a.now b.now }
{
    a == b
}

fn command_of(word: &[u8]) -> Option<Keyword>
    ensures { result ≡ by_bytes word.now spec.commands }
{
    let command = if is(word, b"start") {
        Command::Start
    } else if is(word, b"stop") {
        Command::Stop
    } else if is(word, b"destroy") {
        Command::Destroy
    } else if is(word, b"dump") {
        Command::Dump
    } else if is(word, b"hold") {
        Command::Hold
    } else if is(word, b"resume") {
        Command::Resume
    } else if is(word, b"subscribe") {
        Command::Subscribe
    } else if is(word, b"unsubscribe") {
        Command::Unsubscribe
    } else {
        return None;
    };
    Some(Keyword::Command(command))
}

fn flat_keyword_of(word: &[u8]) -> Option<Keyword>
    ensures { result ≡ by_bytes word.now spec.flat_keywords }
{
    if is(word, b"let") {
        Some(Keyword::Let)
    } else if is(word, b"trigger") {
        Some(Keyword::Trigger)
    } else if is(word, b"create") {
        Some(Keyword::Create)
    } else if is(word, b"unplug") {
        Some(Keyword::Unplug)
    } else if is(word, b"plug") {
        Some(Keyword::Plug)
    } else if is(word, b"fail") {
        Some(Keyword::Fail)
    } else {
        command_of(word)
    }
}

/// The keyword that a word is, where a statement may have so many levels of blocks below it.
fn keyword_of(word: &[u8], levels: u8) -> Option<Keyword>
    ensures { result ≡ by_bytes word.now (spec.keywords levels) }
{
    if levels == 0 {
        return flat_keyword_of(word);
    }
    if is(word, b"if") {
        Some(Keyword::If)
    } else if is(word, b"while") {
        Some(Keyword::While)
    } else {
        flat_keyword_of(word)
    }
}

fn next_keyword(reader: &Reader<'_>, levels: u8) -> Option<Keyword>
    ensures { result ≡ word_among (spec.keywords levels) (first reader.now) }
{
    match reader.next_word() {
        Some(word) => keyword_of(word.bytes, levels),
        None => None,
    }
}

/// Takes the keyword that comes next, if one does that a statement may begin with which may have
/// so many levels of blocks below it.
#[tactic(auto, using(crate::proofs::KeywordSteps::keyword_found, crate::proofs::KeywordSteps::keyword_missing))]
pub fn take_keyword(reader: &mut Reader<'_>, levels: u8) -> Option<Keyword>
    ensures { may (word_among (spec.keywords levels)) reader.old ≡ Read result reader.new }
{
    let found = next_keyword(reader, levels);
    if found.is_some() {
        reader.skip();
    }
    found
}

fn direction_of(word: &[u8]) -> Option<Dir>
    ensures { result ≡ by_bytes word.now spec.directions }
{
    if is(word, b"plus") {
        Some(Dir::Plus)
    } else if is(word, b"minus") {
        Some(Dir::Minus)
    } else {
        None
    }
}

fn next_direction(reader: &Reader<'_>) -> Option<Dir>
    ensures { result ≡ word_among spec.directions (first reader.now) }
{
    match reader.next_word() {
        Some(word) => direction_of(word.bytes),
        None => None,
    }
}

/// Reads `plus` or `minus`.
#[tactic(auto, using(crate::proofs::KeywordSteps::direction_found, crate::proofs::KeywordSteps::direction_missing))]
pub fn read_direction(reader: &mut Reader<'_>) -> Result<Dir, Stop>
    ensures { Reads (spec.direction reader.old) result reader.new }
{
    match next_direction(reader) {
        Some(direction) => {
            reader.skip();
            Ok(direction)
        }
        None => Err(Stop::Refused),
    }
}
