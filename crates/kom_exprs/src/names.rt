ghost use Rattle.std.specs.Prelude.{◌≡◌, bytes_eq, not};
ghost use Rattle.std.specs.List.{list_any};
ghost use Rattle.kom_parse.specs.Input.{Reads};
ghost use Rattle.kom_parse.specs.Rules.{name};
ghost use Rattle.kom_grammar.specs.Words.{is_name};

use kom_parse::{Reader, Stop};
use kom_system::Spot;

/// The words that are no names.
const RESERVED: [&[u8]; 43] = [
    b"system",
    b"event",
    b"port",
    b"component",
    b"root",
    b"provides",
    b"requires",
    b"var",
    b"slot",
    b"channel",
    b"from",
    b"to",
    b"plus",
    b"minus",
    b"when",
    b"self",
    b"free",
    b"on",
    b"at",
    b"as",
    b"off",
    b"init",
    b"start",
    b"stop",
    b"fault",
    b"dumped",
    b"let",
    b"if",
    b"else",
    b"while",
    b"trigger",
    b"create",
    b"state",
    b"destroy",
    b"dump",
    b"hold",
    b"resume",
    b"unplug",
    b"plug",
    b"subscribe",
    b"unsubscribe",
    b"fail",
    b"it",
];

fn is(a: &[u8], b: &[u8]) -> bool
    ensures { result ≡ bytes_eq a.now b.now }
{
    a == b
}

fn is_among(words: &[&[u8]], word: &[u8]) -> bool
    ensures { result ≡ list_any (λ r. bytes_eq r.now word.now) words.now }
{
    words.iter().any(|r| is(r, word))
}

/// Whether a word may be a name: whether it is not reserved.
pub fn is_name(word: &[u8]) -> bool
    ensures { result ≡ is_name word.now }
{
    !is_among(&RESERVED, word)
}

/// Reads a name: a word that is not reserved.
#[tactic(auto, using(crate::proofs::NameSteps::name_taken, crate::proofs::NameSteps::name_is_reserved, crate::proofs::NameSteps::no_word))]
pub fn read_name(reader: &mut Reader<'_>) -> Result<Spot, Stop>
    ensures { Reads (name is_name reader.old) result reader.new }
{
    let Some(word) = reader.next_word() else {
        return Err(Stop::Refused);
    };
    if is_name(word.bytes) {
        reader.any_word()
    } else {
        Err(Stop::Refused)
    }
}
