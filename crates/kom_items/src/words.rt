ghost use Rattle.std.specs.Prelude.{◌≡◌, bytes_eq};
ghost use Rattle.kom_parse.specs.Input.{Read, Reads, may, first};
ghost use Rattle.kom_parse.specs.Rules.{by_bytes, word_among};
ghost use Rattle.kom_items.specs.Reading as spec;

use kom_events::Op;
use kom_parse::{Reader, Stop};

/// The word that a declaration of a component type begins with.
#[derive(Clone, Copy, Debug, PartialEq, Eq)]
pub enum ItemWord {
    Provides,
    Requires,
    Var,
    Slot,
    Channel,
    On,
}

/// What a handler handles, where that is no event: its word.
#[derive(Clone, Copy, Debug, PartialEq, Eq)]
pub enum OnWord {
    Init,
    Start,
    Stop,
    Fault,
    Dumped,
}

fn is(a: &[u8], b: &[u8]) -> bool
    ensures { result ≡ bytes_eq a.now b.now }
{
    a == b
}

fn item_word_of(word: &[u8]) -> Option<ItemWord>
    ensures { result ≡ by_bytes word.now spec.item_words }
{
    if is(word, b"provides") {
        Some(ItemWord::Provides)
    } else if is(word, b"requires") {
        Some(ItemWord::Requires)
    } else if is(word, b"var") {
        Some(ItemWord::Var)
    } else if is(word, b"slot") {
        Some(ItemWord::Slot)
    } else if is(word, b"channel") {
        Some(ItemWord::Channel)
    } else if is(word, b"on") {
        Some(ItemWord::On)
    } else {
        None
    }
}

fn next_item_word(reader: &Reader<'_>) -> Option<ItemWord>
    ensures { result ≡ word_among spec.item_words (first reader.now) }
{
    match reader.next_word() {
        Some(word) => item_word_of(word.bytes),
        None => None,
    }
}

/// Takes the word that a declaration has to begin with.
#[tactic(auto, using(crate::proofs::WordSteps::item_word_found, crate::proofs::WordSteps::item_word_missing))]
pub fn take_item_word(reader: &mut Reader<'_>) -> Result<ItemWord, Stop>
    ensures { Reads (spec.item_word reader.old) result reader.new }
{
    match next_item_word(reader) {
        Some(word) => {
            reader.skip();
            Ok(word)
        }
        None => Err(Stop::Refused),
    }
}

fn on_word_of(word: &[u8]) -> Option<OnWord>
    ensures { result ≡ by_bytes word.now spec.on_words }
{
    if is(word, b"init") {
        Some(OnWord::Init)
    } else if is(word, b"start") {
        Some(OnWord::Start)
    } else if is(word, b"stop") {
        Some(OnWord::Stop)
    } else if is(word, b"fault") {
        Some(OnWord::Fault)
    } else if is(word, b"dumped") {
        Some(OnWord::Dumped)
    } else {
        None
    }
}

fn next_on_word(reader: &Reader<'_>) -> Option<OnWord>
    ensures { result ≡ word_among spec.on_words (first reader.now) }
{
    match reader.next_word() {
        Some(word) => on_word_of(word.bytes),
        None => None,
    }
}

/// Takes the word that says what a handler handles, if that is no event.
#[tactic(auto, using(crate::proofs::WordSteps::on_word_found, crate::proofs::WordSteps::on_word_missing))]
pub fn take_on_word(reader: &mut Reader<'_>) -> Option<OnWord>
    ensures { may (word_among spec.on_words) reader.old ≡ Read result reader.new }
{
    let found = next_on_word(reader);
    if found.is_some() {
        reader.skip();
    }
    found
}

fn relation_of(sign: &[u8]) -> Option<Op>
    ensures { result ≡ by_bytes sign.now spec.relations }
{
    if is(sign, b"==") {
        Some(Op::Eq)
    } else if is(sign, b"!=") {
        Some(Op::Ne)
    } else if is(sign, b"<") {
        Some(Op::Lt)
    } else if is(sign, b"<=") {
        Some(Op::Le)
    } else if is(sign, b">") {
        Some(Op::Gt)
    } else if is(sign, b">=") {
        Some(Op::Ge)
    } else {
        None
    }
}

fn next_relation(reader: &Reader<'_>) -> Option<Op>
    ensures { result ≡ spec.relation_in (first reader.now) }
{
    match reader.next_sign() {
        Some(sign) => relation_of(sign),
        None => None,
    }
}

/// Takes the comparison that has to come next.
#[tactic(auto, using(crate::proofs::WordSteps::relation_found, crate::proofs::WordSteps::relation_missing))]
pub fn take_relation(reader: &mut Reader<'_>) -> Result<Op, Stop>
    ensures { Reads (spec.relation reader.old) result reader.new }
{
    match next_relation(reader) {
        Some(relation) => {
            reader.skip();
            Ok(relation)
        }
        None => Err(Stop::Refused),
    }
}
