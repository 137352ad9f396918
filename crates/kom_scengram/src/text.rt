ghost use Rattle.std.specs.Prelude.{◌≡◌, ◌≤◌, ◌-◌, ℕ, length};
ghost use Rattle.kom_files.specs.Files.{Breaks, IsAnswer, IsTreeOf, Gives, Refuses, AreTokens};
ghost use Rattle.kom_scengram.specs.declared.parts.ScenarioParts.{ScenarioParts as Scene};
ghost use Rattle.kom_scengram.specs.Grammar.{SpellsFile};
ghost use Rattle.kom_scengram.specs.Reading.{header_break};

use crate::file::body;
use crate::parts::ScenarioParts;
use kom_files::{FileRead, place_of_next, read_header};
use kom_parse::{Reader, Stop};
use kom_text::{Token, Tokens, tokens};
use std::alloc::Global;

const BAD_BYTE: u8 = 2;

const NUMBER_TOO_BIG: u8 = 3;

const HEADER: u8 = 4;

const GRAMMAR: u8 = 5;

/// The tree of a text with these tokens.
fn read_tokens(alloc: Global, text: &[u8], tokens: &[Token]) -> FileRead<ScenarioParts>
    requires short { length text.now ≤ 1048576 }
    requires cut { AreTokens text.now tokens.now }
    ensures { IsAnswer SpellsFile header_break text.now result }
{
    let end = text.len() as u32;
    let mut reader = Reader::new(alloc, text, tokens);
    match read_header(&mut reader, b"scenario", b"1") {
        Ok(()) => {}
        Err(Stop::Refused) => {
            let at = place_of_next(tokens, end, &reader);
            return FileRead::Refused { rule: HEADER, at };
        }
        Err(Stop::Memory) => return FileRead::Memory,
    }
    match body(&mut reader) {
        Ok(parts) => FileRead::Tree(parts),
        Err(Stop::Refused) => {
            let at = place_of_next(tokens, end, &reader);
            FileRead::Refused { rule: GRAMMAR, at }
        }
        Err(Stop::Memory) => FileRead::Memory,
    }
}

fn read_text(alloc: Global, text: &[u8]) -> FileRead<ScenarioParts>
    requires { length text.now ≤ 1048576 }
    ensures { IsAnswer SpellsFile header_break text.now result }
{
    match tokens(alloc, text) {
        Tokens::List(list) => read_tokens(alloc, text, list.as_slice()),
        Tokens::BadByte { at } => FileRead::Refused { rule: BAD_BYTE, at },
        Tokens::NumberTooBig { at } => FileRead::Refused {
            rule: NUMBER_TOO_BIG,
            at,
        },
        Tokens::Memory => FileRead::Memory,
    }
}

/// Reads the syntax tree of a scenario file, in one pass over its tokens. The text has at most
/// 1,048,576 bytes. It takes no memory but that of the tokens and of the tree.
#[tactic(auto, using(crate::proofs::Exact::gives_all, crate::proofs::Exact::refuses_all))]
pub fn read_scenario_parts(alloc: Global, text: &[u8]) -> FileRead<ScenarioParts>
    requires { length text.now ≤ 1048576 }
    // A tree is that of the text, and a refusal names a rule that the text breaks.
    ensures answer { IsAnswer SpellsFile header_break text.now result }
    // The tree of a text is read, unless memory runs out.
    ensures accepts { (tree : Scene) → IsTreeOf SpellsFile text.now tree → Gives result tree }
    // A text that breaks a rule is refused by it, unless memory runs out.
    ensures refuses { (rule at : ℕ) → Breaks SpellsFile header_break text.now rule at → Refuses result rule at }
{
    read_text(alloc, text)
}
