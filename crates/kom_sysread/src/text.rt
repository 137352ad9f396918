ghost use Rattle.std.specs.Prelude.{◌≡◌, ◌≤◌, ◌-◌, ℕ, length};
ghost use Rattle.kom_system.specs.declared.parts.Parts.{Parts as Tree};
ghost use Rattle.kom_sysread.specs.Answers.{IsAnswer, IsTreeOf, Breaks, Gives, Refuses, AreTokens, place_at};

use crate::file::{decls, header};
use kom_parse::{Reader, Stop};
use kom_system::Parts;
use kom_text::{Token, Tokens, tokens};
use std::alloc::Global;

const BAD_BYTE: u8 = 2;

const NUMBER_TOO_BIG: u8 = 3;

const HEADER: u8 = 4;

const GRAMMAR: u8 = 5;

/// What `read_parts` answers.
#[derive(Drop)]
pub enum PartsRead {
    /// The syntax tree that the tokens of the text spell.
    Parts(Parts),
    /// The least broken rule of 2 to 5, with the byte place where it is broken first: 2 where a
    /// byte is bad, 3 where a number is over 9223372036854775807, 4 where the text does not begin
    /// with `system`, `1` or `2`, and `;`, 5 where the tokens are no file of the grammar.
    Refused { rule: u8, at: u32 },
    /// Want of memory.
    Memory,
}

/// The place of a token by its number, or of the end where there is none.
fn place_at(tokens: &[Token], end: u32, k: usize) -> u32
    ensures { result ≡ place_at tokens.now end k }
{
    match tokens.get(k) {
        Some(token) => token.from,
        None => end,
    }
}

/// The refusal by a rule at the token that comes next.
fn refused(rule: u8, tokens: &[Token], end: u32, reader: &Reader<'_>) -> PartsRead
    requires { length reader.now ≤ length tokens.now }
    ensures { result ≡ PartsRead.Refused rule (place_at tokens.now end (length tokens.now - length reader.now)) }
{
    let at = place_at(tokens, end, tokens.len() - reader.left());
    PartsRead::Refused { rule, at }
}

/// The tree of a text with these tokens.
fn read_tokens(alloc: Global, text: &[u8], tokens: &[Token]) -> PartsRead
    requires short { length text.now ≤ 1048576 }
    requires cut { AreTokens text.now tokens.now }
    ensures { IsAnswer text.now result }
{
    let end = text.len() as u32;
    let mut reader = Reader::new(alloc, text, tokens);
    let two = match header(&mut reader) {
        Ok(two) => two,
        Err(Stop::Refused) => return refused(HEADER, tokens, end, &reader),
        Err(Stop::Memory) => return PartsRead::Memory,
    };
    match decls(&mut reader, two, end) {
        Ok(parts) => PartsRead::Parts(parts),
        Err(Stop::Refused) => refused(GRAMMAR, tokens, end, &reader),
        Err(Stop::Memory) => PartsRead::Memory,
    }
}

fn read_text(alloc: Global, text: &[u8]) -> PartsRead
    requires { length text.now ≤ 1048576 }
    ensures { IsAnswer text.now result }
{
    match tokens(alloc, text) {
        Tokens::List(list) => read_tokens(alloc, text, list.as_slice()),
        Tokens::BadByte { at } => PartsRead::Refused { rule: BAD_BYTE, at },
        Tokens::NumberTooBig { at } => PartsRead::Refused {
            rule: NUMBER_TOO_BIG,
            at,
        },
        Tokens::Memory => PartsRead::Memory,
    }
}

/// Reads the syntax tree of a system file, in one pass over its tokens. The text has at most
/// 1,048,576 bytes. It takes no memory but that of the tokens and of the tree, and goes no deeper
/// than the limits of blocks and parentheses.
#[tactic(auto, using(crate::proofs::Once::gives_all, crate::proofs::Once::refuses_all))]
pub fn read_parts(alloc: Global, text: &[u8]) -> PartsRead
    requires { length text.now ≤ 1048576 }
    // A tree is that of the text, and a refusal names a rule that the text breaks.
    ensures answer { IsAnswer text.now result }
    // The tree of a text is read, unless memory runs out.
    ensures accepts { (tree : Tree) → IsTreeOf text.now tree → Gives result tree }
    // A text that breaks a rule is refused by it, unless memory runs out.
    ensures refuses { (rule at : ℕ) → Breaks text.now rule at → Refuses result rule at }
{
    read_text(alloc, text)
}
