ghost use Rattle.std.specs.Prelude.{◌≡◌, ◌<◌, ◌≤◌, [], length, bytes_eq, option_map, None};
ghost use Rattle.std.specs.Option.{option_copied};
ghost use Rattle.kom_text.specs.declared.token.TokenKind.{TokenKind};
ghost use Rattle.kom_text.specs.Answers.{IsReadTo};
ghost use Rattle.kom_parse.specs.Lexemes.{lexemes, AreTokensOf};
ghost use Rattle.kom_parse.specs.Input.{Reads, Read, first};
ghost use Rattle.kom_parse.specs.Input as input;
ghost use Rattle.kom_parse.specs.Rules as rules;

use crate::numeral::{Numeral, WordAt};
use crate::stop::Stop;
use kom_lang::Name;
use kom_system::Spot;
use kom_text::{Token, TokenKind, number_value};
use std::alloc::Global;
use std::marker::Model;

/// The tokens of a text that are not read yet. Where a rule refuses, the refused token is the
/// first of them.
#[derive(Drop)]
pub struct Reader<'t> {
    pub alloc: Global,
    text: &'t [u8],
    rest: &'t [Token],
}

impl<'t> Model for Reader<'t> {
    ghost use Rattle.std.specs.Prelude.{List};
    ghost use Rattle.kom_parse.specs.Lexemes.{Lexeme, lexemes, AreTokensOf};

    ghost Value = { List Lexeme };

    ghost view = { λ r. lexemes r.text.now r.rest.now };

    ghost invariant = { λ r. AreTokensOf r.text.now r.rest.now };
}

fn is_kind(a: TokenKind, b: TokenKind) -> bool
    ensures { result ≡ rules.is_kind a b }
{
    a == b
}

fn is_same(a: &[u8], b: &[u8]) -> bool
    ensures { result ≡ bytes_eq a.now b.now }
{
    a == b
}

impl<'t> Reader<'t> {
    /// A reader of all tokens of a text.
    pub fn new(alloc: Global, text: &'t [u8], tokens: &'t [Token]) -> Reader<'t>
        requires { IsReadTo text.now [] tokens.now None (length text.now) }
        ensures { result ≡ lexemes text.now tokens.now }
    {
        Reader {
            alloc,
            text,
            rest: tokens,
        }
    }

    /// How many tokens are not read yet.
    pub fn left(&self) -> usize
        ensures { result ≡ length self.now }
    {
        self.rest.len()
    }

    /// Whether the next token is of this kind and has these bytes.
    pub fn sees(&self, kind: TokenKind, bytes: &[u8]) -> bool
        ensures { result ≡ rules.is_exactly kind bytes.now (first self.now) }
    {
        match self.rest {
            [token, ..] => {
                is_kind(token.kind, kind)
                    && is_same(&self.text[token.from as usize..token.until as usize], bytes)
            }
            [] => false,
        }
    }

    fn next_exactly(&self, kind: TokenKind, bytes: &[u8]) -> Option<u32>
        ensures { result ≡ rules.exactly_in kind bytes.now (first self.now) }
    {
        match self.rest {
            [token, ..]
                if is_kind(token.kind, kind)
                    && is_same(&self.text[token.from as usize..token.until as usize], bytes) => {
                Some(token.from)
            }
            _ => None,
        }
    }

    /// Takes the next token, if there is one.
    pub fn skip(&mut self)
        ensures { self.new ≡ input.rest self.old }
    {
        if let [_, rest @ ..] = self.rest {
            self.rest = rest;
        }
    }

    /// Takes the token that has to come next, and gives its place.
    #[tactic(auto, using(crate::proofs::Steps::exactly_found, crate::proofs::Steps::exactly_missing))]
    pub fn exactly(&mut self, kind: TokenKind, bytes: &[u8]) -> Result<u32, Stop>
        ensures { Reads (rules.exactly kind bytes.now self.old) result self.new }
    {
        match self.next_exactly(kind, bytes) {
            Some(at) => {
                self.skip();
                Ok(at)
            }
            None => Err(Stop::Refused),
        }
    }

    /// Takes the word that has to come next, and gives its place.
    pub fn word(&mut self, bytes: &[u8]) -> Result<u32, Stop>
        ensures { Reads (rules.exactly TokenKind.Word bytes.now self.old) result self.new }
    {
        self.exactly(TokenKind::Word, bytes)
    }

    /// Takes the sign that has to come next, and gives its place.
    pub fn sign(&mut self, bytes: &[u8]) -> Result<u32, Stop>
        ensures { Reads (rules.exactly TokenKind.Sign bytes.now self.old) result self.new }
    {
        self.exactly(TokenKind::Sign, bytes)
    }

    /// Takes the token, if it comes next, and says whether it did.
    #[tactic(auto, using(crate::proofs::Steps::eat_found, crate::proofs::Steps::eat_missing))]
    pub fn eat(&mut self, kind: TokenKind, bytes: &[u8]) -> bool
        ensures { rules.eat kind bytes.now self.old ≡ Read result self.new }
    {
        let found = self.sees(kind, bytes);
        if found {
            self.skip();
        }
        found
    }

    /// The word that comes next, if one does.
    pub fn next_word(&self) -> Option<WordAt<'t>>
        ensures { option_map rules.spot_of result ≡ rules.name_in rules.any (first self.now) }
    {
        match self.rest {
            [token, ..] if is_kind(token.kind, TokenKind::Word) => Some(WordAt {
                bytes: &self.text[token.from as usize..token.until as usize],
                at: token.from,
            }),
            _ => None,
        }
    }

    /// The bytes of the sign that comes next, if one does.
    pub fn next_sign(&self) -> Option<&'t [u8]>
        ensures { option_map (λ s. s.now) result ≡ rules.sign_in (first self.now) }
    {
        match self.rest {
            [token, ..] if is_kind(token.kind, TokenKind::Sign) => {
                Some(&self.text[token.from as usize..token.until as usize])
            }
            _ => None,
        }
    }

    /// Takes the word that has to come next, whatever its bytes. A grammar that reserves words
    /// looks at `next_word` first.
    #[tactic(auto, using(crate::proofs::Steps::word_found, crate::proofs::Steps::word_missing))]
    pub fn any_word(&mut self) -> Result<Spot, Stop>
        ensures { Reads (rules.name rules.any self.old) result self.new }
    {
        match self.next_word() {
            Some(word) => {
                let name = Name::of(self.alloc, word.bytes)?;
                self.skip();
                Ok(Spot { name, at: word.at })
            }
            None => Err(Stop::Refused),
        }
    }

    /// The number that comes next, if one does.
    pub fn next_number(&self) -> Option<Numeral>
        ensures { result ≡ rules.number_in (first self.now) }
    {
        match self.rest {
            [token, ..] if is_kind(token.kind, TokenKind::Number) => {
                let digits = &self.text[token.from as usize..token.until as usize];
                let value = number_value(digits)?;
                let at = token.from;
                Some(Numeral { value, at })
            }
            _ => None,
        }
    }

    /// Takes the number that has to come next.
    #[tactic(auto, using(crate::proofs::Steps::number_found, crate::proofs::Steps::number_missing))]
    pub fn number(&mut self) -> Result<Numeral, Stop>
        ensures { Reads (rules.number self.old) result self.new }
    {
        match self.next_number() {
            Some(number) => {
                self.skip();
                Ok(number)
            }
            None => Err(Stop::Refused),
        }
    }
}
