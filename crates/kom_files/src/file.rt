ghost use Rattle.std.specs.Prelude.{◌≡◌, ◌≤◌, ◌-◌, length};
ghost use Rattle.kom_files.specs.Files.{place_at};

use kom_parse::Reader;
use kom_text::Token;

/// What the reader of a file answers.
#[derive(Debug, Drop)]
pub enum FileRead<T: Drop> {
    /// The syntax tree that the tokens of the text spell.
    Tree(T),
    /// The least broken rule of 2 to 5, with the byte place where it is broken first: 2 where a
    /// byte is bad, 3 where a number is over 9223372036854775807, 4 where the text does not begin
    /// with its header, 5 where the tokens are no file of the grammar.
    Refused { rule: u8, at: u32 },
    /// Want of memory.
    Memory,
}

/// The place of a token by its number, or of the end where there is none.
pub fn place_at(tokens: &[Token], end: u32, k: usize) -> u32
    ensures { result ≡ place_at tokens.now end k }
{
    match tokens.get(k) {
        Some(token) => token.from,
        None => end,
    }
}

/// The place of the token that comes next, of those of a text that ends at a place.
pub fn place_of_next(tokens: &[Token], end: u32, reader: &Reader<'_>) -> u32
    requires { length reader.now ≤ length tokens.now }
    ensures { result ≡ place_at tokens.now end (length tokens.now - length reader.now) }
{
    place_at(tokens, end, tokens.len() - reader.left())
}
