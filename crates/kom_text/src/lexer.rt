ghost use Rattle.std.specs.Prelude.{◌≡◌, ◌<◌, ◌^◌, ◌-◌, length, true};
ghost use Rattle.kom_text.specs.Pieces.{is_spelled};
ghost use Rattle.kom_text.specs.Answers.{IsAnswer, too_big_after};

use crate::number::number_value;
use crate::piece::first_piece;
use crate::token::{Token, TokenKind, Tokens};
use std::alloc::Global;

/// The place of the first number that is too big, after one more piece that begins at `from`.
fn first_too_big(
    known: Option<u32>,
    kind: Option<TokenKind>,
    bytes: &[u8],
    from: u32,
) -> Option<u32>
    requires { is_spelled kind bytes.now ≡ true }
    ensures { result ≡ too_big_after known (record { kind = kind; bytes = bytes.now }) from }
{
    match (known, kind) {
        (Some(at), _) => Some(at),
        (None, Some(TokenKind::Number)) => {
            if number_value(bytes).is_none() {
                Some(from)
            } else {
                None
            }
        }
        (None, _) => None,
    }
}

/// The tokens of a text, in one pass: the text is cut into tokens, blanks and comments, the
/// longest each time. It takes no memory but that of the list.
pub fn tokens(alloc: Global, text: &[u8]) -> Tokens
    requires { length text.now < 2 ^ 32 - 1 }
    ensures { IsAnswer text.now result }
{
    let mut list = Vec::new(alloc);
    let mut too_big = None;
    let mut from: u32 = 0;
    let mut rest = text;
    while !rest.is_empty() {
        let Some(piece) = first_piece(rest) else {
            return Tokens::BadByte { at: from };
        };
        let (bytes, after) = rest.split_at(piece.len);
        let until = from + piece.len as u32;
        too_big = first_too_big(too_big, piece.kind, bytes, from);
        if let Some(kind) = piece.kind {
            if list.push(Token { kind, from, until }).is_err() {
                return Tokens::Memory;
            }
        }
        rest = after;
        from = until;
    }
    match too_big {
        Some(at) => Tokens::NumberTooBig { at },
        None => Tokens::List(list),
    }
}
