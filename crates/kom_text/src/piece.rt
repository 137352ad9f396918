ghost use Rattle.std.specs.Prelude.{◌≡◌, ◌≤◌, ◌<◌, ◌^◌, ◌-◌, ◌+◌, length, [], ◌∷◌};
ghost use Rattle.kom_text.specs.Pieces.{is_word_start, is_word_byte, is_not_newline, is_blank, is_sign_byte, is_sign_pair};
ghost use Rattle.kom_text.specs.Places.{lead};
ghost use Rattle.kom_text.specs.Found.{found, of_len, is_in, is_pair, IsFirst};

use crate::token::TokenKind;

/// The first piece of a text: a token of a kind, or a blank or a comment, and how many bytes.
#[derive(Clone, Copy, Debug)]
pub struct Found {
    pub kind: Option<TokenKind>,
    pub len: usize,
}

/// The bytes that go on in a piece of more than two bytes.
#[derive(Clone, Copy, Debug)]
pub enum Run {
    Word,
    Digits,
    Comment,
}

fn is_word_start(b: u8) -> bool
    ensures { result ≡ is_word_start b }
{
    b.is_ascii_alphabetic() || b == b'_'
}

fn is_blank(b: u8) -> bool
    ensures { result ≡ is_blank b }
{
    b == b' ' || b == b'\t' || b == b'\r' || b == b'\n'
}

fn is_sign_byte(b: u8) -> bool
    ensures { result ≡ is_sign_byte b }
{
    matches!(
        b,
        b'{' | b'}'
            | b'('
            | b')'
            | b','
            | b';'
            | b':'
            | b'.'
            | b'='
            | b'<'
            | b'>'
            | b'+'
            | b'-'
            | b'*'
            | b'/'
            | b'%'
            | b'!'
    )
}

fn is_sign_pair(b: u8, c: u8) -> bool
    ensures { result ≡ is_sign_pair b c }
{
    c == b'=' && (b == b'=' || b == b'!' || b == b'<' || b == b'>')
        || b == b'&' && c == b'&'
        || b == b'|' && c == b'|'
}

fn is_in(run: Run, b: u8) -> bool
    ensures { result ≡ is_in run b }
{
    match run {
        Run::Word => is_word_start(b) || b.is_ascii_digit(),
        Run::Digits => b.is_ascii_digit(),
        Run::Comment => b != b'\n',
    }
}

/// How many bytes at the front of the text are of the run.
fn run_len(run: Run, text: &[u8]) -> usize
    ensures value { result ≡ lead (is_in run) text.now }
    ensures within { result ≤ length text.now }
{
    for (i, b) in text.iter().enumerate() {
        if !is_in(run, *b) {
            return i;
        }
    }
    text.len()
}

fn is_pair(b: u8, after: &[u8]) -> bool
    ensures { result ≡ is_pair b after.now }
{
    match after {
        [c, ..] => is_sign_pair(b, *c),
        [] => false,
    }
}

fn token(kind: TokenKind, len: usize) -> Option<Found>
    ensures { result ≡ of_len (Some kind) len }
{
    Some(Found {
        kind: Some(kind),
        len,
    })
}

fn gap(len: usize) -> Option<Found>
    ensures { result ≡ of_len None len }
{
    Some(Found { kind: None, len })
}

fn find_piece(b: u8, after: &[u8]) -> Option<Found>
    requires { length after.now < 2 ^ 32 - 1 }
    ensures { result ≡ found b after.now }
{
    if is_blank(b) {
        gap(1)
    } else if b == b'#' {
        gap(1 + run_len(Run::Comment, after))
    } else if is_word_start(b) {
        token(TokenKind::Word, 1 + run_len(Run::Word, after))
    } else if b.is_ascii_digit() {
        token(TokenKind::Number, 1 + run_len(Run::Digits, after))
    } else if is_pair(b, after) {
        token(TokenKind::Sign, 2)
    } else if is_sign_byte(b) {
        token(TokenKind::Sign, 1)
    } else {
        None
    }
}

/// The longest piece at the front of the text; `None` where its first byte begins none.
pub fn first_piece(text: &[u8]) -> Option<Found>
    requires { length text.now < 2 ^ 32 - 1 }
    ensures { IsFirst text.now result }
{
    match text {
        [b, after @ ..] => find_piece(*b, after),
        [] => None,
    }
}
