/// What a token is: a word, a number or a sign.
#[derive(Clone, Copy, Debug, PartialEq, Eq)]
pub enum TokenKind {
    Word,
    Number,
    Sign,
}

/// A token: its kind and its part of the text, from byte `from` up to before byte `until`.
#[derive(Clone, Copy, Debug, PartialEq, Eq)]
pub struct Token {
    pub kind: TokenKind,
    pub from: u32,
    pub until: u32,
}

/// What `tokens` answers.
#[derive(Debug, Drop)]
pub enum Tokens {
    /// All tokens of the text, in order.
    List(Vec<Token>),
    /// The first byte that no token, blank or comment covers.
    BadByte { at: u32 },
    /// Where no byte is bad: the first number over 9223372036854775807.
    NumberTooBig { at: u32 },
    /// Want of memory.
    Memory,
}
