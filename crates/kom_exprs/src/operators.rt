ghost use Rattle.std.specs.Prelude.{◌≡◌, bytes_eq};
ghost use Rattle.kom_grammar.specs.Words.{level_of};
ghost use Rattle.kom_exprs.specs.Reading.{unary_of, binary_of, of_level};

use kom_lang::Binary;

/// A unary operator.
#[derive(Clone, Copy, Debug, PartialEq, Eq)]
pub enum Unary {
    Neg,
    Not,
}

fn is(a: &[u8], b: &[u8]) -> bool
    ensures { result ≡ bytes_eq a.now b.now }
{
    a == b
}

/// The unary operator that is written so.
pub fn unary_of(sign: &[u8]) -> Option<Unary>
    ensures { result ≡ unary_of sign.now }
{
    if is(sign, b"-") {
        Some(Unary::Neg)
    } else if is(sign, b"!") {
        Some(Unary::Not)
    } else {
        None
    }
}

/// The binary operator that is written so.
pub fn binary_of(sign: &[u8]) -> Option<Binary>
    ensures { result ≡ binary_of sign.now }
{
    if is(sign, b"||") {
        Some(Binary::Or)
    } else if is(sign, b"&&") {
        Some(Binary::And)
    } else if is(sign, b"==") {
        Some(Binary::Eq)
    } else if is(sign, b"!=") {
        Some(Binary::Ne)
    } else if is(sign, b"<") {
        Some(Binary::Lt)
    } else if is(sign, b"<=") {
        Some(Binary::Le)
    } else if is(sign, b">") {
        Some(Binary::Gt)
    } else if is(sign, b">=") {
        Some(Binary::Ge)
    } else if is(sign, b"+") {
        Some(Binary::Add)
    } else if is(sign, b"-") {
        Some(Binary::Sub)
    } else if is(sign, b"*") {
        Some(Binary::Mul)
    } else if is(sign, b"/") {
        Some(Binary::Div)
    } else if is(sign, b"%") {
        Some(Binary::Rem)
    } else {
        None
    }
}

/// How tightly an operator binds: 1 binds most, 5 least.
pub fn level_of(op: Binary) -> u8
    ensures { result ≡ level_of op }
{
    match op {
        Binary::Or => 5,
        Binary::And => 4,
        Binary::Eq | Binary::Ne | Binary::Lt | Binary::Le | Binary::Gt | Binary::Ge => 3,
        Binary::Add | Binary::Sub => 2,
        Binary::Mul | Binary::Div | Binary::Rem => 1,
    }
}

/// The binary operator of a level that is written so.
pub fn binary_of_level(sign: &[u8], level: u8) -> Option<Binary>
    ensures { result ≡ of_level level (binary_of sign.now) }
{
    match binary_of(sign) {
        Some(op) if level_of(op) == level => Some(op),
        _ => None,
    }
}
