ghost use Rattle.std.specs.Prelude.{◌≡◌, ◌+ℤ◌, ◌-ℤ◌, ◌*ℤ◌, neg_ℤ};
ghost use Rattle.kom_lang.specs.Values.{in_range, combined};
ghost use Rattle.kom_lang.specs.Values as spec;

use crate::fault;
use kom_lang::Binary;

/// The sum, or the fault of an overflow. No operation here takes memory.
pub fn sum(a: i64, b: i64) -> Result<i64, u16>
    ensures { result ≡ in_range (a +ℤ b) }
{
    a.checked_add(b).ok_or(fault::OVERFLOW)
}

/// The difference, or the fault of an overflow.
pub fn difference(a: i64, b: i64) -> Result<i64, u16>
    ensures { result ≡ in_range (a -ℤ b) }
{
    a.checked_sub(b).ok_or(fault::OVERFLOW)
}

/// The product, or the fault of an overflow.
pub fn product(a: i64, b: i64) -> Result<i64, u16>
    ensures { result ≡ in_range (a *ℤ b) }
{
    a.checked_mul(b).ok_or(fault::OVERFLOW)
}

/// The inverse, or the fault of an overflow: that of the least number.
pub fn negated(a: i64) -> Result<i64, u16>
    ensures { result ≡ in_range (neg_ℤ a) }
{
    a.checked_neg().ok_or(fault::OVERFLOW)
}

/// The quotient, cut towards zero, or the fault of a division by zero or of an overflow: that of
/// the least number by -1.
pub fn quotient(a: i64, b: i64) -> Result<i64, u16>
    ensures { result ≡ combined Binary.Div a b }
{
    if b == 0 {
        return Err(fault::DIVISION_BY_ZERO);
    }
    a.checked_div(b).ok_or(fault::OVERFLOW)
}

/// The remainder, with the sign of `a`, or the fault that the quotient has.
pub fn remainder(a: i64, b: i64) -> Result<i64, u16>
    ensures { result ≡ combined Binary.Rem a b }
{
    if b == 0 {
        return Err(fault::DIVISION_BY_ZERO);
    }
    a.checked_rem(b).ok_or(fault::OVERFLOW)
}

/// What a comparison gives: 1 or 0.
pub fn truth(b: bool) -> i64
    ensures { result ≡ spec.truth b }
{
    if b { 1 } else { 0 }
}

/// A binary operator on the values of both sides, where the left one does not decide alone.
pub fn combine(op: Binary, a: i64, b: i64) -> Result<i64, u16>
    ensures { result ≡ combined op a b }
{
    match op {
        Binary::Or | Binary::And => Ok(truth(b != 0)),
        Binary::Eq => Ok(truth(a == b)),
        Binary::Ne => Ok(truth(a != b)),
        Binary::Lt => Ok(truth(a < b)),
        Binary::Le => Ok(truth(a <= b)),
        Binary::Gt => Ok(truth(a > b)),
        Binary::Ge => Ok(truth(a >= b)),
        Binary::Add => sum(a, b),
        Binary::Sub => difference(a, b),
        Binary::Mul => product(a, b),
        Binary::Div => quotient(a, b),
        Binary::Rem => remainder(a, b),
    }
}

/// Whether the value of the left side decides alone: in `a || b` where it is not 0, in `a && b`
/// where it is.
pub fn decides(op: Binary, a: i64) -> bool
    ensures { result ≡ spec.decided op a }
{
    match op {
        Binary::Or => a != 0,
        Binary::And => a == 0,
        _ => false,
    }
}
