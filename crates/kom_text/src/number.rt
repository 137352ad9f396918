ghost use Rattle.std.specs.Prelude.{◌≡◌, ◌≤◌, pos, true, SomeIff};
ghost use Rattle.kom_text.specs.Pieces.{is_number};
ghost use Rattle.kom_text.specs.Numbers.{decimal, greatest};

/// The value of a run of decimal digits; `None` exactly where it is over 9223372036854775807.
pub fn number_value(digits: &[u8]) -> Option<i64>
    requires { is_number digits.now ≡ true }
    ensures { SomeIff result (decimal digits.now ≤ greatest) (pos (decimal digits.now)) }
{
    let mut value: u64 = 0;
    for d in digits {
        let digit = (*d - b'0') as u64;
        if value > (9223372036854775807 - digit) / 10 {
            return None;
        }
        value = value * 10 + digit;
    }
    Some(value as i64)
}
