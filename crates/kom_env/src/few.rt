ghost use Rattle.std.specs.Prelude.{◌≡◌, ◌≤◌, [], ◌∷◌, pos, IfOk, length, slice_index_or};
ghost use Rattle.kom_env.specs.Firsts.{first_of};

use kom_base::Values;
use std::alloc::{AllocError, Global};
use std::marker::Model;

/// At most eight values, with no memory of their own. Contracts see the list of them.
#[derive(Debug, Drop)]
pub struct Few {
    items: [i64; 8],
    len: usize,
}

impl Model for Few {
    ghost use Rattle.std.specs.Prelude.{◌≤◌, List, ℤ, take};

    ghost Value = { List ℤ };

    ghost view = { λ f. take f.len f.items };

    ghost invariant = { λ f. f.len ≤ 8 };
}

impl Few {
    /// The same values.
    pub fn of(values: &Values) -> Few
        requires { length values.now ≤ 8 }
        ensures { result ≡ values.now }
    {
        let len = values.len();
        let mut items = [0; 8];
        for i in 0..len {
            items[i] = value_at(values, i);
        }
        Few { items, len }
    }

    /// One value.
    pub fn one(value: i64) -> Few
        ensures { result ≡ value ∷ [] }
    {
        Few {
            items: [value, 0, 0, 0, 0, 0, 0, 0],
            len: 1,
        }
    }

    /// The first value, 0 where there is none.
    pub fn first(&self) -> i64
        ensures { result ≡ first_of self.now }
    {
        if self.len == 0 { 0 } else { self.items[0] }
    }

    /// The same values in memory of their own. The error is want of memory.
    pub fn values(&self, alloc: Global) -> Result<Values, AllocError>
        ensures { IfOk result (λ v. v ≡ self.now) }
    {
        let mut values = Values::new(alloc);
        for value in &self.items[..self.len] {
            values.push(*value)?;
        }
        Ok(values)
    }
}

/// The value at a place, 0 where there is none.
pub fn value_at(values: &Values, i: usize) -> i64
    ensures { result ≡ slice_index_or values.now i (pos 0) }
{
    match values.at(i) {
        Some(value) => value,
        None => 0,
    }
}
