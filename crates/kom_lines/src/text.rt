ghost use Rattle.std.specs.Prelude.{◌≡◌, ◌<◌, ℤ, [], ◌++◌, Some, OnOk, length, slice_get};
ghost use Rattle.std.specs.Fmt.{decimal, signed_decimal};
ghost use Rattle.kom_record.specs.Trace.{word, number, numbers, dotted};

use itoa::Buffer;
use kom_base::Values;
use std::alloc::{AllocError, Global};
use std::marker::Model;

/// A text that grows at its end. Contracts see it as its bytes. After want of memory nothing is
/// said of the text.
#[derive(Drop)]
pub struct Text {
    bytes: Vec<u8>,
}

impl Model for Text {
    ghost use Rattle.std.specs.Prelude.{List, ℕ};

    ghost Value = { List ℕ };

    ghost view = { λ t. t.bytes.items };
}

impl Text {
    /// The empty text. It takes no memory.
    pub fn new(alloc: Global) -> Text
        ensures { result ≡ [] }
    {
        Text {
            bytes: Vec::new(alloc),
        }
    }

    /// Adds bytes.
    pub fn add(&mut self, bytes: &[u8]) -> Result<(), AllocError>
        ensures { OnOk result (self.new ≡ self.old ++ bytes.now) }
    {
        self.bytes.extend_from_slice(bytes)
    }

    /// Adds a number in decimal.
    pub fn add_decimal(&mut self, n: u64) -> Result<(), AllocError>
        ensures { OnOk result (self.new ≡ self.old ++ decimal n) }
    {
        let mut digits = Buffer::new();
        self.add(digits.format(n).as_bytes())
    }

    /// Adds a space and bytes.
    pub fn add_word(&mut self, bytes: &[u8]) -> Result<(), AllocError>
        ensures { OnOk result (self.new ≡ self.old ++ word bytes.now) }
    {
        self.bytes.push(b' ')?;
        self.add(bytes)
    }

    /// Adds a space and a number.
    pub fn add_number(&mut self, n: u64) -> Result<(), AllocError>
        ensures { OnOk result (self.new ≡ self.old ++ number n) }
    {
        self.bytes.push(b' ')?;
        self.add_decimal(n)
    }

    /// Adds a space and a signed number.
    fn add_signed(&mut self, n: i64) -> Result<(), AllocError>
        ensures { OnOk result (self.new ≡ self.old ++ word (signed_decimal n)) }
    {
        let mut digits = Buffer::new();
        self.add_word(digits.format(n).as_bytes())
    }

    /// Adds a space and two names with a dot between them.
    pub fn add_dotted(&mut self, before: &[u8], after: &[u8]) -> Result<(), AllocError>
        ensures { OnOk result (self.new ≡ self.old ++ word (dotted before.now after.now)) }
    {
        self.add_word(before)?;
        self.add(b".")?;
        self.add(after)
    }

    /// Adds the value at a place.
    fn add_value_at(&mut self, values: &Values, i: usize) -> Result<(), AllocError>
        requires { i < length values.now }
        ensures { OnOk result ((v : ℤ) → slice_get values.now i ≡ Some v → self.new ≡ self.old ++ word (signed_decimal v)) }
    {
        match values.at(i) {
            Some(n) => self.add_signed(n),
            None => unreachable!(),
        }
    }

    /// Adds each of the values, with a space before it.
    pub fn add_numbers(&mut self, values: &Values) -> Result<(), AllocError>
        ensures { OnOk result (self.new ≡ self.old ++ numbers values.now) }
    {
        for i in 0..values.len() {
            self.add_value_at(values, i)?;
        }
        Ok(())
    }

    /// Takes all bytes out, and keeps their memory for what is added next.
    pub fn clear(&mut self)
        ensures { self.new ≡ [] }
    {
        self.bytes.clear();
    }

    /// The bytes.
    pub fn as_bytes(&self) -> &[u8]
        ensures { result.now ≡ self.now }
    {
        self.bytes.as_slice()
    }
}
