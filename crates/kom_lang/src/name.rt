ghost use Rattle.std.specs.Prelude.{◌≡◌, IfOk};

use kom_base::Copied;
use sqlite_items::Items;
use std::alloc::{AllocError, Global};
use std::marker::Model;

/// A declared name. Contracts see its bytes.
#[derive(Debug, Drop)]
pub struct Name {
    bytes: Items<u8>,
}

impl Model for Name {
    ghost use Rattle.std.specs.Prelude.{List, ℕ};

    ghost Value = { List ℕ };

    ghost view = { λ name. name.bytes };
}

impl Name {
    /// The name with these bytes.
    pub fn of(alloc: Global, bytes: &[u8]) -> Result<Name, AllocError>
        ensures { IfOk result (λ name. name ≡ bytes.now) }
    {
        Ok(Name {
            bytes: Items::from_slice(alloc, bytes)?,
        })
    }

    /// The bytes of the name. It takes no memory.
    pub fn bytes(&self) -> &[u8]
        ensures { result.now ≡ self.now }
    {
        self.bytes.as_slice()
    }
}

impl Copied for Name {
    fn copy(&self, alloc: Global) -> Result<Name, AllocError> {
        Name::of(alloc, self.bytes())
    }
}

/// A list of names. Contracts see the list.
pub type Names = Items<Name>;
