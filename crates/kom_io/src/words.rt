ghost use Rattle.std.specs.Prelude.{◌≡◌, ◌≤◌, [], ◌∷◌, ◌++◌, Some, OnOk, OnErr, MatchOption, length, slice_get};

use std::alloc::{AllocError, Global};
use std::marker::Model;

/// A list of words, as those after the program's name. Contracts see it as the list of the words,
/// each the list of its bytes.
#[derive(Drop)]
pub struct Words {
    items: Vec<String>,
    alloc: Global,
}

impl Model for Words {
    ghost use Rattle.std.specs.Prelude.{List, ℕ, map};
    ghost use Rattle.std.specs.String.{string_bytes};

    ghost Value = { List (List ℕ) };

    ghost view = { λ w. map string_bytes w.items.items };
}

impl Words {
    /// The empty list. It takes no memory.
    pub fn new(alloc: Global) -> Words
        ensures { result ≡ [] }
    {
        Words {
            items: Vec::new(alloc),
            alloc,
        }
    }

    /// Adds a word at the end; on want of memory the list is as before.
    pub fn push(&mut self, word: &str) -> Result<(), AllocError>
        ensures ok { OnOk result (self.new ≡ self.old ++ word.now ∷ []) }
        ensures err { OnErr result (self.new ≡ self.old) }
    {
        let word = String::from_str(self.alloc, word)?;
        self.items.push(word)?;
        Ok(())
    }

    /// How many words there are.
    pub fn len(&self) -> usize
        ensures { result ≡ length self.now }
    {
        self.items.len()
    }

    /// The word at a place, from 0; `None` exactly where the place is not below the length.
    pub fn at(&self, i: usize) -> Option<&str>
        ensures { MatchOption result (length self.now ≤ i) (λ word. slice_get self.now i ≡ Some word.now) }
    {
        match self.items.get(i) {
            None => None,
            Some(word) => Some(word.as_str()),
        }
    }
}
