ghost use Rattle.std.specs.Prelude.{◌≡◌, ℕ, List};
ghost use Rattle.kom_io.specs.Faults.{Rose, RisesOnlyAt};
ghost use Rattle.kom_loading.specs.Loading.{IsLoaded, IsRead};

use kom_io::{Shelf, TextRead, read_text};
use kom_sysfile::{SystemRead, read_system};
use kom_system::System;
use std::alloc::Global;

/// The greatest length of a file, in bytes.
pub(crate) const FILE_LIMIT: usize = 1048576;

/// The answer of [`load_system`].
#[derive(Drop)]
pub enum Loaded {
    /// The system of the file, which breaks no rule.
    System(System),
    /// The least broken rule, with the line and the column, from 1, where it is broken first. A file
    /// of more than 1,048,576 bytes breaks rule 1 at 1:1.
    Refused { rule: u8, line: u32, column: u32 },
    /// The shelf failed, and its count of faults of the name rose.
    ShelfFault,
    /// Want of memory.
    Memory,
}

/// Reads the system file of a name. What is kept is the system alone; the file stays opened.
#[tactic(auto, using(crate::proofs::Broken::over))]
pub fn load_system<S: Shelf>(alloc: Global, shelf: &mut S, name: &str) -> Loaded
    ensures answer { IsLoaded result (S.file shelf.old name.now) }
    ensures fault { result ≡ Loaded.ShelfFault → Rose (S.count shelf.old name.now) (S.count shelf.new name.now) }
    ensures counts { RisesOnlyAt name.now (S.count shelf.old) (S.count shelf.new) }
    ensures files { (n : List ℕ) → S.file shelf.new n ≡ S.file shelf.old n }
{
    let text = match read_text(alloc, shelf, name, FILE_LIMIT) {
        TextRead::Text(text) => text,
        TextRead::TooLong => {
            return Loaded::Refused {
                rule: 1,
                line: 1,
                column: 1,
            };
        }
        TextRead::ReadFault => return Loaded::ShelfFault,
        TextRead::Memory => return Loaded::Memory,
    };
    system_of(alloc, text.as_slice())
}

/// Reads the system of a text. A text of more than 1,048,576 bytes breaks rule 1 at 1:1.
#[tactic(auto, using(crate::proofs::Broken::refused, crate::proofs::Broken::over_limit))]
pub fn system_of(alloc: Global, text: &[u8]) -> Loaded
    ensures { IsRead text.now result }
{
    if text.len() > FILE_LIMIT {
        return Loaded::Refused {
            rule: 1,
            line: 1,
            column: 1,
        };
    }
    match read_system(alloc, text) {
        SystemRead::System(system) => Loaded::System(system),
        SystemRead::Refused { rule, line, column } => Loaded::Refused { rule, line, column },
        SystemRead::Memory => Loaded::Memory,
    }
}
