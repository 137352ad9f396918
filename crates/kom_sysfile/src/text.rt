ghost use Rattle.std.specs.Prelude.{◌≡◌, ◌≤◌, ℕ, length};
ghost use Rattle.kom_text.specs.Places.{line_of, column_of};
ghost use Rattle.kom_system.specs.Contents.{Contents};
ghost use Rattle.kom_sysread.specs.Answers.{IsTreeOf};
ghost use Rattle.kom_sysfile.specs.Answers.{IsSystem, BreaksRule, IsAnswer, Gives, Refuses};

use crate::tree::{Checked, check};
use kom_sysread::{PartsRead, read_parts};
use kom_system::{Parts, System};
use kom_text::place_of;
use std::alloc::Global;

/// What `read_system` answers.
#[derive(Drop)]
pub enum SystemRead {
    /// The system that the text stands for: it breaks no rule.
    System(System),
    /// The least broken rule of 2 to 32, with the line and the column, from 1, where it is broken
    /// first.
    Refused { rule: u8, line: u32, column: u32 },
    /// Want of memory.
    Memory,
}

/// The refusal by a rule at a byte.
fn refused(text: &[u8], rule: u8, at: u32) -> SystemRead
    requires { length text.now ≤ 1048576 }
    ensures { result ≡ SystemRead.Refused rule (line_of text.now at) (column_of text.now at) }
{
    let place = at.min(text.len() as u32);
    let (line, column) = place_of(text, place);
    SystemRead::Refused { rule, line, column }
}

/// The answer for a text with this tree.
fn judged(alloc: Global, text: &[u8], tree: &Parts) -> SystemRead
    requires short { length text.now ≤ 1048576 }
    requires spelled { IsTreeOf text.now tree.now }
    ensures { IsAnswer text.now result }
{
    match check(alloc, tree) {
        Checked::System(system) => SystemRead::System(system),
        Checked::Rule { number, at } => refused(text, number, at),
        Checked::Memory => SystemRead::Memory,
    }
}

fn answer(alloc: Global, text: &[u8]) -> SystemRead
    requires { length text.now ≤ 1048576 }
    ensures { IsAnswer text.now result }
{
    match read_parts(alloc, text) {
        PartsRead::Parts(tree) => judged(alloc, text, &tree),
        PartsRead::Refused { rule, at } => refused(text, rule, at),
        PartsRead::Memory => SystemRead::Memory,
    }
}

/// Reads a system file. The text has at most 1,048,576 bytes.
#[tactic(auto, using(crate::proofs::Exact::gives_all, crate::proofs::Exact::refuses_all))]
pub fn read_system(alloc: Global, text: &[u8]) -> SystemRead
    requires { length text.now ≤ 1048576 }
    // A system is that of the text, and a refusal names a rule that the text breaks.
    ensures answer { IsAnswer text.now result }
    // The system of a text is read, unless memory runs out.
    ensures accepts { (s : Contents) → IsSystem text.now s → Gives result s }
    // A text that breaks a rule is refused by it, unless memory runs out.
    ensures refuses { (rule at : ℕ) → BreaksRule text.now rule at → Refuses result rule (line_of text.now at) (column_of text.now at) }
{
    answer(alloc, text)
}
