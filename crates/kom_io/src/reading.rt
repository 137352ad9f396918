ghost use Rattle.std.specs.Prelude.{◌≡◌, ◌≢◌, ◌+◌, ◌<◌, ◌≤◌, ◌++◌, ℕ, List, Some, IsSome, IfSome, length, vec_len};
ghost use Rattle.std.specs.Option.{option_map};
ghost use Rattle.kom_io.specs.Faults.{Rose, RisesOnlyAt};
ghost use Rattle.kom_io.specs.Texts.{IsText, IsTurn};

use crate::shelves::{Got, Opened, Shelf};
use std::alloc::Global;

/// The answer of [`read_text`].
#[derive(Debug, Drop)]
pub enum TextRead {
    /// The whole file.
    Text(Vec<u8>),
    /// More bytes than the limit came before the end.
    TooLong,
    /// The shelf failed, and its count of faults of the name rose.
    ReadFault,
    /// Want of memory.
    Memory,
}

/// Reads the whole file of a name, of at most `limit` bytes.
///
/// The file stays opened, and after an answer other than `Text` it may be read in part.
pub fn read_text<S: Shelf>(alloc: Global, shelf: &mut S, name: &str, limit: usize) -> TextRead
    ensures text { IsText result (S.file shelf.old name.now) limit (S.left shelf.new) }
    ensures fault { result ≡ TextRead.ReadFault → Rose (S.count shelf.old name.now) (S.count shelf.new name.now) }
    ensures opened { result ≢ TextRead.ReadFault → S.opened shelf.new ≡ Some name.now }
    ensures counts { RisesOnlyAt name.now (S.count shelf.old) (S.count shelf.new) }
    ensures files { (n : List ℕ) → S.file shelf.new n ≡ S.file shelf.old n }
{
    read_in_turns(alloc, shelf, name, limit).answer
}

/// What a loop of reads answered, and how many of its turns came before the last.
#[derive(Drop)]
struct InTurns {
    answer: TextRead,
    before_last: usize,
}

/// What one turn came to.
#[derive(Clone, Copy, Debug, PartialEq, Eq)]
enum Turn {
    More,
    End,
    TooLong,
    Fault,
    Memory,
}

/// Each turn but the last takes at least one byte, so there are at most `limit + 2` of them.
fn read_in_turns<S: Shelf>(alloc: Global, shelf: &mut S, name: &str, limit: usize) -> InTurns
    ensures text { IsText result.answer (S.file shelf.old name.now) limit (S.left shelf.new) }
    ensures fault { result.answer ≡ TextRead.ReadFault → Rose (S.count shelf.old name.now) (S.count shelf.new name.now) }
    ensures opened { result.answer ≢ TextRead.ReadFault → S.opened shelf.new ≡ Some name.now }
    ensures counts { RisesOnlyAt name.now (S.count shelf.old) (S.count shelf.new) }
    ensures files { (n : List ℕ) → S.file shelf.new n ≡ S.file shelf.old n }
    ensures turns { result.before_last + 1 ≤ limit + 2 }
{
    let mut text = Vec::new(alloc);
    let mut before_last = 0;
    if let Opened::Failed = shelf.open_file(name) {
        return InTurns {
            answer: TextRead::ReadFault,
            before_last,
        };
    }
    'turns: loop {
        let answer = match take_piece(shelf, &mut text, limit) {
            Turn::More => {
                before_last += 1;
                continue 'turns;
            }
            Turn::End => TextRead::Text(text),
            Turn::TooLong => TextRead::TooLong,
            Turn::Fault => TextRead::ReadFault,
            Turn::Memory => TextRead::Memory,
        };
        return InTurns {
            answer,
            before_last,
        };
    }
}

/// Takes the next bytes of the opened file to the end of the text, where they fit the limit.
fn take_piece<S: Shelf>(shelf: &mut S, text: &mut Vec<u8>, limit: usize) -> Turn
    requires file { IsSome (S.opened shelf.old) }
    requires within { vec_len text.old ≤ limit }
    ensures turn { IsTurn result limit text.old.items text.new.items (S.left shelf.old) (S.left shelf.new) }
    ensures fault { result ≡ Turn.Fault → IfSome (S.opened shelf.old) (λ name. Rose (S.count shelf.old name) (S.count shelf.new name)) }
    ensures opened { S.opened shelf.new ≡ S.opened shelf.old }
    ensures counts { IfSome (S.opened shelf.old) (λ name. RisesOnlyAt name (S.count shelf.old) (S.count shelf.new)) }
    ensures files { (n : List ℕ) → S.file shelf.new n ≡ S.file shelf.old n }
{
    let mut buf = [0u8; 4096];
    match shelf.read(&mut buf) {
        Got::End => Turn::End,
        Got::Failed => Turn::Fault,
        Got::Bytes(n) => {
            if n > limit - text.len() {
                return Turn::TooLong;
            }
            match text.extend_from_slice(&buf[..n]) {
                Ok(()) => Turn::More,
                Err(_) => Turn::Memory,
            }
        }
    }
}
