ghost use Rattle.std.specs.Prelude.{◌≡◌, ◌≤◌, ℕ, List, IfOk, IfSome, length};
ghost use Rattle.kom_io.specs.Names.{count_at, first_count_of};

use crate::counts::{Counts, place_of};
use crate::shelves::{Got, Opened, Shelf};
use crate::sinks::{Put, Sink};
use crate::words::Words;
use std::alloc::{AllocError, Global};
use std::fs;
use std::io::Read;
use std::rt::Files;

/// The files of the system that some words name, with a count of faults for each word. It tells no
/// bytes, and does not open a name that is not among the words.
#[derive(Drop)]
pub struct FileShelf<'a, R: Files> {
    rt: &'a R,
    counts: Counts,
    opened: Option<usize>,
    file: Option<R::File>,
}

impl<'a, R: Files> FileShelf<'a, R> {
    /// A shelf for the files that these words name, without faults.
    pub fn make(rt: &'a R, alloc: Global, words: &Words) -> Result<FileShelf<'a, R>, AllocError>
        ensures { IfOk result (λ s. (n : List ℕ) → count_at s.counts.names s.counts.faults.items n ≡ first_count_of words.now n) }
    {
        Ok(FileShelf {
            rt,
            counts: Counts::of_words(alloc, words)?,
            opened: None,
            file: None,
        })
    }
}

impl<R: Files> Shelf for FileShelf<'_, R> {
    ghost use Rattle.std.specs.Prelude.{None, slice_get};
    ghost use Rattle.std.specs.Option.{option_and_then};
    ghost use Rattle.kom_io.specs.Names.{count_at};

    ghost opened = { λ s. option_and_then (λ place. slice_get s.counts.names place) s.opened };

    ghost file = { λ _ _. None };

    ghost left = { λ _. None };

    ghost count = { λ s n. count_at s.counts.names s.counts.faults.items n };

    fn open_file(&mut self, name: &str) -> Opened {
        self.opened = None;
        let Some(place) = place_of(&self.counts.names, name) else {
            return Opened::Failed;
        };
        match fs::open(self.rt, name) {
            Ok(file) => {
                self.file = Some(file);
                self.opened = Some(place);
                Opened::Ready
            }
            Err(_) => {
                self.counts.raise(place);
                Opened::Failed
            }
        }
    }

    fn read(&mut self, buf: &mut [u8]) -> Got {
        let Some(place) = self.opened else {
            return Got::End;
        };
        match read_some(&mut self.file, buf) {
            Some(0) => Got::End,
            Some(n) => Got::Bytes(n),
            None => {
                self.counts.raise(place);
                Got::Failed
            }
        }
    }

    fn faults(&self, name: &str) -> u64 {
        self.counts.of(name)
    }
}

/// How many bytes came from a file; none where the system failed.
fn read_some<F: Read>(file: &mut Option<F>, buf: &mut [u8]) -> Option<usize>
    ensures { IfSome result (λ n. n ≤ length buf.new) }
{
    match file {
        None => None,
        Some(file) => file.read(buf).ok(),
    }
}

/// Standard output, with a count of its failures. It tells no bytes.
#[derive(Drop)]
pub struct OutSink<'a, R: Print> {
    rt: &'a R,
    faults: u64,
}

impl<'a, R: Print> OutSink<'a, R> {
    /// Standard output, without a failure yet.
    pub fn new(rt: &'a R) -> OutSink<'a, R>
        ensures { result.faults ≡ 0 }
    {
        OutSink { rt, faults: 0 }
    }
}

impl<R: Print> Sink for OutSink<'_, R> {
    ghost use Rattle.std.specs.Prelude.{None};

    ghost written = { λ _. None };

    ghost count = { λ s. s.faults };

    fn write(&mut self, bytes: &[u8]) -> Put {
        match self.rt.write_some(bytes) {
            Ok(n) if n > 0 => Put::Bytes(n),
            _ => {
                self.faults = self.faults.saturating_add(1);
                Put::Failed
            }
        }
    }

    fn faults(&self) -> u64 {
        self.faults
    }
}
