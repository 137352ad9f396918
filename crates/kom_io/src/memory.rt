ghost use Rattle.std.specs.Prelude.{◌≡◌, ◌+◌, ◌-◌, ◌^◌, ◌<◌, ◌≤◌, [], ℕ, List, IfOk, IfSome, length, vec_capacity, vec_len, map, min, drop, take};
ghost use Rattle.std.specs.String.{string_bytes};
ghost use Rattle.std.specs.Option.{option_map, option_map_or};
ghost use Rattle.kom_io.specs.Files.{left_at};

use crate::counts::{Counts, place_of};
use crate::shelves::{Got, Opened, Shelf};
use crate::sinks::{Put, Sink};
use std::alloc::{AllocError, Global};

/// A shelf over texts in memory, with calls that fail on demand.
///
/// A call fails exactly where its number is among those that fail or its name is not held. The
/// calls of `open_file` and `read` are counted together, from 0.
#[derive(Drop)]
pub struct MemoryShelf {
    counts: Counts,
    files: Vec<(String, Vec<u8>)>,
    piece: usize,
    fails: Vec<u64>,
    calls: u64,
    opened: Option<Reading>,
    ghost takes_some: { 0 < piece },
}

/// Where a file is read: the place of its name, and how many bytes were read.
#[derive(Clone, Copy, Debug)]
struct Reading {
    place: usize,
    at: usize,
}

impl MemoryShelf {
    ghost use Rattle.kom_io.specs.Files.{file_of, first_count};
    ghost use Rattle.kom_io.specs.Memory.{held, fault_count};

    /// A shelf with these names and bytes, of which the first pair counts where a name stands more
    /// than once. A read gives at most `piece` bytes; the calls with the numbers in `fails` fail.
    pub fn make(
        alloc: Global,
        files: Vec<(String, Vec<u8>)>,
        piece: usize,
        fails: Vec<u64>,
    ) -> Result<MemoryShelf, AllocError>
        requires { 0 < piece }
        ensures files { IfOk result (λ s. (n : List ℕ) → held s n ≡ option_map (λ f. f.1.items) (file_of files.items n)) }
        ensures counts { IfOk result (λ s. (n : List ℕ) → fault_count s n ≡ first_count files.items n) }
        ensures piece { IfOk result (λ s. s.piece ≡ piece) }
        ensures fails { IfOk result (λ s. s.fails.items ≡ fails.items) }
        ensures calls { IfOk result (λ s. s.calls ≡ 0) }
    {
        let counts = names_of(alloc, files.as_slice())?;
        Ok(MemoryShelf {
            counts,
            files,
            piece,
            fails,
            calls: 0,
            opened: None,
        })
    }
}

/// The names of the files, without faults.
fn names_of(alloc: Global, files: &[(String, Vec<u8>)]) -> Result<Counts, AllocError>
    ensures names { IfOk result (λ c. c.names ≡ map (λ f. string_bytes f.0) files.now) }
    ensures faults { IfOk result (λ c. c.faults.items ≡ map (λ _. 0) files.now) }
{
    let mut counts = Counts::new(alloc);
    for file in files {
        counts.add(file.0.as_str())?;
    }
    Ok(counts)
}

impl Shelf for MemoryShelf {
    ghost use Rattle.std.specs.Prelude.{◌≡◌, ◌<◌, ℕ, List, Some, None, IsSome, IfSome, length};
    ghost use Rattle.kom_io.specs.Faults.{Rose, RisesOnlyAt};
    ghost use Rattle.kom_io.specs.Answers.{IsRead};
    ghost use Rattle.kom_io.specs.Memory.{held, fault_count, name_opened, bytes_left, open_answer, read_answer, call_after};

    ghost opened = { name_opened };

    ghost file = { held };

    ghost left = { bytes_left };

    ghost count = { fault_count };

    fn open_file(&mut self, name: &str) -> Opened
        ensures exact { result ≡ open_answer self.old name.now }
        ensures ready { result ≡ Opened.Ready → name_opened self.new ≡ Some name.now }
        ensures start { result ≡ Opened.Ready → bytes_left self.new ≡ held self.old name.now }
        ensures failed { result ≡ Opened.Failed → name_opened self.new ≡ None }
        ensures fault { result ≡ Opened.Failed → Rose (fault_count self.old name.now) (fault_count self.new name.now) }
        ensures counts { RisesOnlyAt name.now (fault_count self.old) (fault_count self.new) }
        ensures files { (n : List ℕ) → held self.new n ≡ held self.old n }
        ensures called { self.new.calls ≡ call_after self.old.calls }
    {
        let fails = self.fails.contains(&self.calls);
        self.calls = self.calls.saturating_add(1);
        self.opened = None;
        match place_of(&self.counts.names, name) {
            None => Opened::Failed,
            Some(place) => {
                if fails {
                    self.counts.raise(place);
                    return Opened::Failed;
                }
                self.opened = Some(Reading { place, at: 0 });
                Opened::Ready
            }
        }
    }

    fn read(&mut self, buf: &mut [u8]) -> Got
        requires file { IsSome (name_opened self.old) }
        requires room { 0 < length buf.old }
        ensures exact { result ≡ read_answer self.old (length buf.old) }
        ensures answer { IsRead result buf.new (bytes_left self.old) (bytes_left self.new) }
        ensures opened { name_opened self.new ≡ name_opened self.old }
        ensures fault { result ≡ Got.Failed → IfSome (name_opened self.old) (λ name. Rose (fault_count self.old name) (fault_count self.new name)) }
        ensures counts { IfSome (name_opened self.old) (λ name. RisesOnlyAt name (fault_count self.old) (fault_count self.new)) }
        ensures files { (n : List ℕ) → held self.new n ≡ held self.old n }
        ensures called { self.new.calls ≡ call_after self.old.calls }
    {
        let fails = self.fails.contains(&self.calls);
        self.calls = self.calls.saturating_add(1);
        let Some(reading) = self.opened else {
            return Got::End;
        };
        if fails {
            self.counts.raise(reading.place);
            return Got::Failed;
        }
        let n = copy_front(self.files.as_slice(), reading, self.piece, buf);
        self.opened = Some(Reading {
            place: reading.place,
            at: reading.at + n,
        });
        if n == 0 { Got::End } else { Got::Bytes(n) }
    }

    fn faults(&self, name: &str) -> u64 {
        self.counts.of(name)
    }
}

/// Copies the next bytes of a file to the front of the buffer, at most `piece` of them, and answers
/// how many.
fn copy_front(files: &[(String, Vec<u8>)], reading: Reading, piece: usize, buf: &mut [u8]) -> usize
    requires piece { 0 < piece }
    requires room { 0 < length buf.old }
    ensures count { result ≡ min (min (option_map_or length (left_at files.now reading) 0) piece) (length buf.old) }
    ensures end { result ≡ 0 → IfSome (left_at files.now reading) (λ left. left ≡ []) }
    ensures front { IfSome (left_at files.now reading) (λ left. (result ≤ length left) × (take result buf.new ≡ take result left)) }
    ensures next { left_at files.now (record { place = reading.place; at = reading.at + result }) ≡ option_map (drop result) (left_at files.now reading) }
    ensures fits { reading.at + result < 2 ^ 64 }
{
    match files.get(reading.place) {
        None => 0,
        Some(file) => copy_after(file.1.as_slice(), reading.at, piece, buf),
    }
}

/// Copies the next bytes after the first `at` to the front of the buffer.
fn copy_after(bytes: &[u8], at: usize, piece: usize, buf: &mut [u8]) -> usize
    ensures count { result ≡ min (min (length (drop at bytes.now)) piece) (length buf.old) }
    ensures copied { take result buf.new ≡ take result (drop at bytes.now) }
    ensures fits { at + result < 2 ^ 64 }
{
    if at >= bytes.len() {
        return 0;
    }
    let rest = &bytes[at..];
    let n = rest.len().min(piece).min(buf.len());
    buf[..n].copy_from_slice(&rest[..n]);
    n
}

/// A sink over memory, with writes that fail on demand.
///
/// A write fails exactly where its number, from 0, is among those that fail or the room is full.
#[derive(Drop)]
pub struct MemorySink {
    bytes: Vec<u8>,
    room: usize,
    piece: usize,
    fails: Vec<u64>,
    calls: u64,
    faults: u64,
    ghost takes_some: { 0 < piece },
    ghost has_room: { room ≤ vec_capacity bytes },
    ghost within: { vec_len bytes ≤ room },
}

impl MemorySink {
    /// A sink without bytes, which takes the memory for all its room. A write takes at most
    /// `piece` bytes; the writes with the numbers in `fails` fail.
    pub fn make(
        alloc: Global,
        room: usize,
        piece: usize,
        fails: Vec<u64>,
    ) -> Result<MemorySink, AllocError>
        requires { 0 < piece }
        ensures bytes { IfOk result (λ s. s.bytes.items ≡ []) }
        ensures room { IfOk result (λ s. s.room ≡ room) }
        ensures piece { IfOk result (λ s. s.piece ≡ piece) }
        ensures fails { IfOk result (λ s. s.fails.items ≡ fails.items) }
        ensures calls { IfOk result (λ s. s.calls ≡ 0) }
        ensures faults { IfOk result (λ s. s.faults ≡ 0) }
    {
        Ok(MemorySink {
            bytes: Vec::with_capacity(alloc, room)?,
            room,
            piece,
            fails,
            calls: 0,
            faults: 0,
        })
    }

    /// The bytes so far.
    pub fn bytes(&self) -> &[u8]
        ensures { result.now ≡ self.now.bytes.items }
    {
        self.bytes.as_slice()
    }
}

impl Sink for MemorySink {
    ghost use Rattle.std.specs.Prelude.{◌≡◌, ◌<◌, ◌≤◌, Some, length};
    ghost use Rattle.kom_io.specs.Faults.{Rose};
    ghost use Rattle.kom_io.specs.Answers.{IsPut};
    ghost use Rattle.kom_io.specs.Memory.{put_answer, call_after};

    ghost written = { λ s. Some s.bytes.items };

    ghost count = { λ s. s.faults };

    fn write(&mut self, bytes: &[u8]) -> Put
        requires { 0 < length bytes.now }
        ensures exact { result ≡ put_answer self.old (length bytes.now) }
        ensures answer { IsPut result bytes.now (Some self.old.bytes.items) (Some self.new.bytes.items) }
        ensures fault { result ≡ Put.Failed → Rose self.old.faults self.new.faults }
        ensures counts { self.old.faults ≤ self.new.faults }
        ensures called { self.new.calls ≡ call_after self.old.calls }
    {
        let fails = self.fails.contains(&self.calls);
        self.calls = self.calls.saturating_add(1);
        if fails || self.room <= self.bytes.len() {
            self.faults = self.faults.saturating_add(1);
            return Put::Failed;
        }
        let n = bytes
            .len()
            .min(self.piece)
            .min(self.room - self.bytes.len());
        match self.bytes.extend_from_slice(&bytes[..n]) {
            Ok(()) => Put::Bytes(n),
            Err(_) => unreachable!(),
        }
    }

    fn faults(&self) -> u64 {
        self.faults
    }
}
