use crate::top::{Ended, kompics_top, quiet_top};
use kom_io::{MemoryShelf, MemorySink, Words};
use kom_record::Gate;
use std::alloc::{AllocError, Global};
use std::sync::Wait;
use std::thread::Threads;

/// How the two files are read and the output is written: bytes a time, and the call that fails.
#[derive(Clone, Copy, Debug)]
pub struct Outside {
    pub read: usize,
    pub read_fails: u64,
    pub write: usize,
    pub write_fails: u64,
}

/// Whole files and whole texts, and no call that fails.
pub const PLAIN: Outside = Outside {
    read: 4096,
    read_fails: 1000000,
    write: 4096,
    write_fails: 1000000,
};

impl Outside {
    /// A shelf that has the files `s` and `z`.
    fn shelf(
        &self,
        alloc: Global,
        system: &[u8],
        scenario: &[u8],
    ) -> Result<MemoryShelf, AllocError> {
        let mut files = Vec::new(alloc);
        files.push((String::from_str(alloc, "s")?, system.to_vec(alloc)?))?;
        files.push((String::from_str(alloc, "z")?, scenario.to_vec(alloc)?))?;
        let fails = [self.read_fails].to_vec(alloc)?;
        MemoryShelf::make(alloc, files, self.read.max(1), fails)
    }

    /// A sink with room for 1 MiB.
    fn sink(&self, alloc: Global) -> Result<MemorySink, AllocError> {
        let fails = [self.write_fails].to_vec(alloc)?;
        MemorySink::make(alloc, 1048576, self.write.max(1), fails)
    }
}

fn list_of(alloc: Global, words: &[&str]) -> Result<Words, AllocError> {
    let mut list = Words::new(alloc);
    for word in words {
        list.push(*word)?;
    }
    Ok(list)
}

/// The status and the output of a call.
fn told(alloc: Global, end: Ended, sink: &MemorySink) -> Result<(u8, Vec<u8>), AllocError> {
    Ok((end.status, sink.bytes().to_vec(alloc)?))
}

/// The status and the output of a call with these words and no workers.
pub fn call(
    alloc: Global,
    words: &[&str],
    system: &[u8],
    scenario: &[u8],
    outside: &Outside,
) -> Result<(u8, Vec<u8>), AllocError> {
    let mut shelf = outside.shelf(alloc, system, scenario)?;
    let mut sink = outside.sink(alloc)?;
    let list = list_of(alloc, words)?;
    let end = quiet_top(alloc, &list, &mut shelf, &mut sink);
    told(alloc, end, &sink)
}

/// The status and the output of a call with these words, and workers that pass a gate.
pub fn call_with_workers<R: Threads + Wait + Sync, G: Gate + Sync>(
    rt: &R,
    alloc: Global,
    words: &[&str],
    system: &[u8],
    scenario: &[u8],
    gate: &G,
) -> Result<(u8, Vec<u8>), AllocError> {
    let mut shelf = PLAIN.shelf(alloc, system, scenario)?;
    let mut sink = PLAIN.sink(alloc)?;
    let list = list_of(alloc, words)?;
    let end = kompics_top(rt, alloc, &list, &mut shelf, &mut sink, gate);
    told(alloc, end, &sink)
}
