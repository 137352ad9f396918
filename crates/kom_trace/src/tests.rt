ghost use Rattle.std.specs.Prelude.{◌≡◌, ◌++◌};
ghost use Rattle.kom_record.specs.Legal.{IsLegal};
ghost use Rattle.kom_record.specs.Trace.{trace_text};
ghost use Rattle.kom_trace.specs.Counting.{IsTallyOf};

mod entries;
mod sample;

use crate::scribe::Scribe;
use crate::writing::{Traced, write_entries, write_trace};
use entries::{faulted, handled, moved, started};
use kom_io::MemorySink;
use kom_lines::Text;
use kom_record::{Entry, Plan, Record, Tally};
use kom_system::System;
use sample::smallest;
use std::alloc::{AllocError, Global};
use std::process::Abort;
use std::test::Fail;

/// The lines of a record with one entry of each kind.
const LINES: &[u8] = b"0 0 took 0 start
1 0 did 0 done active 7
  trigger  name 1 -2
  create  Main 1 5
  plug .plus self.
  unreached 3
2 0 moved 9
  release 0 0 name 1 -2
3 0 did 0 fault 107 to none
";

/// Those of the end.
const END: &[u8] = b"end fault 107 comp 0
took 1 did 2 moved 1 queued 2 out 3
";

fn kept(alloc: Global) -> Result<Record, AllocError> {
    let mut kept = Record::new(alloc);
    add(&mut kept, started(alloc)?)?;
    add(&mut kept, handled(alloc)?)?;
    add(&mut kept, moved(alloc)?)?;
    add(&mut kept, faulted(alloc)?)?;
    Ok(kept)
}

fn add(kept: &mut Record, entry: Entry) -> Result<(), AllocError> {
    kept.reserve(1)?;
    kept.add(entry);
    Ok(())
}

const TALLY: Tally = Tally {
    queued: 2,
    out: 3,
    more: true,
};

/// Writes the lines of all entries, and adds those of the end to the buffer.
fn by_scribe(
    scribe: &mut Scribe<'_>,
    sink: &mut MemorySink,
    text: &mut Text,
    kept: &Record,
) -> Result<Traced, AllocError> {
    let traced = write_entries(sink, scribe, text, kept);
    scribe.end_text(text, &TALLY)?;
    Ok(traced)
}

fn in_system(
    alloc: Global,
    sink: &mut MemorySink,
    text: &mut Text,
    kept: &Record,
    system: &System,
) -> Result<Traced, AllocError> {
    let mut scribe = Scribe::begin(alloc, system)?;
    by_scribe(&mut scribe, sink, text, kept)
}

fn of_record(
    alloc: Global,
    sink: &mut MemorySink,
    text: &mut Text,
    kept: &Record,
) -> Result<Traced, AllocError> {
    let system = smallest(alloc)?;
    in_system(alloc, sink, text, kept, &system)
}

/// Writes the lines of the record.
fn written(alloc: Global, sink: &mut MemorySink, text: &mut Text) -> Result<Traced, AllocError> {
    let kept = kept(alloc)?;
    of_record(alloc, sink, text, &kept)
}

/// What is written of a record into memory.
pub fn traced(
    alloc: Global,
    system: &System,
    plan: &Plan,
    kept: &Record,
    tally: &Tally,
    sink: &mut MemorySink,
) -> Traced
    requires legal { ∥ IsLegal system.now.declarations plan.now kept.now.history ∥₁ }
    requires tally { IsTallyOf system.now.declarations plan.now kept.now.history tally.now }
    ensures { result ≡ Traced.Whole → sink.new.bytes.items ≡ sink.old.bytes.items ++ trace_text system.now.event_names system.now.declarations plan.now kept.now.history }
{
    write_trace(alloc, system, plan, kept, tally, sink, false)
}

/// A sink that takes one byte at a time; the write with the number `fails` fails.
fn failing(alloc: Global, fails: u64) -> Result<MemorySink, AllocError> {
    let mut numbers = Vec::new(alloc);
    numbers.push(fails)?;
    MemorySink::make(alloc, 1000, 1, numbers)
}

#[test]
fn each_entry_has_its_lines(rt: HostRuntime) -> Result<(), Fail> {
    let mut sink = failing(rt.alloc(), 1000)?;
    let mut text = Text::new(rt.alloc());
    let traced = written(rt.alloc(), &mut sink, &mut text)?;
    assert_eq!(rt; traced, Traced::Whole);
    assert_eq!(rt; sink.bytes(), LINES);
    // few lines are gathered until the end
    assert!(rt; text.as_bytes().starts_with(LINES));
    assert!(rt; text.as_bytes().ends_with(END));
    Ok(())
}

#[test]
fn a_sink_that_fails_leaves_a_prefix(rt: HostRuntime) -> Result<(), Fail> {
    let mut sink = failing(rt.alloc(), 30)?;
    let mut text = Text::new(rt.alloc());
    let traced = written(rt.alloc(), &mut sink, &mut text)?;
    assert_eq!(rt; traced, Traced::WriteFault);
    assert_eq!(rt; sink.bytes(), &LINES[..30]);
    Ok(())
}
