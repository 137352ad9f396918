ghost use Rattle.std.specs.Prelude.{◌≡◌, ◌≤◌, ℕ, Bool, true, false, List, Option, Some, None};
ghost use Rattle.std.specs.Arc.{arc_value};
ghost use Rattle.kom_trace.specs.Seen.{written_of};
ghost use Rattle.kompics.specs.Top.{IsAnswer, IsEnd, IsWritten};

use crate::answer::{Answer, answer_to, answer_with};
use crate::running::Run;
use kom_io::{Shelf, Sink, Words, Written, write_all_of};
use kom_make::{SCENARIO, SYSTEM};
use kom_record::{Gate, Record};
use kom_trace::{Traced, write_trace};
use std::alloc::Global;
use std::sync::Wait;
use std::thread::Threads;

/// The commands.
const USAGE: &[u8] =
    b"usage: kompics check S | sim S Z | run S Z WORKERS | make N system|scenario | drill N | upgrade S\n";

/// How a call of the program ended.
#[derive(Drop)]
pub struct Ended {
    /// 0: the text of the command was written; the run, where there was one, ended with nothing left
    /// to do. 1: a file is refused. 2: the words are no command. 3: the run ended by a fault of which
    /// nobody was told. 4: it was cut off by its plan with something left to do. 5: the shelf failed.
    /// 6: the sink failed. 7: want of memory.
    pub status: u8,
    /// The record of the run, where one came to its end.
    pub kept: Option<Record>,
}

/// Does what the words say: `check S` reads the system S and writes its canonical text, and
/// `upgrade S` that of the upgraded system; `sim S Z` reads the system S and the scenario Z,
/// simulates them and writes the trace, and `run S Z WORKERS` runs them with 1 to 64 workers; `make N
/// system` and `make N scenario` write the generated texts of a number from 1 to 30, and `drill N`
/// simulates them and writes the two last lines of the trace. A run with workers asks the gate before
/// each handling.
///
/// A refusal, a fault of the shelf, and want of memory before the trace begins leave nothing written
/// of it. The trace is written as it is made, so a sink that fails, and want of memory later on, leave
/// a prefix. The files stay as they are, and no count of faults falls. The workers of a run wait for
/// each other, so the call with `run` may wait.
pub fn kompics_top<R: Threads + Wait + Sync, S: Shelf, K: Sink, G: Gate + Sync>(
    rt: &R,
    alloc: Global,
    words: &Words,
    shelf: &mut S,
    out: &mut K,
    gate: &G,
) -> Ended
    ensures end { IsEnd true SYSTEM.now SCENARIO.now words.now (S.file shelf.old) result (S.count shelf.old) (S.count shelf.new) (K.count out.old) (K.count out.new) (K.written out.old) (K.written out.new) }
    ensures files { (n : List ℕ) → S.file shelf.new n ≡ S.file shelf.old n }
    ensures counts { (n : List ℕ) → S.count shelf.old n ≤ S.count shelf.new n }
    ensures sink { K.count out.old ≤ K.count out.new }
{
    let answer = answer_with(rt, alloc, words, shelf, gate);
    write_answer(alloc, out, answer)
}

/// Does what the words say, as [`kompics_top`] does, but for `run`, whose words are no command to it.
/// It needs no runtime, and does not wait.
pub fn quiet_top<S: Shelf, K: Sink>(
    alloc: Global,
    words: &Words,
    shelf: &mut S,
    out: &mut K,
) -> Ended
    ensures end { IsEnd false SYSTEM.now SCENARIO.now words.now (S.file shelf.old) result (S.count shelf.old) (S.count shelf.new) (K.count out.old) (K.count out.new) (K.written out.old) (K.written out.new) }
    ensures files { (n : List ℕ) → S.file shelf.new n ≡ S.file shelf.old n }
    ensures counts { (n : List ℕ) → S.count shelf.old n ≤ S.count shelf.new n }
    ensures sink { K.count out.old ≤ K.count out.new }
{
    let answer = answer_to(alloc, words, shelf);
    write_answer(alloc, out, answer)
}

/// Writes what the words came to, and ends with its status unless the sink fails or memory runs out.
fn write_answer<K: Sink>(alloc: Global, out: &mut K, answer: Answer) -> Ended
    ensures end { (has_workers : Bool) (system scenario : List ℕ) (words : List (List ℕ)) (files : List ℕ → Option (List ℕ)) (before after : List ℕ → ℕ) → IsAnswer has_workers system scenario words files answer before after → IsEnd has_workers system scenario words files result before after (K.count out.old) (K.count out.new) (K.written out.old) (K.written out.new) }
    ensures sink { K.count out.old ≤ K.count out.new }
{
    match answer {
        Answer::NoCommand => say(out, USAGE, 2),
        Answer::Text(text) => say(out, text.as_slice(), 0),
        Answer::Refused(line) => say(out, line.as_bytes(), 1),
        Answer::Run(run) => write_run(alloc, out, run),
        Answer::ShelfFault => without_record(5),
        Answer::Memory => without_record(7),
    }
}

/// Ended without a record.
fn without_record(status: u8) -> Ended
    ensures status { result.status ≡ status }
    ensures kept { result.kept ≡ None }
{
    Ended { status, kept: None }
}

/// Writes a text, and ends with this status unless the sink fails.
fn say<K: Sink>(out: &mut K, text: &[u8], status: u8) -> Ended
    ensures kept { result.kept ≡ None }
    ensures written { IsWritten result.status status text.now (K.written out.old) (K.written out.new) (K.count out.old) (K.count out.new) }
    ensures sink { K.count out.old ≤ K.count out.new }
{
    match write_all_of(out, text) {
        Written::All => without_record(status),
        Written::WriteFault => without_record(6),
    }
}

/// Writes the text of a run, and ends with its status unless the sink fails or memory runs out.
fn write_run<K: Sink>(alloc: Global, out: &mut K, run: Run) -> Ended
    ensures kept { result.kept ≡ Some run.ran.kept }
    ensures written { IsWritten result.status run.ran.status (written_of run.brief (arc_value run.system).event_names (arc_value run.system).declarations run.plan run.ran.kept.history) (K.written out.old) (K.written out.new) (K.count out.old) (K.count out.new) }
    ensures sink { K.count out.old ≤ K.count out.new }
{
    let Run {
        system,
        plan,
        brief,
        ran,
    } = run;
    let status = match write_trace(alloc, &system, &plan, &ran.kept, &ran.tally, out, brief) {
        Traced::Whole => ran.status,
        Traced::WriteFault => 6,
        Traced::Memory => 7,
    };
    Ended {
        status,
        kept: Some(ran.kept),
    }
}
