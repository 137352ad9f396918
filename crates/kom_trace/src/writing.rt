ghost use Rattle.std.specs.Prelude.{◌≡◌, ◌<◌, ◌+◌, ◌≤◌, ◌∷◌, [], ◌++◌, length, Some, codes};
ghost use Rattle.kom_io.specs.Faults.{Rose};
ghost use Rattle.kom_record.specs.declared.plan.Plan.{Plan};
ghost use Rattle.kom_lang.specs.Declarations.{Declarations};
ghost use Rattle.kom_record.specs.declared.entry.Entry.{Entry};
ghost use Rattle.kom_record.specs.Entries.{History, entry_at};
ghost use Rattle.kom_record.specs.Legal.{IsLegal};
ghost use Rattle.kom_record.specs.Trace.{entry_lines, record_lines, joined, trace_text};
ghost use Rattle.kom_trace.specs.Counting.{HasCounted, IsTallyOf, first_entries};
ghost use Rattle.kom_trace.specs.Seen.{HasSeen, end_text, written_of, Traces, Gathers};

use crate::counts::{Counts, count_all};
use crate::ends::add_end;
use crate::scribe::Scribe;
use kom_io::{Sink, Written, write_all_of};
use kom_lines::Text;
use kom_record::{Entry, Plan, Record, Tally};
use kom_system::System;
use std::alloc::Global;

/// How many bytes are gathered before they are written.
const LONG: usize = 65_536;

/// The answer of [`write_trace`].
#[derive(Clone, Copy, Debug, PartialEq, Eq)]
pub enum Traced {
    /// All of it was added.
    Whole,
    /// The sink failed, and its count of faults rose; a prefix was added.
    WriteFault,
    /// Want of memory; a prefix was added.
    Memory,
}

/// Writes a text that was made.
fn write_piece<K: Sink>(sink: &mut K, text: &Text) -> Traced
    ensures written { Traces result text.now (K.written sink.old) (K.written sink.new) }
    ensures fault { result ≡ Traced.WriteFault → Rose (K.count sink.old) (K.count sink.new) }
    ensures counts { K.count sink.old ≤ K.count sink.new }
{
    match write_all_of(sink, text.as_bytes()) {
        Written::All => Traced::Whole,
        Written::WriteFault => Traced::WriteFault,
    }
}

/// Writes a gathered text once it is long, and goes on with an empty one.
fn write_long<K: Sink>(sink: &mut K, text: &mut Text) -> Traced
    ensures written { Gathers result text.old text.new (K.written sink.old) (K.written sink.new) }
    ensures fault { result ≡ Traced.WriteFault → Rose (K.count sink.old) (K.count sink.new) }
    ensures counts { K.count sink.old ≤ K.count sink.new }
{
    if text.as_bytes().len() < LONG {
        return Traced::Whole;
    }
    let traced = write_piece(sink, text);
    text.clear();
    traced
}

/// Gathers the lines of the next entry.
fn write_entry<K: Sink>(
    sink: &mut K,
    scribe: &mut Scribe<'_>,
    text: &mut Text,
    entry: &Entry,
) -> Traced
    ensures names { scribe.new.names ≡ scribe.old.names }
    ensures written { (Z : Plan) (P : History) → HasSeen scribe.old P → ∥ IsLegal scribe.old.names.declarations Z (entry.now ∷ P) ∥₁
        → Gathers result (text.old ++ joined (entry_lines scribe.old.names.event_names scribe.old.names.declarations P entry.now)) text.new (K.written sink.old) (K.written sink.new) }
    ensures seen { (Z : Plan) (P : History) → HasSeen scribe.old P → ∥ IsLegal scribe.old.names.declarations Z (entry.now ∷ P) ∥₁
        → result ≡ Traced.Whole → HasSeen scribe.new (entry.now ∷ P) }
    ensures fault { result ≡ Traced.WriteFault → Rose (K.count sink.old) (K.count sink.new) }
    ensures counts { K.count sink.old ≤ K.count sink.new }
{
    match scribe.entry_text(text, entry) {
        Ok(()) => write_long(sink, text),
        Err(_) => Traced::Memory,
    }
}

/// Gathers the lines of the entry at a position.
fn write_entry_at<K: Sink>(
    sink: &mut K,
    scribe: &mut Scribe<'_>,
    text: &mut Text,
    kept: &Record,
    i: usize,
) -> Traced
    requires { i < length kept.now.history }
    ensures names { scribe.new.names ≡ scribe.old.names }
    ensures written { (Z : Plan) (e : Entry) → entry_at kept.now.history i ≡ Some e → HasSeen scribe.old (first_entries i kept.now.history)
        → ∥ IsLegal scribe.old.names.declarations Z (e ∷ first_entries i kept.now.history) ∥₁
        → Gathers result (text.old ++ joined (entry_lines scribe.old.names.event_names scribe.old.names.declarations (first_entries i kept.now.history) e)) text.new (K.written sink.old) (K.written sink.new) }
    ensures seen { (Z : Plan) (e : Entry) → entry_at kept.now.history i ≡ Some e → HasSeen scribe.old (first_entries i kept.now.history)
        → ∥ IsLegal scribe.old.names.declarations Z (e ∷ first_entries i kept.now.history) ∥₁
        → result ≡ Traced.Whole → HasSeen scribe.new (e ∷ first_entries i kept.now.history) }
    ensures fault { result ≡ Traced.WriteFault → Rose (K.count sink.old) (K.count sink.new) }
    ensures counts { K.count sink.old ≤ K.count sink.new }
{
    match kept.at(i) {
        Some(entry) => write_entry(sink, scribe, text, entry),
        None => unreachable!(),
    }
}

/// Gathers the lines of all entries, and writes what is long.
fn gather_entries<K: Sink>(
    sink: &mut K,
    scribe: &mut Scribe<'_>,
    text: &mut Text,
    kept: &Record,
) -> Traced
    requires { text.old ≡ [] }
    ensures names { scribe.new.names ≡ scribe.old.names }
    ensures written { (Z : Plan) → HasSeen scribe.old [] → ∥ IsLegal scribe.old.names.declarations Z kept.now.history ∥₁
        → Gathers result (joined (record_lines scribe.old.names.event_names scribe.old.names.declarations kept.now.history)) text.new (K.written sink.old) (K.written sink.new) }
    ensures seen { (Z : Plan) → HasSeen scribe.old [] → ∥ IsLegal scribe.old.names.declarations Z kept.now.history ∥₁
        → result ≡ Traced.Whole → HasSeen scribe.new kept.now.history }
    ensures fault { result ≡ Traced.WriteFault → Rose (K.count sink.old) (K.count sink.new) }
    ensures counts { K.count sink.old ≤ K.count sink.new }
{
    for i in 0..kept.len() {
        match write_entry_at(sink, scribe, text, kept, i) {
            Traced::Whole => {}
            Traced::WriteFault => return Traced::WriteFault,
            Traced::Memory => return Traced::Memory,
        }
    }
    Traced::Whole
}

/// Writes the lines of all entries, many at a time through the same buffer.
pub(crate) fn write_entries<K: Sink>(
    sink: &mut K,
    scribe: &mut Scribe<'_>,
    text: &mut Text,
    kept: &Record,
) -> Traced
    ensures names { scribe.new.names ≡ scribe.old.names }
    ensures written { (Z : Plan) → HasSeen scribe.old [] → ∥ IsLegal scribe.old.names.declarations Z kept.now.history ∥₁
        → Traces result (joined (record_lines scribe.old.names.event_names scribe.old.names.declarations kept.now.history)) (K.written sink.old) (K.written sink.new) }
    ensures seen { (Z : Plan) → HasSeen scribe.old [] → ∥ IsLegal scribe.old.names.declarations Z kept.now.history ∥₁
        → result ≡ Traced.Whole → HasSeen scribe.new kept.now.history }
    ensures fault { result ≡ Traced.WriteFault → Rose (K.count sink.old) (K.count sink.new) }
    ensures counts { K.count sink.old ≤ K.count sink.new }
{
    text.clear();
    match gather_entries(sink, scribe, text, kept) {
        Traced::Whole => write_piece(sink, text),
        Traced::WriteFault => Traced::WriteFault,
        Traced::Memory => Traced::Memory,
    }
}

/// Writes what the text ends with.
fn write_end<K: Sink>(
    sink: &mut K,
    text: &mut Text,
    counts: &Counts,
    plan: &Plan,
    tally: &Tally,
) -> Traced
    ensures written { (S : Declarations) (P : History) → HasCounted S counts.now P → ∥ IsLegal S plan.now P ∥₁ → IsTallyOf S plan.now P tally.now
        → Traces result (end_text S plan.now P) (K.written sink.old) (K.written sink.new) }
    ensures fault { result ≡ Traced.WriteFault → Rose (K.count sink.old) (K.count sink.new) }
    ensures counts { K.count sink.old ≤ K.count sink.new }
{
    text.clear();
    match add_end(text, counts, plan, tally) {
        Ok(()) => write_piece(sink, text),
        Err(_) => Traced::Memory,
    }
}

/// Writes the lines of all entries and what the text ends with.
fn write_lines<K: Sink>(
    sink: &mut K,
    scribe: &mut Scribe<'_>,
    text: &mut Text,
    plan: &Plan,
    kept: &Record,
    tally: &Tally,
) -> Traced
    requires seen { HasSeen scribe.old [] }
    requires legal { ∥ IsLegal scribe.old.names.declarations plan.now kept.now.history ∥₁ }
    requires tally { IsTallyOf scribe.old.names.declarations plan.now kept.now.history tally.now }
    ensures written { Traces result (joined (record_lines scribe.old.names.event_names scribe.old.names.declarations kept.now.history) ++ end_text scribe.old.names.declarations plan.now kept.now.history) (K.written sink.old) (K.written sink.new) }
    ensures fault { result ≡ Traced.WriteFault → Rose (K.count sink.old) (K.count sink.new) }
    ensures counts { K.count sink.old ≤ K.count sink.new }
{
    match write_entries(sink, scribe, text, kept) {
        Traced::Whole => write_end(sink, text, &scribe.counts, plan, tally),
        Traced::WriteFault => Traced::WriteFault,
        Traced::Memory => Traced::Memory,
    }
}

/// Writes the first line of a text.
fn write_title<K: Sink>(sink: &mut K, text: &mut Text) -> Traced
    ensures written { Traces result (codes "trace 1" ++ 10 ∷ []) (K.written sink.old) (K.written sink.new) }
    ensures fault { result ≡ Traced.WriteFault → Rose (K.count sink.old) (K.count sink.new) }
    ensures counts { K.count sink.old ≤ K.count sink.new }
{
    text.clear();
    match text.add(b"trace 1\n") {
        Ok(()) => write_piece(sink, text),
        Err(_) => Traced::Memory,
    }
}

/// Writes the whole text by a scribe that has seen no entry.
fn write_by<K: Sink>(
    sink: &mut K,
    scribe: &mut Scribe<'_>,
    text: &mut Text,
    plan: &Plan,
    kept: &Record,
    tally: &Tally,
) -> Traced
    requires seen { HasSeen scribe.old [] }
    requires legal { ∥ IsLegal scribe.old.names.declarations plan.now kept.now.history ∥₁ }
    requires tally { IsTallyOf scribe.old.names.declarations plan.now kept.now.history tally.now }
    ensures written { Traces result (trace_text scribe.old.names.event_names scribe.old.names.declarations plan.now kept.now.history) (K.written sink.old) (K.written sink.new) }
    ensures fault { result ≡ Traced.WriteFault → Rose (K.count sink.old) (K.count sink.new) }
    ensures counts { K.count sink.old ≤ K.count sink.new }
{
    match write_title(sink, text) {
        Traced::Whole => write_lines(sink, scribe, text, plan, kept, tally),
        Traced::WriteFault => Traced::WriteFault,
        Traced::Memory => Traced::Memory,
    }
}

/// Writes the whole text.
fn write_text<K: Sink>(
    alloc: Global,
    system: &System,
    plan: &Plan,
    kept: &Record,
    tally: &Tally,
    sink: &mut K,
) -> Traced
    requires legal { ∥ IsLegal system.now.declarations plan.now kept.now.history ∥₁ }
    requires tally { IsTallyOf system.now.declarations plan.now kept.now.history tally.now }
    ensures written { Traces result (trace_text system.now.event_names system.now.declarations plan.now kept.now.history) (K.written sink.old) (K.written sink.new) }
    ensures fault { result ≡ Traced.WriteFault → Rose (K.count sink.old) (K.count sink.new) }
    ensures counts { K.count sink.old ≤ K.count sink.new }
{
    match Scribe::begin(alloc, system) {
        Ok(mut scribe) => write_by(sink, &mut scribe, &mut Text::new(alloc), plan, kept, tally),
        Err(_) => Traced::Memory,
    }
}

/// Writes what the text ends with.
fn write_brief<K: Sink>(
    alloc: Global,
    system: &System,
    plan: &Plan,
    kept: &Record,
    tally: &Tally,
    sink: &mut K,
) -> Traced
    requires legal { ∥ IsLegal system.now.declarations plan.now kept.now.history ∥₁ }
    requires tally { IsTallyOf system.now.declarations plan.now kept.now.history tally.now }
    ensures written { Traces result (end_text system.now.declarations plan.now kept.now.history) (K.written sink.old) (K.written sink.new) }
    ensures fault { result ≡ Traced.WriteFault → Rose (K.count sink.old) (K.count sink.new) }
    ensures counts { K.count sink.old ≤ K.count sink.new }
{
    match count_all(alloc, kept) {
        Ok(counts) => write_end(sink, &mut Text::new(alloc), &counts, plan, tally),
        Err(_) => Traced::Memory,
    }
}

/// Writes the text of a record that is legal for a system and a plan, or where `brief` only what the
/// text ends with, which is its two last lines where the record is finished and else nothing. `tally`
/// is what the record leaves. The lines are gathered in one buffer, which is written whenever it is
/// long, so the text is never held whole. Whatever the answer, what was written is a prefix of it,
/// and with `Whole` all of it.
pub fn write_trace<K: Sink>(
    alloc: Global,
    system: &System,
    plan: &Plan,
    kept: &Record,
    tally: &Tally,
    sink: &mut K,
    brief: bool,
) -> Traced
    requires legal { ∥ IsLegal system.now.declarations plan.now kept.now.history ∥₁ }
    requires tally { IsTallyOf system.now.declarations plan.now kept.now.history tally.now }
    ensures written { Traces result (written_of brief system.now.event_names system.now.declarations plan.now kept.now.history) (K.written sink.old) (K.written sink.new) }
    ensures fault { result ≡ Traced.WriteFault → Rose (K.count sink.old) (K.count sink.new) }
    ensures counts { K.count sink.old ≤ K.count sink.new }
{
    if brief {
        write_brief(alloc, system, plan, kept, tally, sink)
    } else {
        write_text(alloc, system, plan, kept, tally, sink)
    }
}
