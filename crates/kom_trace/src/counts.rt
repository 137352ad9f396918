ghost use Rattle.std.specs.Prelude.{◌≡◌, ◌<◌, ◌+◌, ◌∷◌, [], length, IfOk, OnOk, vec_capacity};
ghost use Rattle.std.specs.List.{count_by, list_any};
ghost use Rattle.kom_base.specs.Lists.{either};
ghost use Rattle.kom_lang.specs.Declarations.{Declarations};
ghost use Rattle.kom_lang.specs.Steps as steps;
ghost use Rattle.kom_record.specs.declared.plan.Plan.{Plan};
ghost use Rattle.kom_record.specs.Entries.{History};
ghost use Rattle.kom_record.specs.Legal.{IsLegal};
ghost use Rattle.kom_record.specs.Ready.{is_took, is_moved, has_unhandled};
ghost use Rattle.kom_record.specs.Trace.{is_did};
ghost use Rattle.kom_trace.specs.Counting.{fault_taken, fault_at, raised_by, untold, unhandled_by, HasCounted, first_entries};

use kom_base::Comp;
use kom_lang::{Effect, Effects};
use kom_record::{Control, Entry, Item, Outcome, Record};
use std::alloc::{AllocError, Global};

/// What is counted of a record.
#[derive(Drop)]
pub struct Counts {
    /// For each entry, by position, the number of the fault that it took, if it took one.
    pub faults: Vec<Option<u16>>,
    /// How many entries took an item.
    pub took: u64,
    /// How many entries ended a job.
    pub did: u64,
    /// How many entries moved the time.
    pub moved: u64,
    /// The number of the first fault of which no ancestor was told, and the component that raised it.
    pub unhandled: Option<(u16, Comp)>,
}

impl Counts {
    /// What is counted of the empty record. It takes no memory.
    pub fn new(alloc: Global) -> Counts
        ensures { (S : Declarations) → HasCounted S result [] }
    {
        Counts {
            faults: Vec::new(alloc),
            took: 0,
            did: 0,
            moved: 0,
            unhandled: None,
        }
    }

    /// The position of the next entry.
    pub fn position(&self) -> u64
        ensures { result ≡ length self.now.faults.items }
    {
        self.faults.len() as u64
    }

    /// Whether there was a fault of which no ancestor was told.
    pub fn has_unhandled(&self) -> bool
        ensures { (S : Declarations) (P : History) → HasCounted S self.now P → result ≡ has_unhandled S P }
    {
        self.unhandled.is_some()
    }

    /// Makes room for an entry. What is counted is the same either way.
    pub fn reserve(&mut self) -> Result<(), AllocError>
        ensures room { OnOk result (length self.new.faults.items < vec_capacity self.new.faults) }
        ensures same { (S : Declarations) (P : History) → HasCounted S self.old P → HasCounted S self.new P }
    {
        self.faults.reserve(1)
    }

    /// The number of the fault that the entry at a position took.
    fn fault_at(&self, position: u32) -> Option<u16>
        ensures { result ≡ fault_at self.now position }
    {
        match self.faults.get(position as usize) {
            Some(fault) => *fault,
            None => None,
        }
    }

    /// The number of the fault that an outcome raises, where the job is that of the Took at a position.
    fn raised(&self, outcome: &Outcome, took: u32) -> Option<u16>
        ensures { result ≡ raised_by (fault_at self.now took) outcome.now }
    {
        match outcome {
            Outcome::Void => None,
            Outcome::Fault(number) => Some(*number),
            Outcome::Done { effects, .. } => {
                if escalates(effects) {
                    self.fault_at(took)
                } else {
                    None
                }
            }
        }
    }

    /// The fault that an entry raises and of which nobody is told.
    fn unhandled_by(&self, entry: &Entry) -> Option<(u16, Comp)>
        ensures { result ≡ unhandled_by self.now entry.now }
    {
        match entry {
            Entry::Did {
                c,
                took,
                outcome,
                to,
                ..
            } => untold(self.raised(outcome, *took), *to, *c),
            Entry::Took { .. } | Entry::Moved { .. } => None,
        }
    }

    /// Counts an entry, for which there is room. It takes no memory.
    pub fn note(&mut self, entry: &Entry)
        requires { length self.old.faults.items < vec_capacity self.old.faults }
        ensures { (S : Declarations) (Z : Plan) (P : History) → HasCounted S self.old P → ∥ IsLegal S Z (entry.now ∷ P) ∥₁ → HasCounted S self.new (entry.now ∷ P) }
    {
        self.unhandled = first_of(self.unhandled, self.unhandled_by(entry));
        self.took = self.took.saturating_add(took_in(entry));
        self.did = self.did.saturating_add(did_in(entry));
        self.moved = self.moved.saturating_add(moved_in(entry));
        match self.faults.push(fault_taken(entry)) {
            Ok(()) => {}
            Err(_) => unreachable!(),
        }
    }
}

/// What is counted of a record that is kept. The error is want of memory.
pub fn count_all(alloc: Global, kept: &Record) -> Result<Counts, AllocError>
    ensures { IfOk result (λ n. (S : Declarations) (Z : Plan) → ∥ IsLegal S Z kept.now.history ∥₁ → HasCounted S n kept.now.history) }
{
    let mut counts = Counts::new(alloc);
    for i in 0..kept.len() {
        count_at(&mut counts, kept, i)?;
    }
    Ok(counts)
}

/// Counts the entry at a position.
fn count_at(counts: &mut Counts, kept: &Record, i: usize) -> Result<(), AllocError>
    requires { i < length kept.now.history }
    ensures { OnOk result ((S : Declarations) (Z : Plan) → ∥ IsLegal S Z kept.now.history ∥₁ → HasCounted S counts.old (first_entries i kept.now.history) → HasCounted S counts.new (first_entries (i + 1) kept.now.history)) }
{
    match kept.at(i) {
        Some(entry) => {
            counts.reserve()?;
            counts.note(entry);
            Ok(())
        }
        None => unreachable!(),
    }
}

fn took_in(entry: &Entry) -> u64
    ensures { result ≡ count_by is_took (entry.now ∷ []) }
{
    match entry {
        Entry::Took { .. } => 1,
        Entry::Did { .. } | Entry::Moved { .. } => 0,
    }
}

fn did_in(entry: &Entry) -> u64
    ensures { result ≡ count_by is_did (entry.now ∷ []) }
{
    match entry {
        Entry::Did { .. } => 1,
        Entry::Took { .. } | Entry::Moved { .. } => 0,
    }
}

fn moved_in(entry: &Entry) -> u64
    ensures { result ≡ count_by is_moved (entry.now ∷ []) }
{
    match entry {
        Entry::Moved { .. } => 1,
        Entry::Took { .. } | Entry::Did { .. } => 0,
    }
}

/// The number of the fault that an entry took.
fn fault_taken(entry: &Entry) -> Option<u16>
    ensures { result ≡ fault_taken entry.now }
{
    match entry {
        Entry::Took {
            item: Item::Control(Control::Fault { number, .. }),
            ..
        } => Some(*number),
        _ => None,
    }
}

fn is_escalate(effect: &Effect) -> bool
    ensures { result ≡ steps.is_escalate effect.now }
{
    matches!(effect, Effect::Escalate)
}

fn escalates(effects: &Effects) -> bool
    ensures { result ≡ list_any steps.is_escalate effects.now }
{
    effects.as_slice().iter().any(is_escalate)
}

fn untold(raised: Option<u16>, to: Option<Comp>, c: Comp) -> Option<(u16, Comp)>
    ensures { result ≡ untold raised to c }
{
    match (to, raised) {
        (None, Some(number)) => Some((number, c)),
        (None, None) | (Some(_), _) => None,
    }
}

fn first_of(first: Option<(u16, Comp)>, then: Option<(u16, Comp)>) -> Option<(u16, Comp)>
    ensures { result ≡ either first then }
{
    match first {
        Some(fault) => Some(fault),
        None => then,
    }
}
