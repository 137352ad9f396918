ghost use Rattle.std.specs.Prelude.{◌≡◌, ◌≤◌, ◌<◌, ◌+◌, ◌^◌, ℕ, if◌then◌else◌, ◌∷◌, [], ◌++◌, length, List, Some, None, IfOk, OnOk, OnErr, vec_capacity};
ghost use Rattle.kom_lang.specs.Declarations.{kind_of};
ghost use Rattle.kom_record.specs.Entries.{Act};
ghost use Rattle.kom_lang.specs.Declarations.{Declarations};
ghost use Rattle.kom_scribe.specs.Drafts.{is_at, occupant_in, births, known_occupant, kinds_with, type_among, IsAfter, Knows};

use crate::draft::{Change, Draft};
use kom_index::Ordered;
use kom_lang::Kind;
use kom_lines::Names;
use kom_trees::{SlotOf, tree_of};
use std::alloc::{AllocError, Global};

/// What is known of the instances of a record: the type of each, by number, and the occupants of
/// slots.
#[derive(Drop)]
pub struct Known {
    pub kinds: Vec<u16>,
    pub occupants: Ordered<SlotOf, u64>,
}

impl Known {
    /// Nothing is known. It takes no memory.
    pub fn new(alloc: Global) -> Known
        ensures kinds { result.kinds.items ≡ [] }
        ensures occupants { result.occupants ≡ ([], 0) }
    {
        Known {
            kinds: Vec::new(alloc),
            occupants: Ordered::new(alloc),
        }
    }

    /// What is known of a record without entries: the root with its tree. The error is want of memory.
    pub fn begin(alloc: Global, names: &Names<'_>) -> Result<Known, AllocError>
        ensures { IfOk result (λ known. Knows names.now.declarations known []) }
    {
        let root = names.system().root().kind;
        let nodes = tree_of(alloc, names.system(), 0, root, None)?;
        let mut draft = Draft::new(alloc);
        draft.add_nodes(nodes.as_slice())?;
        let mut known = Known::new(alloc);
        known.absorb(&draft)?;
        Ok(known)
    }

    /// How many instances there are, with those of a draft.
    pub fn count(&self, draft: &Draft) -> u64
        ensures count { result ≡ length (kinds_with self.now draft.now) }
        ensures small { result < 2 ^ 64 }
    {
        self.kinds.len() as u64 + draft.kinds.len() as u64
    }

    /// The type of an instance, with those of a draft.
    pub fn kind_of<'n>(&self, draft: &Draft, names: &'n Names<'_>, c: u64) -> &'n Kind
        ensures { result.now ≡ type_among names.now.declarations (kinds_with self.now draft.now) c }
    {
        let count = self.kinds.len() as u64;
        let kind = if c < count {
            self.kinds.get(c as usize)
        } else {
            draft.kinds.get((c - count) as usize)
        };
        match kind {
            Some(kind) => names.kind(*kind),
            None => names.no_kind(),
        }
    }

    /// The occupant of a slot after a draft. It costs what the draft is long, and a logarithm.
    pub fn occupant(&self, draft: &Draft, at: SlotOf) -> Option<u64>
        ensures { result ≡ occupant_in at.comp at.slot (length self.now.kinds.items) (known_occupant self.now at.comp at.slot) draft.now.changes.items }
    {
        let mut found = self.occupants.get(&at).copied();
        let mut next = self.kinds.len() as u64;
        for change in draft.changes.as_slice() {
            found = occupant_after(*change, at, next, found);
            next += births_of(*change);
        }
        found
    }

    /// Makes room for a draft. On want of memory what is known is the same.
    pub fn reserve(&mut self, draft: &Draft) -> Result<(), AllocError>
        ensures kinds { self.new.kinds.items ≡ self.old.kinds.items }
        ensures occupants { (p s : ℕ) → known_occupant self.new p s ≡ known_occupant self.old p s }
        ensures kinds_room { OnOk result (length self.new.kinds.items + length draft.now.kinds.items ≤ vec_capacity self.new.kinds) }
        ensures slots_room { OnOk result (length draft.now.changes.items ≤ self.new.occupants.1) }
    {
        self.kinds.reserve(draft.kinds.len())?;
        self.occupants.reserve(draft.changes.len())
    }

    /// Puts an instance into a slot. It takes no memory.
    fn put(&mut self, at: SlotOf, mut number: u64)
        requires { 0 < self.old.occupants.1 }
        ensures kinds { self.new.kinds ≡ self.old.kinds }
        ensures occupants { (p s : ℕ) → known_occupant self.new p s ≡ (if is_at p s (Some at) then Some number else known_occupant self.old p s) }
        ensures room { self.old.occupants.1 ≤ self.new.occupants.1 + 1 }
    {
        if self.occupants.get(&at).is_some() {
            self.occupants.swap(&at, &mut number);
        } else {
            self.occupants.insert(at, number);
        }
    }

    /// Takes the occupant out of a slot, if there is one. It takes no memory.
    fn clear(&mut self, at: SlotOf)
        ensures kinds { self.new.kinds ≡ self.old.kinds }
        ensures occupants { (p s : ℕ) → known_occupant self.new p s ≡ (if is_at p s (Some at) then None else known_occupant self.old p s) }
        ensures room { self.old.occupants.1 ≤ self.new.occupants.1 }
    {
        if self.occupants.get(&at).is_some() {
            self.occupants.remove(&at);
        }
    }

    /// Notes one change; the next new instance has the number `next`. It takes no memory.
    fn note_change(&mut self, change: Change, next: u64)
        requires { births (change ∷ []) ≤ self.old.occupants.1 }
        ensures kinds { self.new.kinds ≡ self.old.kinds }
        ensures occupants { (p s : ℕ) → known_occupant self.new p s ≡ occupant_in p s next (known_occupant self.old p s) (change ∷ []) }
        ensures room { self.old.occupants.1 ≤ self.new.occupants.1 + births (change ∷ []) }
    {
        match change {
            Change::Born(Some(at)) => self.put(at, next),
            Change::Born(None) => {}
            Change::Gone(at) => self.clear(at),
        }
    }

    /// Notes the changes of a draft. It takes no memory.
    fn note_changes(&mut self, draft: &Draft)
        requires { births draft.now.changes.items ≤ self.old.occupants.1 }
        ensures kinds { self.new.kinds ≡ self.old.kinds }
        ensures occupants { (p s : ℕ) → known_occupant self.new p s ≡ occupant_in p s (length self.old.kinds.items) (known_occupant self.old p s) draft.now.changes.items }
    {
        let mut next = self.kinds.len() as u64;
        for change in draft.changes.as_slice() {
            self.note_change(*change, next);
            next += births_of(*change);
        }
    }

    /// Notes a draft, for which there is room. It takes no memory.
    pub fn note(&mut self, draft: &Draft)
        requires kinds_room { length self.old.kinds.items + length draft.now.kinds.items ≤ vec_capacity self.old.kinds }
        requires slots_room { length draft.now.changes.items ≤ self.old.occupants.1 }
        ensures kinds { self.new.kinds.items ≡ self.old.kinds.items ++ draft.now.kinds.items }
        ensures occupants { (p s : ℕ) → known_occupant self.new p s ≡ occupant_in p s (length self.old.kinds.items) (known_occupant self.old p s) draft.now.changes.items }
    {
        self.note_changes(draft);
        match self.kinds.extend_from_slice(draft.kinds.as_slice()) {
            Ok(()) => {}
            Err(_) => unreachable!(),
        }
    }

    /// A draft with which nothing is changed yet. It takes no memory.
    pub fn draft(&self, alloc: Global) -> Draft
        ensures { (S : Declarations) (done : List Act) → Knows S self.now done → IsAfter S self.now result done }
    {
        Draft::new(alloc)
    }

    /// Takes over what a draft changes. On want of memory what is known is the same.
    pub fn absorb(&mut self, draft: &Draft) -> Result<(), AllocError>
        ensures knows { OnOk result ((S : Declarations) (done : List Act) → IsAfter S self.old draft.now done → Knows S self.new done) }
        ensures same { OnErr result ((S : Declarations) (done : List Act) → Knows S self.old done → Knows S self.new done) }
    {
        self.reserve(draft)?;
        self.note(draft);
        Ok(())
    }
}

/// How many instances a change creates.
fn births_of(change: Change) -> u64
    ensures { result ≡ births (change ∷ []) }
{
    match change {
        Change::Born(_) => 1,
        Change::Gone(_) => 0,
    }
}

/// The occupant of a slot after one change.
fn occupant_after(change: Change, at: SlotOf, next: u64, found: Option<u64>) -> Option<u64>
    ensures { result ≡ occupant_in at.comp at.slot next found (change ∷ []) }
{
    match change {
        Change::Born(Some(place)) if is_same(place, at) => Some(next),
        Change::Born(_) => found,
        Change::Gone(place) if is_same(place, at) => None,
        Change::Gone(_) => found,
    }
}

fn is_same(a: SlotOf, b: SlotOf) -> bool
    ensures { result ≡ is_at b.comp b.slot (Some a) }
{
    a.comp == b.comp && a.slot == b.slot
}
