ghost use Rattle.std.specs.Prelude.{◌≡◌, ◌∷◌, [], ◌++◌, IfOk, OnOk, OnErr};
ghost use Rattle.kom_record.specs.declared.plan.Plan.{Plan};
ghost use Rattle.kom_record.specs.Entries.{History, acts};
ghost use Rattle.kom_record.specs.Legal.{IsLegal};
ghost use Rattle.kom_record.specs.Trace.{entry_lines, end_lines, joined};
ghost use Rattle.kom_scribe.specs.Drafts.{IsAfter};
ghost use Rattle.kom_trace.specs.Counting.{IsTallyOf};
ghost use Rattle.kom_trace.specs.Seen.{HasSeen};

use crate::counts::Counts;
use crate::ends::add_end_lines;
use kom_lines::{Names, Text};
use kom_record::{Entry, Tally};
use kom_scribe::{Draft, Known, add_entry};
use kom_system::System;
use std::alloc::{AllocError, Global};

/// Writes the text of a record entry by entry, by what it has seen of the record so far.
#[derive(Drop)]
pub struct Scribe<'s> {
    pub names: Names<'s>,
    pub known: Known,
    pub counts: Counts,
    alloc: Global,
}

impl<'s> Scribe<'s> {
    /// A scribe that has seen no entry. The error is want of memory.
    pub fn begin(alloc: Global, system: &'s System) -> Result<Scribe<'s>, AllocError>
        ensures names { IfOk result (λ scribe. scribe.names ≡ system.now) }
        ensures seen { IfOk result (λ scribe. HasSeen scribe []) }
    {
        let names = Names::of(alloc, system)?;
        let known = Known::begin(alloc, &names)?;
        Ok(Scribe {
            names,
            known,
            counts: Counts::new(alloc),
            alloc,
        })
    }

    /// Adds the lines of an entry to a text: those that the text of a record has for it behind the
    /// entries seen so far, which with this one are a legal record. On want of memory the scribe is
    /// as before, and nothing is said of the text.
    pub fn entry_text(&mut self, text: &mut Text, entry: &Entry) -> Result<(), AllocError>
        ensures names { self.new.names ≡ self.old.names }
        ensures lines { OnOk result ((Z : Plan) (P : History) → HasSeen self.old P → ∥ IsLegal self.old.names.declarations Z (entry.now ∷ P) ∥₁ → text.new ≡ text.old ++ joined (entry_lines self.old.names.event_names self.old.names.declarations P entry.now)) }
        ensures seen { OnOk result ((Z : Plan) (P : History) → HasSeen self.old P → ∥ IsLegal self.old.names.declarations Z (entry.now ∷ P) ∥₁ → HasSeen self.new (entry.now ∷ P)) }
        ensures same { OnErr result ((P : History) → HasSeen self.old P → HasSeen self.new P) }
    {
        let mut draft = self.known.draft(self.alloc);
        let position = self.counts.position();
        add_entry(
            self.alloc,
            text,
            &self.names,
            &self.known,
            &mut draft,
            position,
            entry,
        )?;
        self.take_over(&draft, entry)?;
        Ok(())
    }

    /// Notes an entry, with the draft of what it changes.
    fn take_over(&mut self, draft: &Draft, entry: &Entry) -> Result<(), AllocError>
        ensures names { self.new.names ≡ self.old.names }
        ensures seen { OnOk result ((Z : Plan) (P : History) → HasSeen self.old P → IsAfter self.old.names.declarations self.old.known draft.now (acts (entry.now ∷ P))
            → ∥ IsLegal self.old.names.declarations Z (entry.now ∷ P) ∥₁ → HasSeen self.new (entry.now ∷ P)) }
        ensures same { OnErr result ((P : History) → HasSeen self.old P → HasSeen self.new P) }
    {
        self.counts.reserve()?;
        self.known.absorb(draft)?;
        self.counts.note(entry);
        Ok(())
    }

    /// Adds the two last lines of the text of the record that was seen, of which `tally` says what it
    /// leaves. After want of memory nothing is said of the text.
    pub fn end_text(&self, text: &mut Text, tally: &Tally) -> Result<(), AllocError>
        ensures { OnOk result ((Z : Plan) (P : History) → HasSeen self.now P → IsTallyOf self.now.names.declarations Z P tally.now → text.new ≡ text.old ++ joined (end_lines self.now.names.declarations Z P)) }
    {
        add_end_lines(text, &self.counts, tally)
    }
}
