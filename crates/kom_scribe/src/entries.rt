ghost use Rattle.std.specs.Prelude.{◌≡◌, ◌∷◌, [], ◌++◌, ℕ, List, length, map, Some, OnOk, codes};
ghost use Rattle.kom_record.specs.declared.item.Item.{Item};
ghost use Rattle.kom_record.specs.Entries.{History, Act, acts, acts_for};
ghost use Rattle.kom_record.specs.Trace.{word, number, item_text, outcome_text, outcome_lines, entry_line, entry_lines, indented, joined, release_line};
ghost use Rattle.std.specs.List.{enumerate_from};
ghost use Rattle.kom_scribe.specs.Drafts.{IsAfter};
ghost use Rattle.kom_scribe.specs.Entries.{EndsTaken, effects_of};

use crate::draft::Draft;
use crate::following::add_effects;
use crate::known::Known;
use kom_base::Comp;
use kom_lang::Kind;
use kom_lines::{Names, Text, add_head, add_item, add_outcome, add_releases, add_unreached};
use kom_record::{Entry, Item, Outcome, Releases};
use std::alloc::{AllocError, Global};

fn add_took(
    text: &mut Text,
    names: &Names<'_>,
    kind: &Kind,
    position: u64,
    w: u32,
    c: Comp,
    item: &Item,
) -> Result<(), AllocError>
    ensures { OnOk result (text.new ≡ text.old ++ (entry_line position w (word (codes "took") ++ number c ++ item_text names.now.event_names kind.now item.now) ++ 10 ∷ [])) }
{
    add_head(text, position, w)?;
    text.add_word(b"took")?;
    text.add_number(u64::from(c.0))?;
    add_item(text, names, kind, item)?;
    text.add(b"\n")?;
    Ok(())
}

fn add_moved(
    text: &mut Text,
    names: &Names<'_>,
    position: u64,
    w: u32,
    t: u64,
    released: &Releases,
) -> Result<(), AllocError>
    ensures { OnOk result (text.new ≡ text.old ++ ((entry_line position w (word (codes "moved") ++ number t) ++ 10 ∷ [])
        ++ joined (map (release_line names.now.event_names names.now.declarations) (enumerate_from 0 released.now)))) }
{
    add_head(text, position, w)?;
    text.add_word(b"moved")?;
    text.add_number(t)?;
    text.add(b"\n")?;
    add_releases(text, names, released)?;
    Ok(())
}

/// The first line of a Did.
fn add_did(
    text: &mut Text,
    names: &Names<'_>,
    position: u64,
    w: u32,
    c: Comp,
    outcome: &Outcome,
    to: Option<Comp>,
) -> Result<(), AllocError>
    ensures { OnOk result (text.new ≡ text.old ++ (entry_line position w (word (codes "did") ++ number c ++ outcome_text names.now.event_names names.now.declarations outcome.now to) ++ 10 ∷ [])) }
{
    add_head(text, position, w)?;
    text.add_word(b"did")?;
    text.add_number(u64::from(c.0))?;
    add_outcome(text, names, outcome, to)?;
    text.add(b"\n")?;
    Ok(())
}

/// The lines of the effects of a handling, and what they change.
fn add_outcome_lines(
    alloc: Global,
    text: &mut Text,
    names: &Names<'_>,
    known: &Known,
    draft: &mut Draft,
    c: Comp,
    to: &Option<Comp>,
    outcome: &Outcome,
) -> Result<(), AllocError>
    ensures lines { OnOk result ((P : History) (item : Item) → IsAfter names.now.declarations known.now draft.old (acts P) → text.new ≡ text.old ++ joined (outcome_lines names.now.event_names names.now.declarations P c (Some item) to.now outcome.now)) }
    ensures after { OnOk result ((done : List Act) (item : Item) → IsAfter names.now.declarations known.now draft.old done → IsAfter names.now.declarations known.now draft.new (acts_for c (Some item) (effects_of outcome.now) ++ done)) }
{
    match outcome {
        Outcome::Done { effects, .. } => {
            add_effects(alloc, text, names, known, draft, c, to, effects)?;
            Ok(())
        }
        Outcome::Void | Outcome::Fault(_) => Ok(()),
    }
}

/// Adds the lines of an entry that comes behind these instances, and drafts what it changes of them;
/// `position` is the entry's. After want of memory nothing is said of the text and of the draft.
pub fn add_entry(
    alloc: Global,
    text: &mut Text,
    names: &Names<'_>,
    known: &Known,
    draft: &mut Draft,
    position: u64,
    entry: &Entry,
) -> Result<(), AllocError>
    ensures lines { OnOk result ((P : History) → length P ≡ position → IsAfter names.now.declarations known.now draft.old (acts P) → EndsTaken P entry.now → text.new ≡ text.old ++ joined (entry_lines names.now.event_names names.now.declarations P entry.now)) }
    ensures after { OnOk result ((P : History) → IsAfter names.now.declarations known.now draft.old (acts P) → EndsTaken P entry.now → IsAfter names.now.declarations known.now draft.new (acts (entry.now ∷ P))) }
{
    match entry {
        Entry::Took { w, c, item } => {
            let kind = known.kind_of(draft, names, u64::from(c.0));
            add_took(text, names, kind, position, *w, *c, item)?;
            Ok(())
        }
        Entry::Did {
            w,
            c,
            outcome,
            to,
            unreached,
            ..
        } => {
            add_did(text, names, position, *w, *c, outcome, *to)?;
            add_outcome_lines(alloc, text, names, known, draft, *c, to, outcome)?;
            add_unreached(text, unreached)?;
            Ok(())
        }
        Entry::Moved { w, t, released } => {
            add_moved(text, names, position, *w, *t, released)?;
            Ok(())
        }
    }
}
