ghost use Rattle.std.specs.Prelude.{◌≡◌, ◌<◌, ◌^◌, ◌∷◌, [], ◌++◌, length, slice_get, List, Some, IfOk, OnOk};
ghost use Rattle.kom_lang.specs.declared.body.Effect.{Effect};
ghost use Rattle.kom_record.specs.declared.item.Item.{Item};
ghost use Rattle.kom_record.specs.Entries.{Act, acts_for};
ghost use Rattle.kom_record.specs.Trace.{effect_text, effect_lines, indented, joined};
ghost use Rattle.kom_scribe.specs.Drafts.{kinds_with, IsAfter, Creates};

use crate::draft::Draft;
use crate::effects::add_effect;
use crate::known::Known;
use kom_base::Comp;
use kom_lang::{Effect, Effects};
use kom_lines::{Names, Text};
use kom_trees::{SlotOf, tree_of};
use std::alloc::{AllocError, Global};

/// The number of the next instance. One that no memory could hold is want of memory.
fn next_number(known: &Known, draft: &Draft) -> Result<u64, AllocError>
    ensures count { IfOk result (λ n. n ≡ length (kinds_with known.now draft.now)) }
    ensures small { IfOk result (λ n. n < 2 ^ 63) }
{
    let count = known.count(draft);
    if count < 1 << 63 {
        Ok(count)
    } else {
        Err(AllocError)
    }
}

/// Drafts the instances that a creation makes.
fn draft_create(
    alloc: Global,
    names: &Names<'_>,
    known: &Known,
    draft: &mut Draft,
    at: SlotOf,
    kind: u16,
) -> Result<(), AllocError>
    ensures { OnOk result (Creates names.now.declarations known.now at kind draft.old draft.new) }
{
    let number = next_number(known, draft)?;
    let nodes = tree_of(alloc, names.system(), number, kind, Some(at))?;
    draft.add_nodes(nodes.as_slice())?;
    Ok(())
}

/// Drafts what an effect of an instance changes.
fn draft_effect(
    alloc: Global,
    names: &Names<'_>,
    known: &Known,
    draft: &mut Draft,
    c: Comp,
    effect: &Effect,
) -> Result<(), AllocError>
    ensures { OnOk result ((done : List Act) (item : Item) → IsAfter names.now.declarations known.now draft.old done → IsAfter names.now.declarations known.now draft.new (acts_for c (Some item) (effect.now ∷ []) ++ done)) }
{
    let comp = u64::from(c.0);
    match effect {
        Effect::Create { slot, kind, .. } => {
            let at = SlotOf { comp, slot: *slot };
            draft_create(alloc, names, known, draft, at, *kind)?;
            Ok(())
        }
        Effect::Destroy(slot) => {
            draft.add_gone(SlotOf { comp, slot: *slot })?;
            Ok(())
        }
        _ => Ok(()),
    }
}

/// Adds the line of an effect, and drafts what the effect changes.
fn add_effect_line(
    alloc: Global,
    text: &mut Text,
    names: &Names<'_>,
    known: &Known,
    draft: &mut Draft,
    c: Comp,
    to: &Option<Comp>,
    effect: &Effect,
) -> Result<(), AllocError>
    ensures line { OnOk result ((done : List Act) → IsAfter names.now.declarations known.now draft.old done → text.new ≡ text.old ++ (indented (effect_text names.now.event_names names.now.declarations done c to.now effect.now) ++ 10 ∷ [])) }
    ensures after { OnOk result ((done : List Act) (item : Item) → IsAfter names.now.declarations known.now draft.old done → IsAfter names.now.declarations known.now draft.new (acts_for c (Some item) (effect.now ∷ []) ++ done)) }
{
    text.add(b"  ")?;
    add_effect(text, names, known, draft, c, *to, effect)?;
    text.add(b"\n")?;
    draft_effect(alloc, names, known, draft, c, effect)?;
    Ok(())
}

/// The same for the effect at a place.
fn add_effect_line_at(
    alloc: Global,
    text: &mut Text,
    names: &Names<'_>,
    known: &Known,
    draft: &mut Draft,
    c: Comp,
    to: &Option<Comp>,
    effects: &Effects,
    i: usize,
) -> Result<(), AllocError>
    requires { i < length effects.now }
    ensures line { OnOk result ((done : List Act) (e : Effect) → slice_get effects.now i ≡ Some e → IsAfter names.now.declarations known.now draft.old done → text.new ≡ text.old ++ (indented (effect_text names.now.event_names names.now.declarations done c to.now e) ++ 10 ∷ [])) }
    ensures after { OnOk result ((done : List Act) (e : Effect) (item : Item) → slice_get effects.now i ≡ Some e → IsAfter names.now.declarations known.now draft.old done → IsAfter names.now.declarations known.now draft.new (acts_for c (Some item) (e ∷ []) ++ done)) }
{
    match effects.get(i) {
        Some(effect) => {
            add_effect_line(alloc, text, names, known, draft, c, to, effect)?;
            Ok(())
        }
        None => unreachable!(),
    }
}

/// Adds the line of each effect of a handling by an instance, and drafts what they change; `to` is
/// who is told of a fault that is escalated. After want of memory nothing is said of the text and
/// of the draft.
pub fn add_effects(
    alloc: Global,
    text: &mut Text,
    names: &Names<'_>,
    known: &Known,
    draft: &mut Draft,
    c: Comp,
    to: &Option<Comp>,
    effects: &Effects,
) -> Result<(), AllocError>
    ensures lines { OnOk result ((done : List Act) (item : Item) → IsAfter names.now.declarations known.now draft.old done → text.new ≡ text.old ++ joined (effect_lines names.now.event_names names.now.declarations done c (Some item) to.now effects.now)) }
    ensures after { OnOk result ((done : List Act) (item : Item) → IsAfter names.now.declarations known.now draft.old done → IsAfter names.now.declarations known.now draft.new (acts_for c (Some item) effects.now ++ done)) }
{
    for i in 0..effects.len() {
        add_effect_line_at(alloc, text, names, known, draft, c, to, effects, i)?;
    }
    Ok(())
}
