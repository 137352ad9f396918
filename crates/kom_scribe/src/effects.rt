ghost use Rattle.std.specs.Prelude.{◌≡◌, ◌++◌, [], OnOk, codes};
ghost use Rattle.std.specs.Option.{option_map_or};
ghost use Rattle.kom_record.specs.Trace.{word, numbers, number_or_none, port_name, channel_name, event_text, birth_text};
ghost use Rattle.kom_scribe.specs.Drafts.{kinds_with, type_among};
ghost use Rattle.kom_scribe.specs.Effects.{occupant_with, place_by, create_by, end_by, effect_with};

use crate::draft::Draft;
use crate::known::Known;
use kom_base::{Comp, Dir, Event, Values};
use kom_lang::{Birth, Effect, Kind, Place};
use kom_lines::{
    Names, Text, add_event, add_number_or_none, channel_name, direction_word, port_name, slot_name,
};
use kom_trees::SlotOf;
use std::alloc::AllocError;

fn add_named(text: &mut Text, verb: &[u8], name: &[u8]) -> Result<(), AllocError>
    ensures { OnOk result (text.new ≡ text.old ++ (verb.now ++ word name.now)) }
{
    text.add(verb)?;
    text.add_word(name)
}

fn add_trigger(
    text: &mut Text,
    names: &Names<'_>,
    port: &[u8],
    event: &Event,
) -> Result<(), AllocError>
    ensures { OnOk result (text.new ≡ text.old ++ (codes "trigger" ++ word port.now ++ event_text names.now.event_names event.now)) }
{
    text.add(b"trigger")?;
    text.add_word(port)?;
    add_event(text, names, event)
}

fn add_answer(text: &mut Text, names: &Names<'_>, event: &Event) -> Result<(), AllocError>
    ensures { OnOk result (text.new ≡ text.old ++ (codes "answer" ++ event_text names.now.event_names event.now)) }
{
    text.add(b"answer")?;
    add_event(text, names, event)
}

fn add_state(text: &mut Text, values: &Values) -> Result<(), AllocError>
    ensures { OnOk result (text.new ≡ text.old ++ (word (codes "state") ++ numbers values.now)) }
{
    text.add_word(b"state")?;
    text.add_numbers(values)
}

fn add_birth(text: &mut Text, names: &Names<'_>, birth: &Birth) -> Result<(), AllocError>
    ensures { OnOk result (text.new ≡ text.old ++ birth_text names.now.event_names names.now.declarations birth.now) }
{
    match birth {
        Birth::Args(values) => text.add_numbers(values),
        Birth::State(values) => add_state(text, values),
    }
}

fn add_create(
    text: &mut Text,
    names: &Names<'_>,
    slot: &[u8],
    kind: &[u8],
    number: u64,
    birth: &Birth,
) -> Result<(), AllocError>
    ensures { OnOk result (text.new ≡ text.old ++ create_by names.now.event_names names.now.declarations slot.now kind.now number birth.now) }
{
    text.add(b"create")?;
    text.add_word(slot)?;
    text.add_word(kind)?;
    text.add_number(number)?;
    add_birth(text, names, birth)
}

fn add_end(
    text: &mut Text,
    names: &Names<'_>,
    verb: &[u8],
    channel: &[u8],
    end: Dir,
) -> Result<(), AllocError>
    ensures { OnOk result (text.new ≡ text.old ++ end_by names.now.event_names names.now.declarations verb.now channel.now end) }
{
    text.add(verb)?;
    text.add_dotted(channel, direction_word(end))
}

/// The name of a port of the instance in a slot; without one the empty name.
fn name_at_slot<'n>(
    names: &'n Names<'_>,
    known: &Known,
    draft: &Draft,
    at: SlotOf,
    port: u8,
) -> &'n [u8]
    ensures { result.now ≡ option_map_or (λ q. port_name (type_among names.now.declarations (kinds_with known.now draft.now) q) port) (occupant_with known.now draft.now at.comp at.slot) [] }
{
    match known.occupant(draft, at) {
        Some(c) => port_name(known.kind_of(draft, names, c), port),
        None => b"",
    }
}

fn add_place(
    text: &mut Text,
    names: &Names<'_>,
    known: &Known,
    draft: &Draft,
    c: Comp,
    place: Place,
) -> Result<(), AllocError>
    ensures { OnOk result (text.new ≡ text.old ++ word (place_by (occupant_with known.now draft.now c) (type_among names.now.declarations (kinds_with known.now draft.now)) (type_among names.now.declarations (kinds_with known.now draft.now) c) place)) }
{
    let comp = u64::from(c.0);
    let kind = known.kind_of(draft, names, comp);
    match place.slot {
        None => text.add_dotted(b"self", port_name(kind, place.port)),
        Some(slot) => {
            let at = SlotOf { comp, slot };
            text.add_dotted(
                slot_name(kind, slot),
                name_at_slot(names, known, draft, at, place.port),
            )
        }
    }
}

fn add_plug(
    text: &mut Text,
    names: &Names<'_>,
    known: &Known,
    draft: &Draft,
    c: Comp,
    wire: u8,
    end: Dir,
    place: Place,
) -> Result<(), AllocError>
    ensures { OnOk result (text.new ≡ text.old ++ (end_by names.now.event_names names.now.declarations (codes "plug") (channel_name (type_among names.now.declarations (kinds_with known.now draft.now) c) wire) end ++ word (place_by (occupant_with known.now draft.now c) (type_among names.now.declarations (kinds_with known.now draft.now)) (type_among names.now.declarations (kinds_with known.now draft.now) c) place))) }
{
    let kind = known.kind_of(draft, names, u64::from(c.0));
    add_end(text, names, b"plug", channel_name(kind, wire), end)?;
    add_place(text, names, known, draft, c, place)
}

fn add_escalate(text: &mut Text, to: Option<Comp>) -> Result<(), AllocError>
    ensures { OnOk result (text.new ≡ text.old ++ (codes "escalate to" ++ number_or_none to)) }
{
    text.add(b"escalate to")?;
    add_number_or_none(text, to)?;
    Ok(())
}

/// Adds the text of an effect of an instance; `to` is who is told of a fault that is escalated.
pub fn add_effect(
    text: &mut Text,
    names: &Names<'_>,
    known: &Known,
    draft: &Draft,
    c: Comp,
    to: Option<Comp>,
    effect: &Effect,
) -> Result<(), AllocError>
    ensures { OnOk result (text.new ≡ text.old ++ effect_with names.now.event_names names.now.declarations known.now draft.now c to effect.now) }
{
    let kind = known.kind_of(draft, names, u64::from(c.0));
    match effect {
        Effect::Trigger { port, event } => add_trigger(text, names, port_name(kind, *port), event),
        Effect::Answer { event } => add_answer(text, names, event),
        Effect::Create {
            slot,
            kind: created,
            birth,
        } => add_create(
            text,
            names,
            slot_name(kind, *slot),
            names.kind(*created).name.bytes(),
            known.count(draft),
            birth,
        ),
        Effect::Start(slot) => add_named(text, b"start", slot_name(kind, *slot)),
        Effect::Stop(slot) => add_named(text, b"stop", slot_name(kind, *slot)),
        Effect::Destroy(slot) => add_named(text, b"destroy", slot_name(kind, *slot)),
        Effect::Dump(slot) => add_named(text, b"dump", slot_name(kind, *slot)),
        Effect::Hold(wire) => add_named(text, b"hold", channel_name(kind, *wire)),
        Effect::Resume(wire) => add_named(text, b"resume", channel_name(kind, *wire)),
        Effect::Unplug { wire, end } => {
            add_end(text, names, b"unplug", channel_name(kind, *wire), *end)
        }
        Effect::Plug { wire, end, place } => {
            add_plug(text, names, known, draft, c, *wire, *end, *place)
        }
        Effect::Escalate => add_escalate(text, to),
    }
}
