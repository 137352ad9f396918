ghost use Rattle.std.specs.Prelude.{◌≡◌, ◌++◌, OnOk, codes};
ghost use Rattle.kom_lines.specs.Lines.{way_text};
ghost use Rattle.kom_record.specs.Trace.{word, numbers, arrival_word, side_word, direction, control_text, event_text, item_text};

use crate::names::{Names, port_name};
use crate::text::Text;
use kom_base::{Chan, Dir, EntryNo, Event, Side, Values};
use kom_lang::Kind;
use kom_record::{Back, Control, Item};
use std::alloc::AllocError;

/// The word of a direction.
pub fn direction_word(d: Dir) -> &'static [u8]
    ensures { result.now ≡ direction d }
{
    match d {
        Dir::Plus => b"plus",
        Dir::Minus => b"minus",
    }
}

fn side_word(side: Side) -> &'static [u8]
    ensures { result.now ≡ side_word side }
{
    match side {
        Side::Outside => b"outside",
        Side::Inside => b"inside",
    }
}

fn arrival_word(back: Back) -> &'static [u8]
    ensures { result.now ≡ arrival_word back }
{
    match back {
        Back::To(_) => b"reply",
        Back::Plain | Back::Home => b"event",
    }
}

fn add_word_and_numbers(text: &mut Text, head: &[u8], values: &Values) -> Result<(), AllocError>
    ensures { OnOk result (text.new ≡ text.old ++ (word head.now ++ numbers values.now)) }
{
    text.add_word(head)?;
    text.add_numbers(values)
}

fn add_fault(text: &mut Text, slot: u8, number: u16) -> Result<(), AllocError>
    ensures { OnOk result (text.new ≡ text.old ++ control_text (Control.Fault slot number)) }
{
    text.add_word(b"fault")?;
    text.add_number(u64::from(slot))?;
    text.add_number(u64::from(number))
}

fn add_dumped(text: &mut Text, slot: u8, values: &Values) -> Result<(), AllocError>
    ensures { OnOk result (text.new ≡ text.old ++ control_text (Control.Dumped slot values.now)) }
{
    text.add_word(b"dumped")?;
    text.add_number(u64::from(slot))?;
    text.add_numbers(values)
}

fn add_control(text: &mut Text, control: &Control) -> Result<(), AllocError>
    ensures { OnOk result (text.new ≡ text.old ++ control_text control.now) }
{
    match control {
        Control::Init(values) => add_word_and_numbers(text, b"init", values),
        Control::Start => text.add_word(b"start"),
        Control::Stop => text.add_word(b"stop"),
        Control::Fault { slot, number } => add_fault(text, *slot, *number),
        Control::Dump => text.add_word(b"dump"),
        Control::Dumped { slot, values } => add_dumped(text, *slot, values),
    }
}

/// Adds the name of an event's type and its values.
pub fn add_event(text: &mut Text, names: &Names<'_>, event: &Event) -> Result<(), AllocError>
    ensures { OnOk result (text.new ≡ text.old ++ event_text names.now.event_names event.now) }
{
    text.add_word(names.event(event.kind))?;
    text.add_numbers(&event.values)
}

/// The direction of an arrival, and the number of its offer.
fn add_way(text: &mut Text, back: Back, chan: Chan, dir: Dir, no: EntryNo) -> Result<(), AllocError>
    ensures { OnOk result (text.new ≡ text.old ++ way_text back chan dir no) }
{
    text.add_word(arrival_word(back))?;
    text.add_number(u64::from(chan.0))?;
    text.add_word(direction_word(dir))?;
    text.add_word(b"")?;
    text.add_decimal(u64::from(no.position))?;
    text.add(b".")?;
    text.add_decimal(u64::from(no.place))
}

/// Where an event arrived, and the event.
fn add_arrived(
    text: &mut Text,
    names: &Names<'_>,
    port: &[u8],
    side: Side,
    event: &Event,
) -> Result<(), AllocError>
    ensures { OnOk result (text.new ≡ text.old ++ (word port.now ++ word (side_word side) ++ event_text names.now.event_names event.now)) }
{
    text.add_word(port)?;
    text.add_word(side_word(side))?;
    add_event(text, names, event)
}

/// Adds an item of a component of a type.
pub fn add_item(
    text: &mut Text,
    names: &Names<'_>,
    kind: &Kind,
    item: &Item,
) -> Result<(), AllocError>
    ensures { OnOk result (text.new ≡ text.old ++ item_text names.now.event_names kind.now item.now) }
{
    match item {
        Item::Control(control) => add_control(text, control),
        Item::Arrival {
            chan,
            dir,
            no,
            port,
            side,
            event,
            back,
        } => {
            add_way(text, *back, *chan, *dir, *no)?;
            add_arrived(text, names, port_name(kind, *port), *side, event)
        }
    }
}
