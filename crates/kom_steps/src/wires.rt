ghost use Rattle.std.specs.Prelude.{◌≡◌, ◌||◌, not, Bool, ℕ, is_some, is_none, if◌then◌else◌, List, [], ◌∷◌, Some, None};
ghost use Rattle.kom_base.specs.Lists.{either};
ghost use Rattle.kom_lang.specs.declared.stmt.Stmt.TheOpen.{Hold, Resume, Unplug, Plug};
ghost use Rattle.kom_lang.specs.Steps as steps;
ghost use Rattle.kom_lang.specs.Steps.{Task, Context, first_fault, plugs};
ghost use Rattle.kom_steps.specs.Handlings.{context_of, config, Does, Tells};

use crate::body::{child_in, end_of, set_wire, wire_of, with_end};
use crate::handling::{Handling, Setting};
use crate::ports::port_for;
use kom_base::Dir;
use kom_lang::{Effect, Name, Place, Target, Wire};
use kom_values::{Stop, fault};

fn with_held(wire: Wire, held: bool) -> Wire
    ensures { result ≡ steps.with_held wire held }
{
    Wire {
        held,
        plus: wire.plus,
        minus: wire.minus,
    }
}

/// `hold`: nothing is taken from the channel any more.
pub fn hold(k: u8, handling: &mut Handling) -> Result<(), Stop>
    ensures step { (g : Context) → Does g (Hold k) handling.old handling.new result }
    ensures turns { handling.new.turns ≡ handling.old.turns }
{
    let wire = wire_of(&handling.body, k);
    handling.take_effect(None, Effect::Hold(k))?;
    set_wire(&mut handling.body.wires, k, with_held(wire, true));
    Ok(())
}

fn resume_fault(wire: Wire) -> Option<u16>
    ensures { result ≡ first_fault ((is_none wire.plus || is_none wire.minus, 10) ∷ []) }
{
    if wire.plus.is_none() || wire.minus.is_none() {
        Some(fault::END_FREE)
    } else {
        None
    }
}

/// `resume`: a channel with both ends plugged is no longer held.
pub fn resume(k: u8, handling: &mut Handling) -> Result<(), Stop>
    ensures step { (g : Context) → Does g (Resume k) handling.old handling.new result }
    ensures turns { handling.new.turns ≡ handling.old.turns }
{
    let wire = wire_of(&handling.body, k);
    handling.take_effect(resume_fault(wire), Effect::Resume(k))?;
    set_wire(&mut handling.body.wires, k, with_held(wire, false));
    Ok(())
}

fn unplug_fault(wire: Wire, end: Dir) -> Option<u16>
    ensures { result ≡ first_fault ((not wire.held, 8) ∷ (is_none (steps.end_of wire end), 10) ∷ []) }
{
    if !wire.held {
        return Some(fault::NOT_HELD);
    }
    if end_of(wire, end).is_none() {
        return Some(fault::END_FREE);
    }
    None
}

/// `unplug`: an end of a held channel becomes free.
pub fn unplug(k: u8, end: Dir, handling: &mut Handling) -> Result<(), Stop>
    ensures step { (g : Context) → Does g (Unplug k end) handling.old handling.new result }
    ensures turns { handling.new.turns ≡ handling.old.turns }
{
    let wire = wire_of(&handling.body, k);
    let failed = unplug_fault(wire, end);
    handling.take_effect(failed, Effect::Unplug { wire: k, end })?;
    set_wire(&mut handling.body.wires, k, with_end(wire, end, None));
    Ok(())
}

/// The fault that keeps an end from being plugged; `more` is that of the checks of the place.
fn plug_fault(wire: Wire, end: Dir, more: Option<u16>) -> Option<u16>
    ensures { (checks : List (Bool × ℕ)) → more ≡ first_fault checks → result ≡ first_fault ((not wire.held, 8) ∷ (is_some (steps.end_of wire end), 9) ∷ checks) }
{
    if !wire.held {
        return Some(fault::NOT_HELD);
    }
    if end_of(wire, end).is_some() {
        return Some(fault::END_TAKEN);
    }
    more
}

/// An end of a held channel is plugged at a place.
fn plug_at(
    k: u8,
    end: Dir,
    more: Option<u16>,
    place: Place,
    handling: &mut Handling,
) -> Result<(), Stop>
    ensures step { (rest : List Task) (checks : List (Bool × ℕ)) → more ≡ first_fault checks → Tells (plugs (config rest handling.old) k end checks place) rest handling.new result }
    ensures turns { handling.new.turns ≡ handling.old.turns }
{
    let wire = wire_of(&handling.body, k);
    let failed = plug_fault(wire, end, more);
    handling.take_effect(
        failed,
        Effect::Plug {
            wire: k,
            end,
            place,
        },
    )?;
    set_wire(
        &mut handling.body.wires,
        k,
        with_end(wire, end, Some(place)),
    );
    Ok(())
}

/// The fault of a place at a child: that the slot is empty, or that there is no such port.
fn place_fault(child: Option<u16>, port: Option<u8>) -> Option<u16>
    ensures { result ≡ first_fault ((is_none child, 6) ∷ (is_none port, 11) ∷ []) }
{
    if child.is_none() {
        return Some(fault::SLOT_EMPTY);
    }
    if port.is_none() {
        return Some(fault::WRONG_PORT);
    }
    None
}

/// An end of a channel is plugged at a port of the child in a slot.
fn plug_at_child(
    setting: &Setting<'_>,
    k: u8,
    end: Dir,
    slot: u8,
    name: &Name,
    handling: &mut Handling,
) -> Result<(), Stop>
    ensures step { (rest : List Task) → Tells (steps.plugs_at setting.now.system.now.declarations (config rest handling.old) k end (Target.Child slot name.now)) rest handling.new result }
    ensures turns { handling.new.turns ≡ handling.old.turns }
{
    let child = child_in(&handling.body, slot);
    let port = port_for(setting.system, &handling.body, k, end, slot, name);
    let place = Place {
        slot: Some(slot),
        port: port.unwrap_or(0),
    };
    plug_at(k, end, place_fault(child, port), place, handling)
}

/// `plug`: an end of a held channel is plugged at a port.
pub fn plug(
    setting: &Setting<'_>,
    k: u8,
    end: Dir,
    target: &Target,
    handling: &mut Handling,
) -> Result<(), Stop>
    ensures step { Does (context_of setting.now) (Plug k end target.now) handling.old handling.new result }
    ensures turns { handling.new.turns ≡ handling.old.turns }
{
    match target {
        Target::Own(port) => {
            let place = Place {
                slot: None,
                port: *port,
            };
            plug_at(k, end, None, place, handling)
        }
        Target::Child { slot, port } => plug_at_child(setting, k, end, *slot, port, handling),
    }
}
