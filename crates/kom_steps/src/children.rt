ghost use Rattle.std.specs.Prelude.{◌≡◌, Bool, ◌+◌, is_some, is_none, nat_lt, List, [], ◌∷◌};
ghost use Rattle.kom_lang.specs.declared.stmt.Stmt.TheOpen.{Create, CreateFromState, Destroy};
ghost use Rattle.kom_lang.specs.Declarations.{height_of as height_in};
ghost use Rattle.kom_lang.specs.Steps as steps;
ghost use Rattle.kom_lang.specs.Steps.{Task, Context, first_fault, creates, tells_child};
ghost use Rattle.kom_steps.specs.Handlings.{context_of, config, Does, Tells};

use crate::body::{child_in, is_plugged_at, set_slot};
use crate::handling::{Handling, Setting};
use crate::ports::{count_of_vars, height_of};
use kom_lang::{Birth, Body, Effect, Exprs};
use kom_system::System;
use kom_values::{Stop, fault};

const MAX_DEPTH: u16 = 16;

/// The fault that keeps a component from being created.
fn creation_fault(
    system: &System,
    body: &Body,
    slot: u8,
    kind: u16,
    is_misshapen: bool,
) -> Option<u16>
    ensures { result ≡ first_fault ((is_some (steps.child_in body.now slot), 5) ∷ (is_misshapen, 12) ∷ (nat_lt 16 (body.now.depth + height_in system.now.declarations kind), 13) ∷ []) }
{
    if child_in(body, slot).is_some() {
        return Some(fault::SLOT_TAKEN);
    }
    if is_misshapen {
        return Some(fault::WRONG_STATE);
    }
    if u16::from(body.depth) + u16::from(height_of(system, kind)) > MAX_DEPTH {
        return Some(fault::TOO_DEEP);
    }
    None
}

/// A component is created in a slot. `is_misshapen` says that a state has another number of values
/// than the type has variables.
fn create_child(
    system: &System,
    slot: u8,
    kind: u16,
    is_misshapen: bool,
    birth: Birth,
    handling: &mut Handling,
) -> Result<(), Stop>
    ensures step { (rest : List Task) → Tells (creates system.now.declarations (config rest handling.old) slot kind is_misshapen birth) rest handling.new result }
    ensures turns { handling.new.turns ≡ handling.old.turns }
{
    let failed = creation_fault(system, &handling.body, slot, kind, is_misshapen);
    handling.take_effect(failed, Effect::Create { slot, kind, birth })?;
    set_slot(&mut handling.body.slots, slot, Some(kind));
    Ok(())
}

/// `create` with arguments.
pub fn create(
    setting: &Setting<'_>,
    slot: u8,
    kind: u16,
    args: &Exprs,
    handling: &mut Handling,
) -> Result<(), Stop>
    ensures step { Does (context_of setting.now) (Create slot kind args.now) handling.old handling.new result }
    ensures turns { handling.new.turns ≡ handling.old.turns }
{
    let args = handling.values_of(setting, args)?;
    create_child(
        setting.system,
        slot,
        kind,
        false,
        Birth::Args(args),
        handling,
    )
}

/// `create` from the state in hand.
pub fn create_from_state(
    setting: &Setting<'_>,
    slot: u8,
    kind: u16,
    handling: &mut Handling,
) -> Result<(), Stop>
    ensures step { Does (context_of setting.now) (CreateFromState slot kind) handling.old handling.new result }
    ensures turns { handling.new.turns ≡ handling.old.turns }
{
    let is_misshapen = setting.state.len() != count_of_vars(setting.system, kind);
    let state = setting.state.copy(setting.alloc)?;
    create_child(
        setting.system,
        slot,
        kind,
        is_misshapen,
        Birth::State(state),
        handling,
    )
}

fn empty_fault(body: &Body, slot: u8) -> Option<u16>
    ensures { result ≡ first_fault ((is_none (steps.child_in body.now slot), 6) ∷ []) }
{
    if child_in(body, slot).is_none() {
        Some(fault::SLOT_EMPTY)
    } else {
        None
    }
}

/// `start`, `stop` and `dump`: an effect on the child in a slot.
pub fn tell_child(slot: u8, effect: Effect, handling: &mut Handling) -> Result<(), Stop>
    ensures step { (rest : List Task) → Tells (tells_child (config rest handling.old) slot effect) rest handling.new result }
    ensures turns { handling.new.turns ≡ handling.old.turns }
{
    let failed = empty_fault(&handling.body, slot);
    handling.take_effect(failed, effect)
}

fn destruction_fault(body: &Body, slot: u8) -> Option<u16>
    ensures { result ≡ first_fault ((is_none (steps.child_in body.now slot), 6) ∷ (steps.is_plugged_at body.now slot, 7) ∷ []) }
{
    if child_in(body, slot).is_none() {
        return Some(fault::SLOT_EMPTY);
    }
    if is_plugged_at(body, slot) {
        return Some(fault::SLOT_PLUGGED);
    }
    None
}

/// `destroy`: the slot becomes empty.
pub fn destroy(slot: u8, handling: &mut Handling) -> Result<(), Stop>
    ensures step { (g : Context) → Does g (Destroy slot) handling.old handling.new result }
    ensures turns { handling.new.turns ≡ handling.old.turns }
{
    let failed = destruction_fault(&handling.body, slot);
    handling.take_effect(failed, Effect::Destroy(slot))?;
    set_slot(&mut handling.body.slots, slot, None);
    Ok(())
}
