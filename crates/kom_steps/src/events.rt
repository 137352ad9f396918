ghost use Rattle.std.specs.Prelude.{◌≡◌};
ghost use Rattle.std.specs.List.{list_any};
ghost use Rattle.kom_lang.specs.declared.stmt.Stmt.TheOpen.{Trigger, Answer, Escalate};
ghost use Rattle.kom_lang.specs.Steps as steps;
ghost use Rattle.kom_lang.specs.Steps.{Context};
ghost use Rattle.kom_steps.specs.Handlings.{context_of, Does};

use crate::handling::{Handling, Setting};
use kom_base::Event;
use kom_lang::{Effect, Effects, Exprs};
use kom_values::Stop;

/// `trigger`: an event is sent out by a port.
pub fn trigger(
    setting: &Setting<'_>,
    kind: u16,
    values: &Exprs,
    port: u8,
    handling: &mut Handling,
) -> Result<(), Stop>
    ensures step { Does (context_of setting.now) (Trigger kind values.now port) handling.old handling.new result }
    ensures turns { handling.new.turns ≡ handling.old.turns }
{
    let values = handling.values_of(setting, values)?;
    let event = Event { kind, values };
    handling.take_effect(None, Effect::Trigger { port, event })
}

/// `answer`: an event goes back where the event in hand came from.
pub fn answer(
    setting: &Setting<'_>,
    kind: u16,
    values: &Exprs,
    handling: &mut Handling,
) -> Result<(), Stop>
    ensures step { Does (context_of setting.now) (Answer kind values.now) handling.old handling.new result }
    ensures turns { handling.new.turns ≡ handling.old.turns }
{
    let values = handling.values_of(setting, values)?;
    let event = Event { kind, values };
    handling.take_effect(None, Effect::Answer { event })
}

fn is_escalate(effect: &Effect) -> bool
    ensures { result ≡ steps.is_escalate effect.now }
{
    matches!(effect, Effect::Escalate)
}

fn has_escalate(effects: &Effects) -> bool
    ensures { result ≡ list_any steps.is_escalate effects.now }
{
    effects.as_slice().iter().any(is_escalate)
}

/// `escalate`: the fault in hand is passed on, once at most.
pub fn escalate(handling: &mut Handling) -> Result<(), Stop>
    ensures step { (g : Context) → Does g Escalate handling.old handling.new result }
    ensures turns { handling.new.turns ≡ handling.old.turns }
{
    if has_escalate(&handling.effects) {
        return Ok(());
    }
    handling.take_effect(None, Effect::Escalate)
}
