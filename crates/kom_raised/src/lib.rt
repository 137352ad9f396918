//! Whether a handling that ended raises a fault, and who is told of it.
#![tactic(auto)]

ghost use Rattle.std.specs.Prelude.{◌≡◌, is_some};
ghost use Rattle.std.specs.List.{list_any};
ghost use Rattle.kom_lang.specs.Steps as steps;
ghost use Rattle.kom_record.specs.Controls.{fault_in};
ghost use Rattle.kom_raised.specs.Raised.{DonesAreTold, is_raised};

use kom_lang::Effect;
use kom_record::{Control, Item};

/// Whether a handling of an item with these effects raises a fault: the item is a Fault, and the
/// handling escalates it. It costs the number of the effects.
pub fn raises(item: &Item, effects: &[Effect]) -> bool
    ensures { result ≡ is_raised item.now effects.now }
{
    is_fault(item) && escalates(effects)
}

/// Whether an item is a Fault.
fn is_fault(item: &Item) -> bool
    ensures { result ≡ is_some (fault_in item.now) }
{
    matches!(item, Item::Control(Control::Fault { .. }))
}

/// Whether one of the effects escalates.
fn escalates(effects: &[Effect]) -> bool
    ensures { result ≡ list_any steps.is_escalate effects.now }
{
    effects.iter().any(|effect| is_escalate(effect))
}

fn is_escalate(effect: &Effect) -> bool
    ensures { result ≡ steps.is_escalate effect.now }
{
    matches!(effect, Effect::Escalate)
}

/// The entry of a handling that ended tells of a fault exactly where it raises one, and then who is
/// told of a fault of its component; and a fault is unhandled by it exactly where nobody is. The
/// call gives a proof this fact, and does nothing else.
pub fn dones_are_told()
    ensures { DonesAreTold }
{}

#[cfg(test)]
mod tests {
    use super::*;
    use std::test::Fail;

    #[test]
    fn raises_what_it_escalates(rt: HostRuntime) -> Result<(), Fail> {
        let fault = Item::Control(Control::Fault { slot: 0, number: 7 });
        let stop = Item::Control(Control::Stop);
        let escalates = [Effect::Start(1), Effect::Escalate];
        let starts = [Effect::Start(1)];
        assert!(rt; raises(&fault, &escalates));
        assert!(rt; !raises(&fault, &starts));
        assert!(rt; !raises(&stop, &escalates));
        Ok(())
    }
}
