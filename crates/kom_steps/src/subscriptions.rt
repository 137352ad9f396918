ghost use Rattle.std.specs.Prelude.{◌≡◌, ◌==◌, not, filter};
ghost use Rattle.kom_base.specs.Lists.{holds_number};
ghost use Rattle.kom_lang.specs.declared.stmt.Stmt.TheOpen.{Subscribe, Unsubscribe};
ghost use Rattle.kom_lang.specs.Steps.{Context};
ghost use Rattle.kom_steps.specs.Handlings.{Does};

use crate::handling::Handling;
use kom_lang::Subs;
use kom_values::Stop;

fn holds(subs: &Subs, h: u8) -> bool
    ensures { result ≡ holds_number subs.now h }
{
    subs.as_slice().contains(&h)
}

/// `subscribe`: the handler is the last of the subscriptions, where it is not among them.
pub fn subscribe(h: u8, handling: &mut Handling) -> Result<(), Stop>
    ensures step { (g : Context) → Does g (Subscribe h) handling.old handling.new result }
    ensures turns { handling.new.turns ≡ handling.old.turns }
{
    if !holds(&handling.body.subs, h) {
        handling.body.subs.push(h)?;
    }
    Ok(())
}

/// Takes a number out of a list. It takes no memory.
fn remove_all(subs: &mut Subs, h: u8)
    ensures { subs.new ≡ filter (λ x. not (x == h)) subs.old }
{
    let mut i = 0;
    while i < subs.len() {
        if subs.as_slice()[i] == h {
            subs.remove(i);
        } else {
            i += 1;
        }
    }
}

/// `unsubscribe`: the handler is none of the subscriptions.
pub fn unsubscribe(h: u8, handling: &mut Handling) -> Result<(), Stop>
    ensures step { (g : Context) → Does g (Unsubscribe h) handling.old handling.new result }
    ensures turns { handling.new.turns ≡ handling.old.turns }
{
    remove_all(&mut handling.body.subs, h);
    Ok(())
}
