ghost use Rattle.std.specs.Prelude.{◌≡◌, ◌+◌, ◌<◌, ◌≤◌, ◌^◌, ℕ, List, length, IfOk, OnOk, Option, Some};
ghost use Rattle.kom_base.specs.Numbers.{other_side};
ghost use Rattle.kom_lang.specs.declared.body.Body as body;
ghost use Rattle.kom_record.specs.Entries.{item_at};
ghost use Rattle.kom_record.specs.Offers.{offer_of, relayed};
ghost use Rattle.kom_record.specs.declared.entry.Entry.TheVariants.{Did};
ghost use Rattle.kom_record.specs.declared.entry.Outcome.TheVariants.{Done};
ghost use Rattle.kom_entering.specs.Lists.{AreNoted, IsEntering, listed};
ghost use Rattle.kom_entering.specs.Standing.{StandsAfter};

use crate::lists::Entering;
use crate::relays::passed_on;
use kom_base::{Comp, Half, Side};
use kom_lang::Effect;
use kom_record::{Back, Item, Record};
use kom_state::RunState;
use kom_system::System;
use std::alloc::{AllocError, Global};

impl Entering {
    /// What the offers of a handling of an item by a component come to: the arrived event that is
    /// passed on, and its triggers and answers. The item is that of the Took at position `took`;
    /// the state stands for the record before the entry. The error is want of memory. It costs the
    /// effects, and for each offer the channels plugged at its half with the tests of their
    /// selectors.
    pub fn of(
        alloc: Global,
        system: &System,
        state: &RunState,
        kept: &Record,
        c: Comp,
        took: u32,
        item: &Item,
        effects: &[Effect],
    ) -> Result<Entering, AllocError>
        requires effects { length effects.now + 2 < 2 ^ 32 }
        requires record { length kept.now.history < 2 ^ 32 }
        ensures { IfOk result (λ v. (w : ℕ) (after : body.Body) (to : Option ℕ) (places : List ℕ) → StandsAfter system.now.declarations kept.now.history state.now → item_at kept.now.history took ≡ Some item.now → IsEntering system.now.declarations kept.now.history (Did w c took (Done after effects.now) to places) v) }
    {
        let mut out = Entering::new(alloc, kept.len() as u32);
        out.relay(system, state, kept, c, item)?;
        for effect in effects {
            out.offer_by(system, state, kept, c, took, item, effect)?;
        }
        Ok(out)
    }

    /// Notes the arrived event, which is passed on at the other half of its port.
    fn relay(
        &mut self,
        system: &System,
        state: &RunState,
        kept: &Record,
        c: Comp,
        item: &Item,
    ) -> Result<(), AllocError>
        requires { self.old.offers + 1 < 2 ^ 32 }
        ensures few { OnOk result (self.new.offers ≤ self.old.offers + 1) }
        ensures noted { OnOk result (StandsAfter system.now.declarations kept.now.history state.now → self.old.position ≡ length kept.now.history → AreNoted system.now.declarations kept.now.history (relayed kept.now.history c item.now) self.old self.new) }
    {
        match item {
            Item::Control(_) => Ok(()),
            Item::Arrival {
                port,
                side,
                event,
                back,
                ..
            } => {
                let half = Half {
                    comp: c,
                    port: *port,
                    side: other(*side),
                };
                self.offer(system, state, kept, &half, event, passed_on(kept, *back))
            }
        }
    }

    /// Notes what an effect offers, if it offers an event.
    fn offer_by(
        &mut self,
        system: &System,
        state: &RunState,
        kept: &Record,
        c: Comp,
        took: u32,
        item: &Item,
        effect: &Effect,
    ) -> Result<(), AllocError>
        requires { self.old.offers + 1 < 2 ^ 32 }
        ensures few { OnOk result (self.new.offers ≤ self.old.offers + 1) }
        ensures noted { OnOk result (StandsAfter system.now.declarations kept.now.history state.now → self.old.position ≡ length kept.now.history → AreNoted system.now.declarations kept.now.history (listed (offer_of c took item.now effect.now)) self.old self.new) }
    {
        match effect {
            Effect::Trigger { port, event } => {
                let half = Half {
                    comp: c,
                    port: *port,
                    side: Side::Outside,
                };
                self.offer(system, state, kept, &half, event, Back::Plain)
            }
            Effect::Answer { event } => match item {
                Item::Arrival { port, side, .. } => {
                    let half = Half {
                        comp: c,
                        port: *port,
                        side: *side,
                    };
                    self.offer(system, state, kept, &half, event, Back::To(took))
                }
                Item::Control(_) => Ok(()),
            },
            _ => Ok(()),
        }
    }
}

/// The other side of a port.
fn other(side: Side) -> Side
    ensures { result ≡ other_side side }
{
    match side {
        Side::Outside => Side::Inside,
        Side::Inside => Side::Outside,
    }
}
