ghost use Rattle.std.specs.Prelude.{◌≡◌, ◌+◌, ◌<◌, ◌≤◌, ◌^◌, ◌==◌, ◌&&◌, not, length, IfOk, IsSome, OnOk};
ghost use Rattle.kom_base.specs.declared.numbers.Half as numbers;
ghost use Rattle.kom_base.specs.declared.values.Event as event;
ghost use Rattle.kom_base.specs.Numbers.{same_dir};
ghost use Rattle.kom_lang.specs.Declarations.{Declarations};
ghost use Rattle.kom_record.specs.declared.item.Back.TheVariants.{Plain, To, Home};
ghost use Rattle.kom_record.specs.Entries.{History};
ghost use Rattle.kom_numbers.specs.Numbering.{leads_out};
ghost use Rattle.kom_state.specs.Parts.{state_of};
ghost use Rattle.kom_entering.specs.Lists.{IsOneMore, offer_from};
ghost use Rattle.kom_entering.specs.Standing.{StandsAfter};
ghost use Rattle.kom_entering.specs.Ways.{HaveBeenNoted, IsWayOut, comes_into, HasGone, HasGoneBy, HasMissed, IsNotedIn, IsWayTaken, leaves_at, way_by};

use crate::lists::{Coming, Entering, Going};
use crate::relays::taken_item;
use crate::ways::{begins, entered, opposite};
use kom_base::{Chan, Dir, Event, Half};
use kom_handlings::bodies_know_their_place;
use kom_offered::{answers_go_one_way, offers_enter_by_state};
use kom_record::{Back, Item, Record};
use kom_state::{RunState, channels_are_numbered};
use kom_system::System;
use kom_times::goes_out_once;
use std::alloc::AllocError;

impl Entering {
    /// Notes the next offer, an event at a half. The error is want of memory.
    pub(crate) fn offer(
        &mut self,
        system: &System,
        state: &RunState,
        kept: &Record,
        half: &Half,
        event: &Event,
        back: Back,
    ) -> Result<(), AllocError>
        requires { self.old.offers + 1 < 2 ^ 32 }
        ensures few { OnOk result (self.new.offers ≤ self.old.offers + 1) }
        ensures one { OnOk result (StandsAfter system.now.declarations kept.now.history state.now → self.old.position ≡ length kept.now.history → IsOneMore system.now.declarations kept.now.history (offer_from half.now event.now back) self.old self.new) }
    {
        match back {
            Back::Plain => self.spread(system, state, half, event),
            Back::To(s) => self.send_back(state, kept, half, s),
            Back::Home => {
                self.rest();
                Ok(())
            }
        }
    }

    /// Notes the next offer, an answer that has come home: it goes nowhere.
    fn rest(&mut self)
        requires { self.old.offers + 1 < 2 ^ 32 }
        ensures few { self.new.offers ≤ self.old.offers + 1 }
        ensures one { (S : Declarations) (P : History) (at : numbers.Half) (happened : event.Event) → self.old.position ≡ length P → IsOneMore S P (offer_from at happened Home) self.old self.new }
    {
        goes_out_once();
        self.count();
    }

    /// Goes on to the next offer.
    fn count(&mut self)
        requires { self.old.offers + 1 < 2 ^ 32 }
        ensures { self.new ≡ record self.old { offers = self.old.offers + 1 } }
    {
        self.offers += 1;
    }

    /// Notes the next offer, a plain event at a half: it enters each living channel that begins
    /// there and whose selector lets it pass.
    fn spread(
        &mut self,
        system: &System,
        state: &RunState,
        half: &Half,
        event: &Event,
    ) -> Result<(), AllocError>
        requires { self.old.offers + 1 < 2 ^ 32 }
        ensures few { OnOk result (self.new.offers ≤ self.old.offers + 1) }
        ensures one { OnOk result ((P : History) → StandsAfter system.now.declarations P state.now → self.old.position ≡ length P → IsOneMore system.now.declarations P (offer_from half.now event.now Plain) self.old self.new) }
    {
        offers_enter_by_state();
        goes_out_once();
        channels_are_numbered();
        bodies_know_their_place();
        let out = self.into_all(system, state, half, event)?;
        self.go_by(out)?;
        self.count();
        Ok(())
    }

    /// Notes that a plain event at a half comes into each direction that it enters and that does
    /// not lead out. The answer is a channel by which it goes out; `None` exactly where there is
    /// none.
    fn into_all(
        &mut self,
        system: &System,
        state: &RunState,
        half: &Half,
        event: &Event,
    ) -> Result<Option<Chan>, AllocError>
        ensures noted { OnOk result (HaveBeenNoted (comes_into system.now.declarations state.now half.now event.now) self.old self.new) }
        ensures out { IfOk result (λ out. IsWayOut system.now.declarations state.now half.now event.now out) }
    {
        let mut out = None;
        for x in state.channels_at(*half) {
            if self.into_both(system, state, half, event, x)? {
                out = Some(x);
            }
        }
        Ok(out)
    }

    /// The same for both directions of one living channel; the answer is whether the event goes out
    /// by it.
    fn into_both(
        &mut self,
        system: &System,
        state: &RunState,
        half: &Half,
        event: &Event,
        x: Chan,
    ) -> Result<bool, AllocError>
        requires { IsSome ((state_of state.now).links x) }
        ensures noted { OnOk result (HaveBeenNoted (λ y d. x == y && comes_into system.now.declarations state.now half.now event.now y d) self.old self.new) }
        ensures out { IfOk result (λ out. out ≡ leaves_at system.now.declarations state.now half.now event.now x) }
    {
        let (into_plus, into_minus) = entered(system, state, half, event, x);
        let plus = self.into_one(state, x, Dir::Plus, into_plus)?;
        let minus = self.into_one(state, x, Dir::Minus, into_minus)?;
        Ok(plus || minus)
    }

    /// The same for one direction, where the event enters it.
    fn into_one(
        &mut self,
        state: &RunState,
        x: Chan,
        d: Dir,
        enters: bool,
    ) -> Result<bool, AllocError>
        ensures noted { OnOk result (HaveBeenNoted (λ y e. (x == y && same_dir d e) && (enters && not (leads_out state.now.numbers x d))) self.old self.new) }
        ensures out { IfOk result (λ out. out ≡ (enters && leads_out state.now.numbers x d)) }
    {
        if !enters {
            return Ok(false);
        }
        if state.leads_out(x, d) {
            return Ok(true);
        }
        self.come(x, d)?;
        Ok(false)
    }

    /// Notes that the next offer comes into a direction.
    fn come(&mut self, x: Chan, d: Dir) -> Result<(), AllocError>
        ensures { OnOk result (HaveBeenNoted (λ y e. x == y && same_dir d e) self.old self.new) }
    {
        let no = self.number();
        self.comings.push(Coming {
            chan: x,
            dir: d,
            no,
        })
    }

    /// Notes that the next offer goes out by a channel.
    fn go(&mut self, x: Chan) -> Result<(), AllocError>
        ensures { OnOk result (HasGone x self.old self.new) }
    {
        let no = self.number();
        self.goings.push(Going { chan: x, no })
    }

    /// The same for a channel that may be there.
    fn go_by(&mut self, out: Option<Chan>) -> Result<(), AllocError>
        ensures { OnOk result (HasGoneBy out self.old self.new) }
    {
        match out {
            Some(x) => self.go(x),
            None => Ok(()),
        }
    }

    /// Notes the next offer, an answer at a half to the Took at a position: it enters the channel
    /// by which the item of the Took came, against its way, where that channel lives and begins at
    /// the half.
    fn send_back(
        &mut self,
        state: &RunState,
        kept: &Record,
        half: &Half,
        s: u32,
    ) -> Result<(), AllocError>
        requires { self.old.offers + 1 < 2 ^ 32 }
        ensures few { OnOk result (self.new.offers ≤ self.old.offers + 1) }
        ensures one { OnOk result ((S : Declarations) (happened : event.Event) → StandsAfter S kept.now.history state.now → self.old.position ≡ length kept.now.history → IsOneMore S kept.now.history (offer_from half.now happened (To s)) self.old self.new) }
    {
        offers_enter_by_state();
        answers_go_one_way();
        goes_out_once();
        channels_are_numbered();
        bodies_know_their_place();
        let way = way_back(state, kept, half, s);
        self.take_way(state, way)?;
        self.count();
        Ok(())
    }

    /// Notes that the next offer, an answer, enters a direction; `None` where it enters none.
    fn take_way(&mut self, state: &RunState, way: Option<(Chan, Dir)>) -> Result<(), AllocError>
        ensures { OnOk result (IsWayTaken state.now.numbers way self.old self.new) }
    {
        match way {
            Some((x, d)) => self.note(state, x, d),
            None => self.miss(),
        }
    }

    /// Notes that the next offer, an answer, enters no channel.
    fn miss(&mut self) -> Result<(), AllocError>
        ensures { OnOk result (HasMissed self.old self.new) }
    {
        let place = self.offers;
        self.unreached.push(place)
    }

    /// Notes that the next offer comes into a direction, or goes out by it where it leads out.
    fn note(&mut self, state: &RunState, x: Chan, d: Dir) -> Result<(), AllocError>
        ensures { OnOk result (IsNotedIn state.now.numbers x d self.old self.new) }
    {
        if state.leads_out(x, d) {
            self.go(x)
        } else {
            self.come(x, d)
        }
    }
}

/// The direction that an answer at a half to the Took at a position enters; `None` exactly where
/// there is none.
fn way_back(state: &RunState, kept: &Record, half: &Half, s: u32) -> Option<(Chan, Dir)>
    ensures { result ≡ way_by state.now kept.now.history half.now s }
{
    match taken_item(kept, s) {
        Some(Item::Arrival { chan, dir, .. }) => {
            let d = opposite(*dir);
            if begins(state, *chan, d, half) {
                Some((*chan, d))
            } else {
                None
            }
        }
        _ => None,
    }
}
