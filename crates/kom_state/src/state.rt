ghost use Rattle.std.specs.Prelude.{◌≡◌, ◌<◌, ◌==◌, true, false, IsSome, None, Some};
ghost use Rattle.kom_record.specs.Bodies.{catches};
ghost use Rattle.kom_record.specs.declared.item.Item.TheVariants as item_is;
ghost use Rattle.kom_refine.specs.Steps.{IsTaken, IsRelinked, ArePut, HaveCome, with_held, with_end};
ghost use Rattle.kom_state.specs.Parts.{state_of, control_spare, queue_spare};
ghost use Rattle.kom_state.specs.Readings.{first_item, first_number};
ghost use Rattle.kom_state.specs.Rooms.{KeepsRoom, KeepsControls, KeepsQueues};
ghost use Rattle.kom_state.specs.Steps.{to_one, into_one, IsTakenFrom, EndsWith, Faults, UsesControl, UsesQueue};

use crate::aims::aim_both;
use crate::bodies::Bodies;
use crate::catching::{catches_faults, catches_in};
use kom_base::{Chan, Comp, Dir, EntryNo, Half};
use kom_lang::Body;
use kom_life::Life;
use kom_numbers::Numbers;
use kom_queues::Queues;
use kom_record::Control;
use kom_system::System;
use kom_tree::Tree;
use kom_wiring::Wiring;
use std::marker::Model;

mod opened;
mod planting;
mod readings;
mod removal;
mod room;

/// The state of a run: the instances, the channels with what waits in them, the control items and
/// the bodies.
///
/// Contracts see the parts that it is kept as, and through `state_of` the state that they are.
/// Each change is a step of that state, takes no memory, and says what it leaves of the room that
/// was reserved. A call costs the logarithm of the number of channels, unless it says more.
#[derive(Drop)]
pub struct RunState {
    tree: Tree,
    wiring: Wiring,
    queues: Queues,
    life: Life,
    bodies: Bodies,
    numbers: Numbers,
}

impl Model for RunState {
    ghost use Rattle.kom_state.specs.Parts.{Parts};

    ghost Value = { Parts };

    ghost use Rattle.kom_state.specs.Insides.{parts_of, IsSound};

    ghost view = { parts_of };

    ghost invariant = { IsSound };
}

impl RunState {
    /// Puts a control item behind those that wait for a living component.
    pub fn put(&mut self, c: Comp, item: Control)
        requires living { (state_of self.old).living c ≡ true }
        requires spare { 0 < control_spare self.old c }
        ensures step { ArePut (to_one c item) (state_of self.old) (state_of self.new) }
        ensures room { KeepsRoom self.old self.new }
        ensures controls { UsesControl c self.old self.new }
        ensures queues { KeepsQueues self.old self.new }
    {
        self.life.put(c, item);
    }

    /// Brings a number into a direction of a living channel that does not lead out, behind those
    /// that wait there.
    pub fn come(&mut self, x: Chan, d: Dir, no: EntryNo)
        requires there { IsSome ((state_of self.old).queues x d) }
        requires spare { 0 < queue_spare self.old x d }
        ensures step { HaveCome (into_one x d no) (state_of self.old) (state_of self.new) }
        ensures room { KeepsRoom self.old self.new }
        ensures controls { KeepsControls self.old self.new }
        ensures queues { UsesQueue x d self.old self.new }
    {
        self.queues.enter(x, d, no);
    }

    /// Takes the first control item that waits for a component for which one does.
    pub fn take_control(&mut self, c: Comp) -> Control
        requires { IsSome (first_item (state_of self.old) c) }
        ensures item { first_item (state_of self.old) c ≡ Some result }
        ensures step { IsTaken c (item_is.Control result) (state_of self.old) (state_of self.new) }
        ensures room { KeepsRoom self.old self.new }
        ensures controls { KeepsControls self.old self.new }
        ensures queues { KeepsQueues self.old self.new }
    {
        match self.life.take(c) {
            Some(item) => item,
            None => unreachable!(),
        }
    }

    /// Takes the first number that waits in a direction in which one does.
    pub fn take_arrival(&mut self, x: Chan, d: Dir) -> EntryNo
        requires { IsSome (first_number (state_of self.old) x d) }
        ensures number { first_number (state_of self.old) x d ≡ Some result }
        ensures step { IsTakenFrom x d (state_of self.old) (state_of self.new) }
        ensures room { KeepsRoom self.old self.new }
        ensures controls { KeepsControls self.old self.new }
        ensures queues { KeepsQueues self.old self.new }
    {
        match self.queues.take(x, d) {
            Some(no) => no,
            None => unreachable!(),
        }
    }

    /// Holds a living channel: nobody receives from it.
    pub fn hold(&mut self, x: Chan)
        requires { IsSome ((state_of self.old).links x) }
        ensures step { IsRelinked (λ y. y == x) (with_held true) (state_of self.old) (state_of self.new) }
        ensures room { KeepsRoom self.old self.new }
        ensures controls { KeepsControls self.old self.new }
        ensures queues { KeepsQueues self.old self.new }
    {
        self.set_held(x, true);
    }

    /// Ends the hold of a living channel: the components at its ends receive from it.
    pub fn resume(&mut self, x: Chan)
        requires { IsSome ((state_of self.old).links x) }
        ensures step { IsRelinked (λ y. y == x) (with_held false) (state_of self.old) (state_of self.new) }
        ensures room { KeepsRoom self.old self.new }
        ensures controls { KeepsControls self.old self.new }
        ensures queues { KeepsQueues self.old self.new }
    {
        self.set_held(x, false);
    }

    /// Plugs an end of a living channel at a half, wherever it was. What waits stays.
    pub fn plug(&mut self, x: Chan, end: Dir, at: Half)
        requires { IsSome ((state_of self.old).links x) }
        ensures step { IsRelinked (λ y. y == x) (with_end end (Some at)) (state_of self.old) (state_of self.new) }
        ensures room { KeepsRoom self.old self.new }
        ensures controls { KeepsControls self.old self.new }
        ensures queues { KeepsQueues self.old self.new }
    {
        self.move_end(x, end, Some(at));
    }

    /// Frees an end of a living channel. What waits stays.
    pub fn unplug(&mut self, x: Chan, end: Dir)
        requires { IsSome ((state_of self.old).links x) }
        ensures step { IsRelinked (λ y. y == x) (with_end end None) (state_of self.old) (state_of self.new) }
        ensures room { KeepsRoom self.old self.new }
        ensures controls { KeepsControls self.old self.new }
        ensures queues { KeepsQueues self.old self.new }
    {
        self.move_end(x, end, None);
    }

    fn set_held(&mut self, x: Chan, held: bool)
        requires { IsSome ((state_of self.old).links x) }
        ensures step { IsRelinked (λ y. y == x) (with_held held) (state_of self.old) (state_of self.new) }
        ensures room { KeepsRoom self.old self.new }
        ensures controls { KeepsControls self.old self.new }
        ensures queues { KeepsQueues self.old self.new }
    {
        self.wiring.set_held(x, held);
        aim_both(&self.wiring, &self.numbers, &mut self.queues, x);
    }

    fn move_end(&mut self, x: Chan, end: Dir, at: Option<Half>)
        requires { IsSome ((state_of self.old).links x) }
        ensures step { IsRelinked (λ y. y == x) (with_end end at) (state_of self.old) (state_of self.new) }
        ensures room { KeepsRoom self.old self.new }
        ensures controls { KeepsControls self.old self.new }
        ensures queues { KeepsQueues self.old self.new }
    {
        self.wiring.move_end(x, end, at);
        aim_both(&self.wiring, &self.numbers, &mut self.queues, x);
    }

    /// Ends a handling of a living component with the body that it leaves.
    pub fn end_handling(&mut self, system: &System, c: Comp, body: Body)
        requires { (state_of self.old).living c ≡ true }
        ensures step { EndsWith (catches system.now.declarations) c body (state_of self.old) (state_of self.new) }
        ensures room { KeepsRoom self.old self.new }
        ensures controls { KeepsControls self.old self.new }
        ensures queues { KeepsQueues self.old self.new }
    {
        let catches = catches_faults(system, &body);
        self.life.set(c, body.active, catches);
        self.bodies.set(c, Some(body));
    }

    /// Ends a handling of a living component that faulted: it is passive.
    pub fn fault(&mut self, system: &System, c: Comp)
        requires { (state_of self.old).living c ≡ true }
        ensures step { Faults (catches system.now.declarations) c (state_of self.old) (state_of self.new) }
        ensures room { KeepsRoom self.old self.new }
        ensures controls { KeepsControls self.old self.new }
        ensures queues { KeepsQueues self.old self.new }
    {
        let catches = catches_in(system, &self.bodies, c);
        self.life.set(c, false, catches);
        self.bodies.rest(c);
    }
}
