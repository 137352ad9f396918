ghost use Rattle.std.specs.Prelude.{◌≡◌, ℕ, ◌+◌, ◌<◌, ◌≤◌, ◌^◌, ◌==◌, true, false, if◌then◌else◌, length, Some};
ghost use Rattle.kom_life.specs.Rows.{living_of, is_there, spare_of, has_room};
ghost use Rattle.kom_numbers.specs.Numbering.{total};
ghost use Rattle.kom_state.specs.Parts.{state_of};
ghost use Rattle.kom_state.specs.Plantings.{IsPlanted, HasRoomFor, TakesRoom, MayPlant, items_of};

use crate::catching::catches_faults;
use crate::laying::lay;
use crate::state::RunState;
use kom_base::Comp;
use kom_lang::Body;
use kom_life::Life;
use kom_record::Control;
use kom_system::System;
use kom_wiring::Link;

impl RunState {
    /// Creates an instance in an empty slot of a living one, or the root as the first of all, with
    /// its body, the control item that waits for it, if one does, and its channels by their links,
    /// in order of declaration. The number of the instance comes back.
    pub fn plant(
        &mut self,
        system: &System,
        place: Option<(Comp, u8)>,
        body: Body,
        init: Option<Control>,
        links: &[Link],
    ) -> Comp
        requires place { MayPlant (state_of self.old) place }
        requires few { length (state_of self.old).nodes < 4000000000 }
        requires few_channels { total self.old.numbers + length links.now < 2 ^ 32 }
        requires room { HasRoomFor links.now init (length (state_of self.old).nodes) (total self.old.numbers) self.old }
        ensures number { result ≡ length (state_of self.old).nodes }
        ensures step { IsPlanted system.now.declarations result (total self.old.numbers) place body init links.now (state_of self.old) (state_of self.new) }
        ensures room { TakesRoom links.now init result self.old self.new }
    {
        let catches = catches_faults(system, &body);
        let first = self.numbers.add(links.len() as u32);
        let c = self.tree.add(place, body.kind);
        enter(&mut self.life, c, body.active, catches, init);
        self.bodies.add(body);
        lay(
            &mut self.wiring,
            &self.numbers,
            &mut self.queues,
            first.0,
            links,
        );
        c
    }
}

/// Adds the control row of an instance.
fn enter(life: &mut Life, c: Comp, active: bool, catches: bool, init: Option<Control>)
    requires room { has_room life.old c ≡ true }
    requires absent { is_there life.old c ≡ false }
    requires spare { length (items_of init) ≤ spare_of life.old c }
    ensures each { (y : ℕ) → living_of life.new y ≡ (if y == c then Some (record { controls = items_of init; active = active; catches = catches }) else living_of life.old y) }
    ensures there { (y : ℕ) → is_there life.new y ≡ (if y == c then true else is_there life.old y) }
    ensures spare { (y : ℕ) → spare_of life.old y ≤ spare_of life.new y + (if y == c then length (items_of init) else 0) }
    ensures room { (y : ℕ) → has_room life.new y ≡ has_room life.old y }
{
    life.add(c);
    life.set(c, active, catches);
    if let Some(item) = init {
        life.put(c, item);
    }
}
