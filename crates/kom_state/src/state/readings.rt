ghost use Rattle.std.specs.Prelude.{◌≡◌, ℕ, ◌<◌, ◌==◌, true, length, IsSome};
ghost use Rattle.std.specs.Option.{option_copied, option_map, option_map_or, option_and_then};
ghost use Rattle.kom_base.specs.Lists.{first};
ghost use Rattle.kom_numbers.specs.Numbering as numbering;
ghost use Rattle.kom_refine.specs.Firsts.{IsFirst};
ghost use Rattle.kom_refine.specs.States.{end_of};
ghost use Rattle.kom_state.specs.Facts.{HoldsTogether};
ghost use Rattle.kom_state.specs.Parts.{state_of};
ghost use Rattle.kom_state.specs.Readings.{first_item, is_active, ancestry_at, nearest_in, front_seen, AreAtHalf};

use crate::state::RunState;
use kom_base::{Chan, Comp, Dir, EntryNo, Half};
use kom_lang::Body;
use kom_record::Control;
use kom_wiring::AtHalf;

impl RunState {
    /// Whether a component was created and lives.
    pub fn alive(&self, c: Comp) -> bool
        ensures { result ≡ (state_of self.now).living c }
    {
        self.tree.alive(c)
    }

    /// The parent of a component that was created, with the slot there; `None` for the root.
    pub fn parent(&self, c: Comp) -> Option<(Comp, u8)>
        requires { c < length (state_of self.now).nodes }
        ensures { result ≡ first (ancestry_at (state_of self.now) c) }
    {
        self.tree.parent(c)
    }

    /// The component in a slot of one that was created; `None` exactly where none lives there.
    pub fn child(&self, c: Comp, slot: u8) -> Option<Comp>
        requires { c < length (state_of self.now).nodes }
        ensures { result ≡ (state_of self.now).child c slot }
    {
        self.tree.child(c, slot)
    }

    /// The body of a component; `None` exactly where it does not live.
    pub fn body(&self, c: Comp) -> Option<&Body>
        ensures { option_copied result ≡ (state_of self.now).bodies c }
    {
        self.bodies.get(c)
    }

    /// Whether a component lives and is active.
    pub fn active(&self, c: Comp) -> bool
        ensures { result ≡ is_active (state_of self.now) c }
    {
        self.life.active(c)
    }

    /// The first control item that waits for a living component; `None` exactly where none does.
    pub fn first_control(&self, c: Comp) -> Option<&Control>
        requires { (state_of self.now).living c ≡ true }
        ensures { option_copied result ≡ first_item (state_of self.now) c }
    {
        self.life.first(c)
    }

    /// The first of the numbers at the fronts from which a component may take; `None` exactly
    /// where it may take from none.
    pub fn first_for(&self, c: Comp) -> Option<(Chan, Dir, EntryNo)>
        ensures { IsFirst (state_of self.now) c (option_map front_seen result) }
    {
        self.queues.first_at(c)
    }

    /// The closest proper ancestor that has a fault handler subscribed, with its slot that contains
    /// the component; `None` exactly where no ancestor has one. It costs the depth of the
    /// component.
    pub fn nearest(&self, c: Comp) -> Option<(Comp, u8)>
        requires { c < length (state_of self.now).nodes }
        ensures { result ≡ nearest_in (state_of self.now) c }
    {
        self.life.nearest(&self.tree, c)
    }

    /// The half at which an end of a living channel is plugged; `None` where the end is free.
    pub fn end(&self, x: Chan, end: Dir) -> Option<Half>
        requires { IsSome ((state_of self.now).links x) }
        ensures { result ≡ option_and_then (λ l. end_of l end) ((state_of self.now).links x) }
    {
        self.wiring.end(x, end)
    }

    /// The halves at which the plus and the minus end of a living channel are plugged; `None` where
    /// an end is free.
    pub fn ends(&self, x: Chan) -> (Option<Half>, Option<Half>)
        requires { IsSome ((state_of self.now).links x) }
        ensures plus { result.0 ≡ option_and_then (λ l. l.plus) ((state_of self.now).links x) }
        ensures minus { result.1 ≡ option_and_then (λ l. l.minus) ((state_of self.now).links x) }
    {
        self.wiring.places(x)
    }

    /// The living channels that are plugged at a half, by rising number.
    pub fn channels_at(&self, half: Half) -> AtHalf<'_>
        ensures { AreAtHalf (state_of self.now) half result }
    {
        self.wiring.at_half(half)
    }

    /// How many numbers wait in a direction of a living channel that does not lead out.
    pub fn waiting(&self, x: Chan, d: Dir) -> usize
        requires { IsSome ((state_of self.now).queues x d) }
        ensures { result ≡ option_map_or (λ q. length q.numbers) ((state_of self.now).queues x d) 0 }
    {
        self.queues.waiting(x, d)
    }

    /// How many instances were created.
    pub fn instance_count(&self) -> u32
        ensures { result ≡ length (state_of self.now).nodes }
    {
        self.numbers.instances()
    }

    /// How many channels were created, those of the root's ports included.
    pub fn channel_count(&self) -> u32
        ensures { result ≡ numbering.total self.now.numbers }
    {
        self.numbers.total()
    }

    /// The number of a channel that the type of a component declares.
    pub fn channel(&self, c: Comp, wire: u8) -> Chan
        requires made { c < length (state_of self.now).nodes }
        requires declared { wire < numbering.count_of self.now.numbers c }
        ensures { (x : ℕ) → numbering.is_wire self.now.numbers c wire x ≡ (x == result) }
    {
        self.numbers.channel(c, wire)
    }

    /// The component whose channel has a number, and the place of the channel there; `None` where
    /// the channel is one of the root's ports, and where no channel has the number.
    pub fn wire_of(&self, x: Chan) -> Option<(Comp, u32)>
        ensures { result ≡ numbering.wire_at self.now.numbers x }
    {
        self.numbers.wire_of(x)
    }

    /// Whether a direction of a channel leads to the environment.
    pub fn leads_out(&self, x: Chan, d: Dir) -> bool
        ensures { result ≡ numbering.leads_out self.now.numbers x d }
    {
        self.numbers.leads_out(x, d)
    }

    /// How the parts of the state hold together. The call gives a proof these facts, and does
    /// nothing else.
    pub fn holds_together(&self)
        ensures { HoldsTogether self.now }
    {
        self.tree.well_grown();
    }
}
