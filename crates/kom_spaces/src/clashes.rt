ghost use Rattle.std.specs.Prelude.{◌≡◌, IfOk, OnOk, fold, max};
ghost use Rattle.std.specs.List.{flat_map};
ghost use Rattle.std.specs.Option.{option_map};
ghost use Rattle.kom_rules.specs.Names.{first_place, repeated, with_name, names_of};
ghost use Rattle.kom_rules.specs.Spaces.{item_spots, parameters};
ghost use Rattle.kom_rules.specs.Declaring.{clashes, let_clashes, clashes_in, name_clashes, one_by_one};
ghost use Rattle.kom_spaces.specs.Tables.{HasPlaces};

use crate::declares::{first_later, note_all};
use kom_names::{Earliest, NameSet};
use kom_system::{ComponentPart, HandlerPart, OnPart, Spot, StmtPart};
use kom_walks::{InScope, Tries, at_if, earlier, first_in_scope, try_first_of};
use std::alloc::{AllocError, Global};

/// Blocks are nested no deeper in a file.
const MAX_LEVELS: u8 = 16;

/// A component type with the places of the names of its space.
#[derive(Drop)]
struct Space<'a> {
    part: &'a ComponentPart,
    places: &'a Earliest,

    ghost noted: { HasPlaces places.now (item_spots part.now) },
}

impl InScope for Space<'_> {
    ghost of = { λ s. let_clashes s.part.now };

    fn first_standing(&self, scope: &NameSet, stmt: &StmtPart) -> Option<u32> {
        match stmt {
            StmtPart::Let { name, .. } => self.clash(scope, name),
            _ => None,
        }
    }
}

impl Space<'_> {
    /// Where a name clashes with one in scope or with one of the space.
    fn clash(&self, scope: &NameSet, spot: &Spot) -> Option<u32>
        ensures { result ≡ first_place (clashes self.now.part.now scope.now spot.now) }
    {
        let in_scope = at_if(scope.holds(spot.name.bytes()), spot.at);
        let in_space = later_of(self.places.place(spot.name.bytes()), spot.at);
        earlier(in_scope, in_space)
    }

    /// Where a parameter clashes, which is in scope from then on.
    fn introduce(
        &self,
        alloc: Global,
        scope: &mut NameSet,
        spot: &Spot,
    ) -> Result<Option<u32>, AllocError>
        ensures first { IfOk result (λ first. first ≡ first_place (clashes self.now.part.now scope.old spot.now)) }
        ensures entered { OnOk result (scope.new ≡ with_name scope.old spot.now.name) }
    {
        let first = self.clash(scope, spot);
        scope.add(alloc, spot.name.bytes())?;
        Ok(first)
    }

    fn introduce_all(
        &self,
        alloc: Global,
        scope: &mut NameSet,
        spots: &[Spot],
    ) -> Result<Option<u32>, AllocError>
        ensures first { IfOk result (λ first. first ≡ first_place (flat_map (λ x. clashes self.now.part.now x.scope x.name) (one_by_one scope.old spots.now))) }
        ensures entered { OnOk result (scope.new ≡ fold with_name scope.old (names_of spots.now)) }
    {
        let mut first = None;
        for spot in spots {
            let now = self.introduce(alloc, scope, spot)?;
            first = earlier(first, now);
        }
        Ok(first)
    }

    /// Where the parameters of a handler clash, which are in scope from then on.
    fn parameters(
        &self,
        alloc: Global,
        scope: &mut NameSet,
        on: &OnPart,
    ) -> Result<Option<u32>, AllocError>
        ensures first { IfOk result (λ first. first ≡ first_place (flat_map (λ x. clashes self.now.part.now x.scope x.name) (one_by_one scope.old (parameters on.now)))) }
        ensures entered { OnOk result (scope.new ≡ fold with_name scope.old (names_of (parameters on.now))) }
    {
        match on {
            OnPart::Init(spots) => self.introduce_all(alloc, scope, spots.as_slice()),
            OnPart::Fault { slot, number } => {
                let of_slot = self.introduce(alloc, scope, slot)?;
                let of_number = self.introduce(alloc, scope, number)?;
                Ok(earlier(of_slot, of_number))
            }
            OnPart::Dumped { slot } => self.introduce(alloc, scope, slot),
            _ => Ok(None),
        }
    }

    /// Where the parameters and `let` names of a handler clash.
    fn handler(&self, alloc: Global, handler: &HandlerPart) -> Result<Option<u32>, AllocError>
        ensures { IfOk result (λ first. first ≡ first_place (clashes_in self.now.part.now handler.now)) }
    {
        let mut scope = NameSet::new(alloc);
        let of_parameters = self.parameters(alloc, &mut scope, &handler.on)?;
        let block = handler.block.as_slice();
        let of_lets = first_in_scope(self, alloc, MAX_LEVELS, &mut scope, block)?;
        Ok(earlier(of_parameters, of_lets))
    }
}

impl Tries<HandlerPart> for Space<'_> {
    ghost tried = { λ s. clashes_in s.part.now };

    fn try_first(&self, alloc: Global, handler: &HandlerPart) -> Result<Option<u32>, AllocError> {
        self.handler(alloc, handler)
    }
}

/// The later of a place and another, where there is another.
fn later_of(other: Option<u32>, at: u32) -> Option<u32>
    ensures { result ≡ option_map (max at) other }
{
    match other {
        Some(other) => Some(other.max(at)),
        None => None,
    }
}

/// The places of the names of a component type's space.
fn places_of_items(alloc: Global, part: &ComponentPart) -> Result<Earliest, AllocError>
    ensures { IfOk result (λ places. HasPlaces places (item_spots part.now)) }
{
    let mut places = Earliest::new(alloc);
    note_all(alloc, &mut places, part.ports.as_slice())?;
    note_all(alloc, &mut places, part.vars.as_slice())?;
    note_all(alloc, &mut places, part.slots.as_slice())?;
    note_all(alloc, &mut places, part.channels.as_slice())?;
    note_all(alloc, &mut places, part.handlers.as_slice())?;
    Ok(places)
}

/// The first name of a component type's space that has an equal one before it.
fn first_repeated(places: &Earliest, part: &ComponentPart) -> Option<u32>
    ensures { HasPlaces places.now (item_spots part.now) → result ≡ first_place (repeated (item_spots part.now)) }
{
    let ports = first_later(places, part.ports.as_slice());
    let vars = first_later(places, part.vars.as_slice());
    let slots = first_later(places, part.slots.as_slice());
    let channels = first_later(places, part.channels.as_slice());
    let handlers = first_later(places, part.handlers.as_slice());
    earlier(
        ports,
        earlier(vars, earlier(slots, earlier(channels, handlers))),
    )
}

/// The first name in a component type that is declared twice, or clashes with one in scope.
pub fn in_component(alloc: Global, part: &ComponentPart) -> Result<Option<u32>, AllocError>
    ensures { IfOk result (λ first. first ≡ first_place (name_clashes part.now)) }
{
    let places = places_of_items(alloc, part)?;
    let repeated = first_repeated(&places, part);
    let space = Space {
        part,
        places: &places,
    };
    let of_handlers = try_first_of(&space, alloc, part.handlers.as_slice())?;
    Ok(earlier(repeated, of_handlers))
}
