ghost use Rattle.std.specs.Prelude.{◌≡◌, ℕ, List, OnOk, map, length};
ghost use Rattle.std.specs.List.{flat_map};
ghost use Rattle.kom_rules.specs.Names.{earlier, first_place};
ghost use Rattle.kom_names.specs.Found.{place_in};
ghost use Rattle.kom_spaces.specs.Tables.{earliest, later_in};

use kom_names::Earliest;
use kom_system::{
    ChannelPart, ComponentPart, EventPart, HandlerPart, PortPart, PortTypePart, SlotPart, Spot,
    VarPart,
};
use kom_walks::{Of, at_if, first_of};
use std::alloc::{AllocError, Global};

/// A part of a syntax tree that declares a name.
pub trait Declares {
    ghost use Rattle.kom_system.specs.declared.parts.Spot.{Spot as Named};

    /// The name with its place.

    ghost named: { Self → Named };

    /// The name with its place.
    fn spot(&self) -> &Spot
        ensures { result.now ≡ named self.now };
}

impl Declares for EventPart {
    ghost named = { λ x. x.name };

    fn spot(&self) -> &Spot {
        &self.name
    }
}

impl Declares for PortTypePart {
    ghost named = { λ x. x.name };

    fn spot(&self) -> &Spot {
        &self.name
    }
}

impl Declares for ComponentPart {
    ghost named = { λ x. x.name };

    fn spot(&self) -> &Spot {
        &self.name
    }
}

impl Declares for PortPart {
    ghost named = { λ x. x.name };

    fn spot(&self) -> &Spot {
        &self.name
    }
}

impl Declares for VarPart {
    ghost named = { λ x. x.name };

    fn spot(&self) -> &Spot {
        &self.name
    }
}

impl Declares for SlotPart {
    ghost named = { λ x. x.name };

    fn spot(&self) -> &Spot {
        &self.name
    }
}

impl Declares for ChannelPart {
    ghost named = { λ x. x.name };

    fn spot(&self) -> &Spot {
        &self.name
    }
}

impl Declares for HandlerPart {
    ghost named = { λ x. x.name };

    fn spot(&self) -> &Spot {
        &self.name
    }
}

/// Notes the places of all names that these parts declare.
pub fn note_all<T: Declares>(
    alloc: Global,
    places: &mut Earliest,
    parts: &[T],
) -> Result<(), AllocError>
    ensures { OnOk result ((q : List ℕ) → place_in places.new q ≡ earlier (place_in places.old q) (earliest (map T.named parts.now) q)) }
{
    for part in parts {
        let spot = part.spot();
        places.note(alloc, spot.name.bytes(), spot.at)?;
    }
    Ok(())
}

/// What says of a name whether an equal one stands before it in the text.
#[derive(Drop)]
struct Later<'a> {
    places: &'a Earliest,
}

impl<T: Declares> Of<T> for Later<'_> {
    ghost places = { λ s x. later_in s.places.now (T.named x) };

    fn first(&self, part: &T) -> Option<u32> {
        let spot = part.spot();
        let before = match self.places.place(spot.name.bytes()) {
            Some(at) => at < spot.at,
            None => false,
        };
        at_if(before, spot.at)
    }
}

/// The first name of these parts that has an equal one before it in the text.
pub fn first_later<T: Declares>(places: &Earliest, parts: &[T]) -> Option<u32>
    ensures { result ≡ first_place (flat_map (later_in places.now) (map T.named parts.now)) }
{
    first_of(&Later { places }, parts)
}
